//! Laws of the kernel's calculus: each function does nothing, and its contract is the law. `gives` says what a rule gives,
//! `only` that it gives nothing else, and `derives` that what it gives is derivable.

ghost use Rattle.std.specs.List.{AllPairs};
ghost use Rattle.std.specs.Prelude.{◌≡◌, ◌≢◌, ◌⊎◌, ◌↔◌, ℕ, true, false, List, [], ◌∷◌, ◌++◌, map, All, Contains, Some, slice_get};
ghost use Rattle.hol_terms.specs.Name.{Name};
ghost use Rattle.hol_terms.specs.Ty.{Ty};
ghost use Rattle.hol_terms.specs.Tm.{Tm, tm_free, tm_comb, tm_abs, FreeVar};
ghost use Rattle.hol_terms.specs.Typing.{tm_type};
ghost use Rattle.hol_terms.specs.Takes.{Takes};
ghost use Rattle.hol_terms.specs.TyVars.{own_const};
ghost use Rattle.hol_terms.specs.Subst.{TySubst};
ghost use Rattle.hol_terms.specs.Binding.{VarSubst, tm_inst, tm_open, tm_ty_subst, has_free};
ghost use Rattle.hol_terms.specs.Keeps.{KeepsTypes};
ghost use Rattle.hol_terms.specs.Signature.{Signature, IsOver};
ghost use Rattle.hol_terms.specs.Definition.{Definition, const_def, type_def, bool_ty, signature_of};
ghost use Rattle.hol_terms.specs.Sequent.{Sequent, seq, eq_tm, union};
ghost use Rattle.hol_terms.specs.Rules.{lambda, without, free_in_none, are_distinct_types, are_distinct_vars, refl_rule, trans_rule, comb_rule, abs_rule, beta_rule, assume_rule, eq_mp_rule, deduct_rule, inst_type_rule, inst_rule};
ghost use Rattle.hol_terms.specs.Logic.{axioms};
ghost use Rattle.hol_terms.specs.Base.{base};
ghost use Rattle.hol_terms.specs.Proves.{AreTypesOver, AreOver, IsPrefix, IsTypedOver, IsConstDef, IsTypeDef, AreConservative, IsDerivable, abs_rep, rep_abs};
ghost use Rattle.hol_terms.specs.declared.defs.Def.{Def};
ghost use Rattle.hol_kernel.specs.Ascending.{Ascends};
ghost use Rattle.hol_kernel.specs.State.{State};
ghost use Rattle.hol_kernel.specs.Run.{IsRun};
ghost use Rattle.hol_kernel.specs.declared.step.Step.{Step};

/// Weakening: what is derivable over some definitions is derivable over each conservative list that begins with them.
pub fn derivable_over_more()
    ensures { (ds es : List Definition) (a : Sequent) → IsPrefix ds es → AreConservative es → IsDerivable ds a → IsDerivable es a }
{}

/// Each sequent that is derivable is well typed: its hypotheses and its conclusion are boolean terms that are well typed over
/// the definitions.
pub fn derivable_is_typed()
    ensures { (ds : List Definition) (a : Sequent) → IsDerivable ds a → IsTypedOver ds a }
{}

/// The hypotheses of a sequent that is derivable ascend in the term order, each once.
pub fn hypotheses_ascend()
    ensures { (ds : List Definition) (a : Sequent) → IsDerivable ds a → Ascends a.hyps }
{}

/// Hypotheses are a set: lists that ascend and have the same terms are the same.
pub fn hypotheses_are_a_set()
    ensures { (A B : List Tm) → Ascends A → Ascends B → ((t : Tm) → Contains A t ↔ Contains B t) → A ≡ B }
{}

/// Among the hypotheses of two lists joined are those of either, and no others. They ascend where those of the second do.
pub fn union_is_either()
    ensures members { (A B : List Tm) (t : Tm) → Contains (union A B) t ↔ (Contains A t ⊎ Contains B t) }
    ensures ascends { (A B : List Tm) → Ascends B → Ascends (union A B) }
{}

/// Among the hypotheses without a term are all the others, and no more. They still ascend.
pub fn without_is_the_others()
    ensures members { (t : Tm) (A : List Tm) (u : Tm) → Contains (without t A) u ↔ (Contains A u × (u ≢ t)) }
    ensures ascends { (t : Tm) (A : List Tm) → Ascends A → Ascends (without t A) }
{}

/// A variable is free in none of the terms where it is not free in each of them.
pub fn not_free_in_any()
    ensures { (v : FreeVar) (A : List Tm) → (free_in_none v A ≡ true) ↔ All (λ h. has_free v h ≡ false) A }
{}

/// The left sides of pairs are distinct where each differs from all later ones.
pub fn left_sides_are_distinct()
    ensures types { (s : TySubst) → (are_distinct_types s ≡ true) ↔ AllPairs (λ p q. p.0 ≢ q.0) s }
    ensures terms { (s : VarSubst) → (are_distinct_vars s ≡ true) ↔ AllPairs (λ p q. p.0 ≢ q.0) s }
{}

/// REFL: `|- t = t`.
pub fn refl()
    ensures gives { (t : Tm) → refl_rule t ≡ Some (seq [] (eq_tm t t)) }
    ensures derives { (ds : List Definition) (t : Tm) → AreConservative ds → IsOver (signature_of ds) [] t → IsDerivable ds (seq [] (eq_tm t t)) }
{}

/// TRANS: from `A |- s = t` and `B |- t = u` follows `A, B |- s = u`.
pub fn trans()
    ensures gives { (A B : List Tm) (s t u : Tm) → trans_rule (seq A (eq_tm s t)) (seq B (eq_tm t u)) ≡ Some (seq (union A B) (eq_tm s u)) }
    ensures only { (a b c : Sequent) → trans_rule a b ≡ Some c
        → (s : Tm) × (t : Tm) × (u : Tm) × (a.concl ≡ eq_tm s t) × (b.concl ≡ eq_tm t u) × (c ≡ seq (union a.hyps b.hyps) (eq_tm s u)) }
    ensures derives { (ds : List Definition) (A B : List Tm) (s t u : Tm) → IsDerivable ds (seq A (eq_tm s t)) → IsDerivable ds (seq B (eq_tm t u))
        → IsDerivable ds (seq (union A B) (eq_tm s u)) }
{}

/// MK_COMB: from `A |- f = g` and `B |- x = y`, where f takes x, follows `A, B |- f x = g y`.
pub fn mk_comb()
    ensures gives { (A B : List Tm) (f g x y : Tm) → Takes f x
        → comb_rule (seq A (eq_tm f g)) (seq B (eq_tm x y)) ≡ Some (seq (union A B) (eq_tm (tm_comb f x) (tm_comb g y))) }
    ensures only { (a b c : Sequent) → comb_rule a b ≡ Some c
        → (f : Tm) × (g : Tm) × (x : Tm) × (y : Tm) × (a.concl ≡ eq_tm f g) × (b.concl ≡ eq_tm x y) × Takes f x × (c ≡ seq (union a.hyps b.hyps) (eq_tm (tm_comb f x) (tm_comb g y))) }
    ensures derives { (ds : List Definition) (A B : List Tm) (f g x y : Tm) → Takes f x → IsDerivable ds (seq A (eq_tm f g)) → IsDerivable ds (seq B (eq_tm x y))
        → IsDerivable ds (seq (union A B) (eq_tm (tm_comb f x) (tm_comb g y))) }
{}

/// ABS: from `A |- s = t`, where the variable v is free in no term of A, follows `A |- (\v. s) = (\v. t)`.
pub fn abs()
    ensures gives { (A : List Tm) (v : FreeVar) (s t : Tm) → free_in_none v A ≡ true → abs_rule v (seq A (eq_tm s t)) ≡ Some (seq A (eq_tm (lambda v s) (lambda v t))) }
    ensures only { (v : FreeVar) (a c : Sequent) → abs_rule v a ≡ Some c
        → (s : Tm) × (t : Tm) × (a.concl ≡ eq_tm s t) × (free_in_none v a.hyps ≡ true) × (c ≡ seq a.hyps (eq_tm (lambda v s) (lambda v t))) }
    ensures derives { (ds : List Definition) (A : List Tm) (v : FreeVar) (s t : Tm) → IsOver (signature_of ds) [] (tm_free v) → free_in_none v A ≡ true
        → IsDerivable ds (seq A (eq_tm s t)) → IsDerivable ds (seq A (eq_tm (lambda v s) (lambda v t))) }
{}

/// BETA: `|- (\v. t) v = t`. Of an abstraction whose body lacks v it gives the body with v in place of the bound variable.
pub fn beta()
    ensures gives { (s : Signature) (v : FreeVar) (t : Tm) → IsOver s [] t → beta_rule (tm_comb (lambda v t) (tm_free v)) ≡ Some (seq [] (eq_tm (tm_comb (lambda v t) (tm_free v)) t)) }
    ensures gives_opened { (a : Ty) (b : Tm) (v : FreeVar) → has_free v b ≡ false
        → beta_rule (tm_comb (tm_abs a b) (tm_free v)) ≡ Some (seq [] (eq_tm (tm_comb (tm_abs a b) (tm_free v)) (tm_open 0 v b))) }
    ensures only { (t : Tm) (c : Sequent) → beta_rule t ≡ Some c
        → (a : Ty) × (b : Tm) × (v : FreeVar) × (t ≡ tm_comb (tm_abs a b) (tm_free v)) × (has_free v b ≡ false) × (c ≡ seq [] (eq_tm t (tm_open 0 v b))) }
    ensures derives { (ds : List Definition) (v : FreeVar) (t : Tm) → AreConservative ds → IsOver (signature_of ds) [] (tm_free v) → IsOver (signature_of ds) [] t
        → IsDerivable ds (seq [] (eq_tm (tm_comb (lambda v t) (tm_free v)) t)) }
{}

/// ASSUME: `p |- p`, where p is boolean.
pub fn assume()
    ensures gives { (p : Tm) → tm_type p ≡ bool_ty → assume_rule p ≡ Some (seq (p ∷ []) p) }
    ensures only { (p : Tm) (c : Sequent) → assume_rule p ≡ Some c → (tm_type p ≡ bool_ty) × (c ≡ seq (p ∷ []) p) }
    ensures derives { (ds : List Definition) (p : Tm) → AreConservative ds → IsOver (signature_of ds) [] p → tm_type p ≡ bool_ty → IsDerivable ds (seq (p ∷ []) p) }
{}

/// EQ_MP: from `A |- p = q` and `B |- p` follows `A, B |- q`.
pub fn eq_mp()
    ensures gives { (A B : List Tm) (p q : Tm) → eq_mp_rule (seq A (eq_tm p q)) (seq B p) ≡ Some (seq (union A B) q) }
    ensures only { (a b c : Sequent) → eq_mp_rule a b ≡ Some c → (q : Tm) × (a.concl ≡ eq_tm b.concl q) × (c ≡ seq (union a.hyps b.hyps) q) }
    ensures derives { (ds : List Definition) (A B : List Tm) (p q : Tm) → IsDerivable ds (seq A (eq_tm p q)) → IsDerivable ds (seq B p) → IsDerivable ds (seq (union A B) q) }
{}

/// DEDUCT_ANTISYM_RULE: from `A |- p` and `B |- q` follows `(A without q), (B without p) |- p = q`.
pub fn deduct_antisym()
    ensures gives { (A B : List Tm) (p q : Tm) → deduct_rule (seq A p) (seq B q) ≡ Some (seq (union (without q A) (without p B)) (eq_tm p q)) }
    ensures derives { (ds : List Definition) (A B : List Tm) (p q : Tm) → IsDerivable ds (seq A p) → IsDerivable ds (seq B q)
        → IsDerivable ds (seq (union (without q A) (without p B)) (eq_tm p q)) }
{}

/// INST_TYPE: from `A |- p` follows the same with types for type variables, all at once. There is at least one pair, and the left
/// sides are distinct.
pub fn inst_type()
    ensures gives { (s : TySubst) (A : List Tm) (p : Tm) → s ≢ [] → are_distinct_types s ≡ true
        → inst_type_rule s (seq A p) ≡ Some (seq (union (map (tm_ty_subst s) A) []) (tm_ty_subst s p)) }
    ensures only { (s : TySubst) (a c : Sequent) → inst_type_rule s a ≡ Some c
        → (s ≢ []) × (are_distinct_types s ≡ true) × (c ≡ seq (union (map (tm_ty_subst s) a.hyps) []) (tm_ty_subst s a.concl)) }
    ensures derives { (ds : List Definition) (s : TySubst) (A : List Tm) (p : Tm) → AreTypesOver (signature_of ds) s → s ≢ [] → are_distinct_types s ≡ true
        → IsDerivable ds (seq A p) → IsDerivable ds (seq (union (map (tm_ty_subst s) A) []) (tm_ty_subst s p)) }
{}

/// INST: from `A |- p` follows the same with terms for free variables of their types, all at once. There is at least one pair, and
/// the left sides are distinct.
pub fn inst()
    ensures gives { (s : VarSubst) (A : List Tm) (p : Tm) → s ≢ [] → are_distinct_vars s ≡ true → KeepsTypes s
        → inst_rule s (seq A p) ≡ Some (seq (union (map (tm_inst s) A) []) (tm_inst s p)) }
    ensures only { (s : VarSubst) (a c : Sequent) → inst_rule s a ≡ Some c
        → (s ≢ []) × (are_distinct_vars s ≡ true) × KeepsTypes s × (c ≡ seq (union (map (tm_inst s) a.hyps) []) (tm_inst s a.concl)) }
    ensures derives { (ds : List Definition) (s : VarSubst) (A : List Tm) (p : Tm) → AreOver (signature_of ds) s → s ≢ [] → are_distinct_vars s ≡ true → KeepsTypes s
        → IsDerivable ds (seq A p) → IsDerivable ds (seq (union (map (tm_inst s) A) []) (tm_inst s p)) }
{}

/// The axioms of extensionality, choice and infinity are derivable where the definitions begin with those of the connectives.
pub fn axioms_are_derivable()
    ensures { (ds : List Definition) (a : Sequent) → AreConservative ds → IsPrefix (base 10) ds → Contains axioms a → IsDerivable ds a }
{}

/// A new constant c for a closed term t: `|- c = t` is derivable once it is defined, and the definitions stay conservative.
pub fn new_constant()
    ensures { (ds : List Definition) (c : Name) (t : Tm) → AreConservative ds → IsConstDef ds c t
        → IsDerivable (ds ++ const_def c t ∷ []) (seq [] (eq_tm (own_const c (tm_type t)) t)) }
{}

/// A new type n for a predicate p that holds of something: `|- n.abs (n.rep a) = a` and `|- p r = (n.rep (n.abs r) = r)` are
/// derivable once it is defined, and the definitions stay conservative.
pub fn new_type()
    ensures { (ds : List Definition) (n : Name) (p : Tm) → AreConservative ds → IsTypeDef ds n p
        → IsDerivable (ds ++ type_def n p ∷ []) (seq [] (abs_rep n p)) × IsDerivable (ds ++ type_def n p ∷ []) (seq [] (rep_abs n p)) }
{}

/// The sequent of each step of a run is derivable over the definitions of the run.
pub fn steps_are_derivable()
    ensures { (ds : List Def) (ss : List Step) (k : State) (i : ℕ) (a : Sequent) → IsRun ds ss k → slice_get k.steps i ≡ Some a → IsDerivable k.defs a }
{}
