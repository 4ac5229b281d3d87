//! Laws of the strict reading: each function does nothing, and its contract is the law.

ghost use Rattle.std.specs.Prelude.{◌≡◌, ◌+◌, ◌<◌, ◌^◌, ℕ, true, Some, List, [], ◌++◌, length};
ghost use Rattle.hol_terms.specs.Name.{Name, is_name};
ghost use Rattle.hol_terms.specs.Ty.{Ty, tys};
ghost use Rattle.hol_terms.specs.Tm.{Tm, FreeVar, tm_free};
ghost use Rattle.hol_terms.specs.Signature.{Signature, IsTyOver, AreTysOver, IsOver, arity_of};
ghost use Rattle.hol_terms.specs.ReadsBack.{ReadsBack};
ghost use Rattle.hol_terms.specs.Text.{Text, ty_text, tm_text, printed};
ghost use Rattle.strict_reading.specs.Types.{reads_type, reads_onward, reads_types, type_readings, type_step, onward_step, more_step, ends_type};
ghost use Rattle.strict_reading.specs.Terms.{reads_term, reads_arguments, term_readings, term_step, behind_operand_step, reads_free, ends_term};

/// What is read as a type is a well formed type over the signature, and its canonical text stands there, before what is left.
pub fn types_read_are_well_formed()
    ensures { (s : Signature) (x : Text) (t : Ty) (rest : Text) → reads_type s x ≡ Some (t, rest) → (x ≡ ty_text t ++ rest) × IsTyOver s t }
{}

/// The canonical text of a well formed type is read as the type, where the text that follows does not go on with it. The
/// signature is to call types by names.
pub fn types_are_read()
    ensures { (s : Signature) (t : Ty) (rest : Text) → ((c : Name) (k : ℕ) → arity_of s c ≡ Some k → is_name c ≡ true) → IsTyOver s t → ends_type rest ≡ true → reads_type s (ty_text t ++ rest) ≡ Some (t, rest) }
{}

/// What is read as a term below binders of well formed types is a well typed term, and its canonical text stands there, before
/// what is left.
pub fn terms_read_are_well_typed()
    ensures { (s : Signature) (bound : List Ty) (x : Text) (t : Tm) (rest : Text) → AreTysOver s (tys bound) → reads_term s bound x ≡ Some (t, rest) → (x ≡ (printed (length bound) t).whole ++ rest) × IsOver s bound t }
{}

/// The canonical text of a well typed term is read as the term, where the text that follows does not go on with it, the signature
/// is one over which canonical text reads back, and the text and the binders around it are fewer than 2^64.
pub fn terms_are_read()
    ensures { (s : Signature) (bound : List Ty) (t : Tm) (rest : Text) → ReadsBack s → IsOver s bound t → length bound + length (printed (length bound) t).whole < 2 ^ 64 → ends_term rest ≡ true → reads_term s bound ((printed (length bound) t).whole ++ rest) ≡ Some (t, rest) }
{}

/// A text of less than 2^64 bytes is the canonical text of a closed well typed term exactly where it is read as that term, and
/// nothing is left.
pub fn whole_texts_are_decided()
    ensures read { (s : Signature) (x : Text) (t : Tm) → reads_term s [] x ≡ Some (t, []) → (x ≡ tm_text t) × IsOver s [] t }
    ensures readable { (s : Signature) (x : Text) (t : Tm) → ReadsBack s → length x < 2 ^ 64 → x ≡ tm_text t → IsOver s [] t → reads_term s [] x ≡ Some (t, []) }
{}

/// What is read as a free variable is one with a name and a well formed type, and its canonical text stands there, before what
/// is left; and that text is read as the variable, whatever follows.
pub fn free_variables_are_read()
    ensures read { (s : Signature) (x : Text) (v : FreeVar) (rest : Text) → reads_free s x ≡ Some (v, rest) → (x ≡ tm_text (tm_free v) ++ rest) × IsOver s [] (tm_free v) }
    ensures readable { (s : Signature) (v : FreeVar) (rest : Text) → ((c : Name) (k : ℕ) → arity_of s c ≡ Some k → is_name c ≡ true) → IsOver s [] (tm_free v) → reads_free s (tm_text (tm_free v) ++ rest) ≡ Some (v, rest) }
{}

/// How a type is read: by one step, and readings of what follows. So a reader that recurses is compared with one step at a time.
pub fn types_are_read_by_steps()
    ensures whole { (s : Signature) (x : Text) → reads_type s x ≡ type_step s (type_readings s) x }
    ensures onward { (s : Signature) (t : Ty) (x : Text) → reads_onward s t x ≡ onward_step s (type_readings s) t x }
    ensures more { (s : Signature) (x : Text) → reads_types s x ≡ more_step (type_readings s) x }
{}

/// How a term is read below binders of well formed types: by one step, and readings of what follows.
pub fn terms_are_read_by_steps()
    ensures whole { (s : Signature) (bound : List Ty) (x : Text) → AreTysOver s (tys bound) → reads_term s bound x ≡ term_step s (term_readings s) bound x }
    ensures onward { (s : Signature) (bound : List Ty) (t : Tm) (x : Text) → AreTysOver s (tys bound) → reads_arguments s bound t x ≡ behind_operand_step s (term_readings s) bound t x }
{}
