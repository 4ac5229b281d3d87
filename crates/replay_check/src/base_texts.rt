//! The base definitions and the axioms, as a table of canonical texts.

ghost use Rattle.std.specs.Prelude.{◌≡◌, ◌≤◌, length, slice_get, Some, IfSome, IfNone, true};
ghost use Rattle.hol_terms.specs.Base.{base_definitions};
ghost use Rattle.hol_terms.specs.Definition.{Definition};
ghost use Rattle.hol_terms.specs.Logic.{axioms};
ghost use Rattle.hol_terms.specs.Sequent.{Sequent};
ghost use Rattle.hol_terms.specs.Text.{tm_text};
ghost use Rattle.replay_check.specs.BaseTexts.{IsTextOf, are_texts, are_conclusions};

/// What a base definition defines.
#[derive(Clone, Copy, PartialEq, Eq)]
pub enum BaseKind {
    Constant,
    NewType,
}

/// A base definition: the name, and the constant's term or the type's predicate in canonical text.
#[derive(Clone, Copy)]
pub struct BaseText {
    pub kind: BaseKind,
    pub name: &'static str,
    pub term: &'static str,
}

static BASE: [BaseText; 52] = [
    BaseText {
        kind: BaseKind::Constant,
        name: "T",
        term: "(\\x0:bool. x0) = (\\x0:bool. x0)",
    },
    BaseText {
        kind: BaseKind::Constant,
        name: "conj",
        term: "\\x0:bool. \\x1:bool. (\\x2:bool -> bool -> bool. x2 x0 x1) = (\\x2:bool -> bool -> bool. x2 T T)",
    },
    BaseText {
        kind: BaseKind::Constant,
        name: "imp",
        term: "\\x0:bool. \\x1:bool. (x0 /\\ x1) = x0",
    },
    BaseText {
        kind: BaseKind::Constant,
        name: "all",
        term: "\\x0:'a -> bool. x0 = (\\x1:'a. T)",
    },
    BaseText {
        kind: BaseKind::Constant,
        name: "ex",
        term: "\\x0:'a -> bool. !x1:bool. (!x2:'a. x0 x2 ==> x1) ==> x1",
    },
    BaseText {
        kind: BaseKind::Constant,
        name: "disj",
        term: "\\x0:bool. \\x1:bool. !x2:bool. (x0 ==> x2) ==> ((x1 ==> x2) ==> x2)",
    },
    BaseText {
        kind: BaseKind::Constant,
        name: "F",
        term: "!x0:bool. x0",
    },
    BaseText {
        kind: BaseKind::Constant,
        name: "not",
        term: "\\x0:bool. x0 ==> F",
    },
    BaseText {
        kind: BaseKind::Constant,
        name: "one_one",
        term: "\\x0:'a -> 'b. !x1:'a. !x2:'a. (x0 x1 = x0 x2) ==> (x1 = x2)",
    },
    BaseText {
        kind: BaseKind::Constant,
        name: "onto",
        term: "\\x0:'a -> 'b. !x1:'b. ?x2:'a. x1 = x0 x2",
    },
    BaseText {
        kind: BaseKind::Constant,
        name: "id",
        term: "\\x0:'a. x0",
    },
    BaseText {
        kind: BaseKind::Constant,
        name: "if",
        term: "\\x0:bool. \\x1:'a. \\x2:'a. some{'a} (\\x3:'a. ((x0 = T) ==> (x3 = x1)) /\\ ((x0 = F) ==> (x3 = x2)))",
    },
    BaseText {
        kind: BaseKind::NewType,
        name: "unit",
        term: "\\x0:bool. x0",
    },
    BaseText {
        kind: BaseKind::Constant,
        name: "one",
        term: "some{unit} (\\x0:unit. T)",
    },
    BaseText {
        kind: BaseKind::Constant,
        name: "prod.graph",
        term: "\\x0:'a. \\x1:'b. \\x2:'a. \\x3:'b. (x2 = x0) /\\ (x3 = x1)",
    },
    BaseText {
        kind: BaseKind::NewType,
        name: "prod",
        term: "\\x0:'a -> 'b -> bool. ?x1:'a. ?x2:'b. x0 = prod.graph{'a,'b} x1 x2",
    },
    BaseText {
        kind: BaseKind::Constant,
        name: "pair",
        term: "\\x0:'a. \\x1:'b. prod.abs{'a,'b} (prod.graph{'a,'b} x0 x1)",
    },
    BaseText {
        kind: BaseKind::Constant,
        name: "fst",
        term: "\\x0:('a,'b) prod. some{'a} (\\x1:'a. ?x2:'b. x0 = pair{'a,'b} x1 x2)",
    },
    BaseText {
        kind: BaseKind::Constant,
        name: "snd",
        term: "\\x0:('a,'b) prod. some{'b} (\\x1:'b. ?x2:'a. x0 = pair{'a,'b} x2 x1)",
    },
    BaseText {
        kind: BaseKind::Constant,
        name: "prod.map",
        term: "\\x0:'a -> 'b. \\x1:'c -> 'd. \\x2:('a,'c) prod. pair{'b,'d} (x0 (fst{'a,'c} x2)) (x1 (snd{'a,'c} x2))",
    },
    BaseText {
        kind: BaseKind::Constant,
        name: "prod.set1",
        term: "\\x0:('a,'b) prod. \\x1:'a. x1 = fst{'a,'b} x0",
    },
    BaseText {
        kind: BaseKind::Constant,
        name: "prod.set2",
        term: "\\x0:('a,'b) prod. \\x1:'b. x1 = snd{'a,'b} x0",
    },
    BaseText {
        kind: BaseKind::Constant,
        name: "prod.rel",
        term: "\\x0:'a -> 'b -> bool. \\x1:'c -> 'd -> bool. \\x2:('a,'c) prod. \\x3:('b,'d) prod. x0 (fst{'a,'c} x2) (fst{'b,'d} x3) /\\ x1 (snd{'a,'c} x2) (snd{'b,'d} x3)",
    },
    BaseText {
        kind: BaseKind::Constant,
        name: "sum.left",
        term: "\\x0:'a. \\x1:bool. \\x2:'a. \\x3:'b. x1 /\\ (x2 = x0)",
    },
    BaseText {
        kind: BaseKind::Constant,
        name: "sum.right",
        term: "\\x0:'b. \\x1:bool. \\x2:'a. \\x3:'b. (~ x1) /\\ (x3 = x0)",
    },
    BaseText {
        kind: BaseKind::NewType,
        name: "sum",
        term: "\\x0:bool -> 'a -> 'b -> bool. (?x1:'a. x0 = sum.left{'a,'b} x1) \\/ (?x1:'b. x0 = sum.right{'b,'a} x1)",
    },
    BaseText {
        kind: BaseKind::Constant,
        name: "inl",
        term: "\\x0:'a. sum.abs{'a,'b} (sum.left{'a,'b} x0)",
    },
    BaseText {
        kind: BaseKind::Constant,
        name: "inr",
        term: "\\x0:'b. sum.abs{'a,'b} (sum.right{'b,'a} x0)",
    },
    BaseText {
        kind: BaseKind::Constant,
        name: "sum.case",
        term: "\\x0:'a -> 'b. \\x1:'c -> 'b. \\x2:('a,'c) sum. some{'b} (\\x3:'b. (?x4:'a. (x2 = inl{'a,'c} x4) /\\ (x3 = x0 x4)) \\/ (?x4:'c. (x2 = inr{'c,'a} x4) /\\ (x3 = x1 x4)))",
    },
    BaseText {
        kind: BaseKind::Constant,
        name: "sum.map",
        term: "\\x0:'a -> 'b. \\x1:'c -> 'd. sum.case{'a,('b,'d) sum,'c} (\\x2:'a. inl{'b,'d} (x0 x2)) (\\x2:'c. inr{'d,'b} (x1 x2))",
    },
    BaseText {
        kind: BaseKind::Constant,
        name: "sum.set1",
        term: "\\x0:('a,'b) sum. \\x1:'a. x0 = inl{'a,'b} x1",
    },
    BaseText {
        kind: BaseKind::Constant,
        name: "sum.set2",
        term: "\\x0:('a,'b) sum. \\x1:'b. x0 = inr{'b,'a} x1",
    },
    BaseText {
        kind: BaseKind::Constant,
        name: "sum.rel",
        term: "\\x0:'a -> 'b -> bool. \\x1:'c -> 'd -> bool. \\x2:('a,'c) sum. \\x3:('b,'d) sum. (?x4:'a. ?x5:'b. (x2 = inl{'a,'c} x4) /\\ ((x3 = inl{'b,'d} x5) /\\ x0 x4 x5)) \\/ (?x4:'c. ?x5:'d. (x2 = inr{'c,'a} x4) /\\ ((x3 = inr{'d,'b} x5) /\\ x1 x4 x5))",
    },
    BaseText {
        kind: BaseKind::Constant,
        name: "num.suc_ind",
        term: "some{ind -> ind} (\\x0:ind -> ind. one_one{ind,ind} x0 /\\ (~ onto{ind,ind} x0))",
    },
    BaseText {
        kind: BaseKind::Constant,
        name: "num.zero_ind",
        term: "some{ind} (\\x0:ind. !x1:ind. ~ (num.suc_ind x1 = x0))",
    },
    BaseText {
        kind: BaseKind::Constant,
        name: "num.is",
        term: "\\x0:ind. !x1:ind -> bool. (x1 num.zero_ind /\\ (!x2:ind. x1 x2 ==> x1 (num.suc_ind x2))) ==> x1 x0",
    },
    BaseText {
        kind: BaseKind::NewType,
        name: "num",
        term: "num.is",
    },
    BaseText {
        kind: BaseKind::Constant,
        name: "0",
        term: "num.abs num.zero_ind",
    },
    BaseText {
        kind: BaseKind::Constant,
        name: "suc",
        term: "\\x0:num. num.abs (num.suc_ind (num.rep x0))",
    },
    BaseText {
        kind: BaseKind::Constant,
        name: "num.rec",
        term: "\\x0:'a. \\x1:num -> 'a -> 'a. some{num -> 'a} (\\x2:num -> 'a. (x2 0 = x0) /\\ (!x3:num. x2 (suc x3) = x1 x3 (x2 x3)))",
    },
    BaseText {
        kind: BaseKind::Constant,
        name: "num.le",
        term: "\\x0:num. \\x1:num. !x2:num -> bool. (x2 x0 /\\ (!x3:num. x2 x3 ==> x2 (suc x3))) ==> x2 x1",
    },
    BaseText {
        kind: BaseKind::Constant,
        name: "num.dbl",
        term: "num.rec{num} 0 (\\x0:num. \\x1:num. suc (suc x1))",
    },
    BaseText {
        kind: BaseKind::Constant,
        name: "num.cons",
        term: "\\x0:num. \\x1:num. num.rec{num} (suc (num.dbl x1)) (\\x2:num. \\x3:num. num.dbl x3) x0",
    },
    BaseText {
        kind: BaseKind::Constant,
        name: "countable",
        term: "\\x0:'a -> bool. ?x1:'a -> num. !x2:'a. !x3:'a. x0 x2 ==> (x0 x3 ==> ((x1 x2 = x1 x3) ==> (x2 = x3)))",
    },
    BaseText {
        kind: BaseKind::NewType,
        name: "cset",
        term: "countable{'a}",
    },
    BaseText {
        kind: BaseKind::Constant,
        name: "cset.empty",
        term: "cset.abs{'a} (\\x0:'a. F)",
    },
    BaseText {
        kind: BaseKind::Constant,
        name: "cset.map",
        term: "\\x0:'a -> 'b. \\x1:'a cset. cset.abs{'b} (\\x2:'b. ?x3:'a. cset.rep{'a} x1 x3 /\\ (x2 = x0 x3))",
    },
    BaseText {
        kind: BaseKind::Constant,
        name: "cset.set1",
        term: "\\x0:'a cset. cset.rep{'a} x0",
    },
    BaseText {
        kind: BaseKind::Constant,
        name: "cset.rel",
        term: "\\x0:'a -> 'b -> bool. \\x1:'a cset. \\x2:'b cset. (!x3:'a. cset.rep{'a} x1 x3 ==> (?x4:'b. cset.rep{'b} x2 x4 /\\ x0 x3 x4)) /\\ (!x3:'b. cset.rep{'b} x2 x3 ==> (?x4:'a. cset.rep{'a} x1 x4 /\\ x0 x4 x3))",
    },
    BaseText {
        kind: BaseKind::Constant,
        name: "fun.map",
        term: "\\x0:'a -> 'b. \\x1:'c -> 'a. \\x2:'c. x0 (x1 x2)",
    },
    BaseText {
        kind: BaseKind::Constant,
        name: "fun.set2",
        term: "\\x0:'a -> 'b. \\x1:'b. ?x2:'a. x1 = x0 x2",
    },
    BaseText {
        kind: BaseKind::Constant,
        name: "fun.rel",
        term: "\\x0:'a -> 'b -> bool. \\x1:'c -> 'a. \\x2:'c -> 'b. !x3:'c. x0 (x1 x3) (x2 x3)",
    },
];

static AXIOMS: [&str; 3] = [
    "!x0:'a -> 'b. (\\x1:'a. x0 x1) = x0",
    "!x0:'a -> bool. !x1:'a. x0 x1 ==> x0 (some{'a} x0)",
    "?x0:ind -> ind. one_one{ind,ind} x0 /\\ (~ onto{ind,ind} x0)",
];

/// The base definition of that place, counted from 0.
pub fn base_text(place: usize) -> Option<BaseText>
    ensures some { IfSome result (λ b. (d : Definition) × (slice_get base_definitions place ≡ Some d) × IsTextOf b d) }
    ensures none { IfNone result (length base_definitions ≤ place) }
{
    definition_at(&BASE, place)
}

/// The conclusion of the axiom of that place, counted from 0, in canonical text.
pub fn axiom_text(place: usize) -> Option<&'static str>
    ensures some { IfSome result (λ b. (a : Sequent) × (slice_get axioms place ≡ Some a) × (b.now ≡ tm_text a.concl)) }
    ensures none { IfNone result (length axioms ≤ place) }
{
    conclusion_at(&AXIOMS, place)
}

/// The text of that place in a table of the base definitions.
fn definition_at(texts: &[BaseText], place: usize) -> Option<BaseText>
    requires { are_texts texts.now base_definitions ≡ true }
    ensures some { IfSome result (λ b. (d : Definition) × (slice_get base_definitions place ≡ Some d) × IsTextOf b d) }
    ensures none { IfNone result (length base_definitions ≤ place) }
{
    match texts.get(place) {
        Some(text) => Some(*text),
        None => None,
    }
}

/// The text of that place in a table of the axioms.
fn conclusion_at(texts: &[&'static str], place: usize) -> Option<&'static str>
    requires { are_conclusions texts.now axioms ≡ true }
    ensures some { IfSome result (λ b. (a : Sequent) × (slice_get axioms place ≡ Some a) × (b.now ≡ tm_text a.concl)) }
    ensures none { IfNone result (length axioms ≤ place) }
{
    match texts.get(place) {
        Some(text) => Some(*text),
        None => None,
    }
}
