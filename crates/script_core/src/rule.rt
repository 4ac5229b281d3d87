//! The kinds of lines, by their first words.

ghost use Rattle.std.specs.Prelude.{◌≡◌};
ghost use Rattle.hol_terms.specs.Signature.{entry_at};
ghost use Rattle.script_core.specs.Words.{kind_named, rows};

/// A rule of a term.
#[derive(Clone, Copy)]
pub enum TermRule {
    Refl,
    Assume,
    Beta,
    BetaConv,
    EtaConv,
    BetaNorm,
}

/// A rule of a theorem.
#[derive(Clone, Copy)]
pub enum ThmRule {
    ConjL,
    ConjR,
    NotI,
    NotE,
    Sym,
    EqtI,
    EqtE,
    /// The conclusion's beta normal form in its place.
    Norm,
}

/// A rule of two theorems.
#[derive(Clone, Copy)]
pub enum TwoThmRule {
    Trans,
    Comb,
    EqMp,
    Deduct,
    ConjI,
    Mp,
}

/// A rule of a term, or a variable, and a theorem.
#[derive(Clone, Copy)]
pub enum TermThmRule {
    Abs,
    Gen,
    DisjR,
    Disch,
    Spec,
    RewriteAll,
}

/// What a definition says: that of a constant, and the two theorems of a type.
#[derive(Clone, Copy)]
pub enum DefRule {
    Constant,
    TypeAbs,
    TypeRep,
}

/// The rule of a line that makes a theorem.
#[derive(Clone, Copy)]
pub enum Rule {
    OfTerm(TermRule),
    OfThm(ThmRule),
    OfTwoThms(TwoThmRule),
    OfTermAndThm(TermThmRule),
    OfDefinition(DefRule),
    Axiom,
    DisjL,
    DisjE,
    ExI,
    Choose,
    Subst,
    InstType,
    Inst,
    RewriteAt,
}

/// What a line makes: the type or the term that its text is, or a theorem.
#[derive(Clone, Copy)]
pub enum LineKind {
    TypeText,
    TermText,
    Step(Rule),
}

static KINDS: [(&str, LineKind); 40] = [
    ("type", LineKind::TypeText),
    ("term", LineKind::TermText),
    ("refl", LineKind::Step(Rule::OfTerm(TermRule::Refl))),
    ("assume", LineKind::Step(Rule::OfTerm(TermRule::Assume))),
    ("beta", LineKind::Step(Rule::OfTerm(TermRule::Beta))),
    ("trans", LineKind::Step(Rule::OfTwoThms(TwoThmRule::Trans))),
    ("comb", LineKind::Step(Rule::OfTwoThms(TwoThmRule::Comb))),
    ("eq_mp", LineKind::Step(Rule::OfTwoThms(TwoThmRule::EqMp))),
    (
        "deduct",
        LineKind::Step(Rule::OfTwoThms(TwoThmRule::Deduct)),
    ),
    ("abs", LineKind::Step(Rule::OfTermAndThm(TermThmRule::Abs))),
    ("inst_type", LineKind::Step(Rule::InstType)),
    ("inst", LineKind::Step(Rule::Inst)),
    ("axiom", LineKind::Step(Rule::Axiom)),
    ("def", LineKind::Step(Rule::OfDefinition(DefRule::Constant))),
    (
        "type_abs",
        LineKind::Step(Rule::OfDefinition(DefRule::TypeAbs)),
    ),
    (
        "type_rep",
        LineKind::Step(Rule::OfDefinition(DefRule::TypeRep)),
    ),
    ("conj_i", LineKind::Step(Rule::OfTwoThms(TwoThmRule::ConjI))),
    ("conj_l", LineKind::Step(Rule::OfThm(ThmRule::ConjL))),
    ("conj_r", LineKind::Step(Rule::OfThm(ThmRule::ConjR))),
    ("disj_l", LineKind::Step(Rule::DisjL)),
    (
        "disj_r",
        LineKind::Step(Rule::OfTermAndThm(TermThmRule::DisjR)),
    ),
    ("disj_e", LineKind::Step(Rule::DisjE)),
    ("not_i", LineKind::Step(Rule::OfThm(ThmRule::NotI))),
    ("not_e", LineKind::Step(Rule::OfThm(ThmRule::NotE))),
    (
        "disch",
        LineKind::Step(Rule::OfTermAndThm(TermThmRule::Disch)),
    ),
    ("mp", LineKind::Step(Rule::OfTwoThms(TwoThmRule::Mp))),
    ("gen", LineKind::Step(Rule::OfTermAndThm(TermThmRule::Gen))),
    (
        "spec",
        LineKind::Step(Rule::OfTermAndThm(TermThmRule::Spec)),
    ),
    ("ex_i", LineKind::Step(Rule::ExI)),
    ("choose", LineKind::Step(Rule::Choose)),
    ("subst", LineKind::Step(Rule::Subst)),
    ("sym", LineKind::Step(Rule::OfThm(ThmRule::Sym))),
    ("eqt_i", LineKind::Step(Rule::OfThm(ThmRule::EqtI))),
    ("eqt_e", LineKind::Step(Rule::OfThm(ThmRule::EqtE))),
    (
        "beta_conv",
        LineKind::Step(Rule::OfTerm(TermRule::BetaConv)),
    ),
    ("eta_conv", LineKind::Step(Rule::OfTerm(TermRule::EtaConv))),
    (
        "beta_norm",
        LineKind::Step(Rule::OfTerm(TermRule::BetaNorm)),
    ),
    ("norm", LineKind::Step(Rule::OfThm(ThmRule::Norm))),
    (
        "rewrite_all",
        LineKind::Step(Rule::OfTermAndThm(TermThmRule::RewriteAll)),
    ),
    ("rewrite_at", LineKind::Step(Rule::RewriteAt)),
];

fn kind_in(table: &[(&'static str, LineKind)], word: &str) -> Option<LineKind>
    ensures { result ≡ entry_at (rows table.now) word.now }
{
    for (name, kind) in table {
        if *name == word {
            return Some(*kind);
        }
    }
    None
}

/// The kind of the lines that begin with a word.
#[tactic(auto, unfolding(crate::specs::Words::kind_named))]
pub(crate) fn kind_named(word: &str) -> Option<LineKind>
    ensures { result ≡ kind_named word.now }
{
    kind_in(&KINDS, word)
}
