//! Laws of the signatures that definitions give, and of refusals: each function does nothing, and its contract is the law.

ghost use Rattle.std.specs.Prelude.{◌≡◌, ℕ, List};
ghost use Rattle.hol_terms.specs.Base.{base};
ghost use Rattle.hol_terms.specs.Definition.{Definition, signature_of};
ghost use Rattle.hol_terms.specs.Proves.{AreConservative, IsPrefix};
ghost use Rattle.hol_terms.specs.Signature.{Signature};
ghost use Rattle.hol_terms.specs.Text.{Text};
ghost use Rattle.hol_terms.specs.Reading.{no_syntax, reading_of_type, reading_of_term};
ghost use Rattle.hol_terms.specs.ReadsBack.{ReadsBack};
ghost use Rattle.hol_terms.specs.Tokens.{tokens};
ghost use Rattle.hol_terms.specs.Grammar.{IsType, IsTerm};
ghost use Rattle.hol_text.specs.Over.{GivesTypes};
ghost use Rattle.text_laws.specs.Refusals.{FirstWrong};

/// Definitions that are conservative, each after those before it, give a signature in which `fun` takes two arguments and the
/// generic type of each constant is well formed.
pub fn definitions_give_types()
    ensures { (ds : List Definition) → AreConservative ds → GivesTypes (signature_of ds) }
{}

/// Definitions that are conservative, each after those before it, and begin with the ten that define the connectives and the
/// quantifiers give a signature over which canonical text reads back: its types and constants are called by names, no constant
/// is called as canonical text calls bound variables, and each constant that has a sign has its generic type of HOL Light.
pub fn definitions_read_back()
    ensures { (ds : List Definition) → AreConservative ds → IsPrefix (base 10) ds → ReadsBack (signature_of ds) }
{}

/// A text that is refused as a type for its syntax is refused at its first wrong token: the tokens before it begin a type, and no
/// type begins with these and that token. Where the text ends too early, that token is its end.
pub fn types_are_refused_at_the_first_wrong_token()
    ensures { (s : Signature) (t : Text) (p : ℕ) → reading_of_type s t ≡ no_syntax p → FirstWrong IsType (tokens t) p }
{}

/// A text that is refused as a term for its syntax is refused at its first wrong token: the tokens before it begin a term, and no
/// term begins with these and that token. Where the text ends too early, that token is its end.
pub fn terms_are_refused_at_the_first_wrong_token()
    ensures { (s : Signature) (t : Text) (p : ℕ) → reading_of_term s t ≡ no_syntax p → FirstWrong IsTerm (tokens t) p }
{}
