//! What is printed reads as what it was printed from, and what is read is by the grammar.

ghost use Rattle.std.specs.Prelude.{◌≡◌, ◌≢◌, ◌<◌, ◌^◌, ℕ, [], length};
ghost use Rattle.hol_terms.specs.Ty.{Ty};
ghost use Rattle.hol_terms.specs.Tm.{Tm};
ghost use Rattle.hol_terms.specs.Signature.{Signature, IsTyOver, IsOver};
ghost use Rattle.hol_terms.specs.Text.{Text, ty_text, tm_text};
ghost use Rattle.hol_terms.specs.Grammar.{IsType, IsTerm, before_end};
ghost use Rattle.hol_terms.specs.Reading.{reads, no_syntax, reading_of_type, reading_of_term};
ghost use Rattle.hol_terms.specs.ReadsBack.{ReadsBack};
ghost use Rattle.hol_terms.specs.Tokens.{tokens};

/// The canonical text of a type that is well formed over a signature reads as the type.
pub fn types_read_back()
    ensures { (s : Signature) (t : Ty) → ReadsBack s → IsTyOver s t → reading_of_type s (ty_text t) ≡ reads t }
{}

/// The canonical text of a term that is well typed over a signature reads as the term, free variables and type arguments included.
/// The text is to have less than 2^64 bytes, which each text in memory has: the numbers of bound variables are written with 64
/// digits at most, so that under 10^64 binders two of them would have one name.
pub fn terms_read_back()
    ensures { (s : Signature) (t : Tm) → ReadsBack s → IsOver s [] t → length (tm_text t) < 2 ^ 64 → reading_of_term s (tm_text t) ≡ reads t }
{}

/// Types that are well formed over one signature and have the same canonical text are equal.
pub fn types_are_told_by_their_text()
    ensures { (s : Signature) (t u : Ty) → ReadsBack s → IsTyOver s t → IsTyOver s u → ty_text t ≡ ty_text u → t ≡ u }
{}

/// Terms that are well typed over one signature and have the same canonical text, of less than 2^64 bytes, are equal.
pub fn terms_are_told_by_their_text()
    ensures { (s : Signature) (t u : Tm) → ReadsBack s → IsOver s [] t → IsOver s [] u → length (tm_text t) < 2 ^ 64 → tm_text t ≡ tm_text u → t ≡ u }
{}

/// A text that is read as a type, or refused for its names alone, is a type by the grammar: its tokens before the end are one.
pub fn types_are_by_the_grammar()
    ensures { (s : Signature) (t : Text) → ((p : ℕ) → reading_of_type s t ≢ no_syntax p) → IsType (before_end (tokens t)) }
{}

/// A text that is read as a term, or refused for its names or types alone, is a term by the grammar: its tokens before the end are
/// one.
pub fn terms_are_by_the_grammar()
    ensures { (s : Signature) (t : Text) → ((p : ℕ) → reading_of_term s t ≢ no_syntax p) → IsTerm (before_end (tokens t)) }
{}

/// A text that is a type by the grammar is never refused for its syntax.
pub fn types_of_the_grammar_are_read()
    ensures { (s : Signature) (t : Text) → IsType (before_end (tokens t)) → (p : ℕ) → reading_of_type s t ≢ no_syntax p }
{}

/// A text that is a term by the grammar is never refused for its syntax.
pub fn terms_of_the_grammar_are_read()
    ensures { (s : Signature) (t : Text) → IsTerm (before_end (tokens t)) → (p : ℕ) → reading_of_term s t ≢ no_syntax p }
{}
