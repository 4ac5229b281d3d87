//! Some readings, told as laws of the definitions: each function does nothing, and its contract is the law.

ghost use Rattle.hol_text.specs.Samples.{TypesReadSo, TermsReadSo};

/// What four texts are as types: two are, one has an unknown name, one breaks off.
pub fn types_read_so()
    ensures { TypesReadSo }
{}

/// What seven texts are as terms: sugar, a binder, braces, a free variable beside a bound one of its name, and the three
/// refusals.
pub fn terms_read_so()
    ensures { TermsReadSo }
{}
