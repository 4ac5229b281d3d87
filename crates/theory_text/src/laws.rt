//! What holds of the definitions that texts state.

ghost use Rattle.std.specs.Prelude.{◌≡◌, false, Some};
ghost use Rattle.hol_terms.specs.Signature.{Signature};
ghost use Rattle.hol_terms.specs.Text.{Text};
ghost use Rattle.hol_terms.specs.TyVars.{tm_within};
ghost use Rattle.hol_terms.specs.Typing.{tm_type};
ghost use Rattle.hol_text.specs.Over.{GivesTypes};
ghost use Rattle.theory_text.specs.Command.{Define, define_of};
ghost use Rattle.theory_text.specs.Definable.{IsDefinable};
ghost use Rattle.theory_text.specs.Strays.{HasStray};

/// Over a signature that gives each constant a type of its own types, a text states only definitions whose names may be
/// introduced and whose terms are well typed and closed.
pub fn what_is_stated_is_definable()
    ensures { (s : Signature) (t : Text) (d : Define) → GivesTypes s → define_of s t ≡ Some d → IsDefinable s d }
{}

/// A definition whose term has a type variable that its type has not is stated by a text that has such a type variable at the
/// place that is named.
pub fn what_is_not_covered_has_a_stray()
    ensures { (s : Signature) (t : Text) (d : Define) → define_of s t ≡ Some d → tm_within d.body (tm_type d.body) ≡ false → HasStray t d }
{}
