//! Laws of proof logs: each function does nothing, and its contract is the law.

ghost use Rattle.std.specs.Prelude.{◌≡◌, ◌<◌, ◌≤◌, ◌^◌, ℕ, length};
ghost use Rattle.hol_terms.specs.Base.{base};
ghost use Rattle.hol_terms.specs.Text.{Text};
ghost use Rattle.hol_terms.specs.Sound.{IsSound};
ghost use Rattle.hol_terms.specs.Signature.{Signature};
ghost use Rattle.hol_terms.specs.ReadsBack.{ReadsBack};
ghost use Rattle.hol_logs.specs.Line.{LogLine, line_text, IsLineOver};
ghost use Rattle.hol_logs.specs.Position.{Why};
ghost use Rattle.hol_logs.specs.Log.{IsGoodLog, IsBadLog, IsPartOfReport};

/// The report of a good log is sound over the base definitions in force: each definition line is the text of a definition that is
/// conservative after those before it, and each theorem line the text of a term that is derivable over the definitions above it.
pub fn reports_are_sound()
    ensures { (n : ℕ) (b report : Text) → IsGoodLog n b report → IsSound (base n) report }
{}

/// So is what a log that isn't good reports before its first bad line.
pub fn reports_of_bad_logs_are_sound()
    ensures { (n : ℕ) (b report : Text) (number : ℕ) (why : Why) → IsBadLog n b report number why → IsSound (base n) report }
{}

/// So are bytes at which a report was cut short.
pub fn parts_of_reports_are_sound()
    ensures { (n : ℕ) (b out : Text) → IsPartOfReport n b out → IsSound (base n) out }
{}

/// A line has one reading: two lines that are well formed over one signature and have the same text, of less than 2^64 bytes, are
/// the same line. The signature is to be one over which canonical text reads back.
pub fn lines_have_one_reading()
    ensures { (s : Signature) (l m : LogLine) → ReadsBack s → IsLineOver s l → IsLineOver s m → length (line_text l) < 2 ^ 64 → line_text l ≡ line_text m → l ≡ m }
{}

/// A log of less than 2^64 bytes has one outcome, where the ten definitions of the connectives and quantifiers are in force: it is
/// not both good and bad, a good log has one report, and a bad one has one report, one first bad line and one first cause.
pub fn logs_have_one_outcome()
    ensures good { (n : ℕ) (b report other : Text) → 10 ≤ n → length b < 2 ^ 64 → IsGoodLog n b report → IsGoodLog n b other → report ≡ other }
    ensures not_both { (n : ℕ) (b report other : Text) (number : ℕ) (why : Why) → 10 ≤ n → length b < 2 ^ 64 → IsGoodLog n b report → ¬ IsBadLog n b other number why }
    ensures bad { (n : ℕ) (b report other : Text) (number place : ℕ) (why cause : Why) → 10 ≤ n → length b < 2 ^ 64 → IsBadLog n b report number why → IsBadLog n b other place cause → (report ≡ other) × (number ≡ place) × (why ≡ cause) }
{}
