//! Laws of the strict reading of lines: each function does nothing, and its contract is the law.

ghost use Rattle.std.specs.Prelude.{◌≡◌, ◌<◌, ◌^◌, ℕ, Some, None, length};
ghost use Rattle.hol_terms.specs.Signature.{Signature};
ghost use Rattle.hol_terms.specs.ReadsBack.{ReadsBack};
ghost use Rattle.hol_terms.specs.Text.{Text};
ghost use Rattle.hol_logs.specs.Line.{LogLine, line_text, IsLineOver};
ghost use Rattle.strict_lines.specs.Lines.{reads_line};

/// What is read as a line is a line over the signature, and the text is that line's.
pub fn lines_read_are_lines()
    ensures { (s : Signature) (x : Text) (l : LogLine) → reads_line s x ≡ Some l → (x ≡ line_text l) × IsLineOver s l }
{}

/// The text of a line over the signature is read as the line, where the signature is one over which canonical text reads back, and
/// the text has less than 2^64 bytes.
pub fn lines_are_read()
    ensures { (s : Signature) (l : LogLine) → ReadsBack s → IsLineOver s l → length (line_text l) < 2 ^ 64 → reads_line s (line_text l) ≡ Some l }
{}

/// So a text of less than 2^64 bytes that is not read is that of no line over the signature.
pub fn other_texts_are_no_lines()
    ensures { (s : Signature) (x : Text) (l : LogLine) → ReadsBack s → length x < 2 ^ 64 → reads_line s x ≡ None → x ≡ line_text l → ¬ IsLineOver s l }
{}
