//! What a type variable may be called.

ghost use Rattle.std.specs.Prelude.{◌≡◌, false};
ghost use Rattle.std.specs.Str.{chars};
ghost use Rattle.hol_terms.specs.Name.{is_segment};
ghost use Rattle.proof_log.specs.Segments.{goes_on, is_rest};

use unicode_ident::{is_xid_continue, is_xid_start};

/// Whether a type variable may be called so in a line.
#[tactic(auto, using(crate::proofs::SegmentChars::segment_lemmas))]
pub fn is_segment(text: &str) -> bool
    ensures { result ≡ is_segment text.now }
{
    has_shape(text)
}

/// Whether the character may come, at the start of a segment or within one.
fn goes_on(within: bool, c: char) -> bool
    ensures { result ≡ goes_on within c }
{
    if within {
        is_xid_continue(c)
    } else {
        is_xid_start(c) || c == '_'
    }
}

fn has_shape(text: &str) -> bool
    ensures { result ≡ is_rest false (chars text.now) }
{
    let mut within = false;
    for c in text.chars() {
        if !goes_on(within, c) {
            return false;
        }
        within = true;
    }
    within
}
