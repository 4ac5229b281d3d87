//! Which texts are names and segments.

ghost use Rattle.std.specs.Prelude.{◌≡◌, ◌||◌, false, bytes_eq, codes};
ghost use Rattle.std.specs.List.{list_all};
ghost use Rattle.std.specs.Char.{is_ascii_digit};
ghost use Rattle.std.specs.Str.{chars};
ghost use Rattle.hol_terms.specs.Name.{is_start, is_segment, is_keyword, is_name, is_numbered, segment_step, are_segments_of};
ghost use Rattle.flat_signatures.specs.Segments.{goes_on};

use unicode_ident::{is_xid_continue, is_xid_start};

/// Whether the text is what a type, a constant or a free variable may be called: segments joined by dots, or `0`, and no keyword.
#[tactic(auto, unfolding(hol_terms::specs::Name::is_name))]
pub fn is_name(text: &str) -> bool
    ensures { result ≡ is_name text.now }
{
    has_shape(text) && !is_keyword(text)
}

/// Whether the text is what a type variable may be called.
pub fn is_segment(text: &str) -> bool
    ensures { result ≡ is_segment text.now }
{
    let mut begun = false;
    for c in text.chars() {
        if !may_follow(begun, c) {
            return false;
        }
        begun = true;
    }
    begun
}

/// Whether the text is `x` and at least one digit, which is what canonical text calls bound variables.
pub fn is_numbered(text: &str) -> bool
    ensures { result ≡ is_numbered text.now }
{
    match text.as_bytes() {
        [b'x', digits @ ..] => !digits.is_empty() && are_digits(digits),
        _ => false,
    }
}

fn are_digits(bytes: &[u8]) -> bool
    ensures { result ≡ list_all is_ascii_digit bytes.now }
{
    bytes.iter().all(|b| b.is_ascii_digit())
}

/// Whether the text is segments joined by dots, or `0`.
fn has_shape(text: &str) -> bool
    ensures { result ≡ (are_segments_of false (chars text.now) || bytes_eq text.now (codes "0")) }
{
    are_segments(text) || text == "0"
}

/// Whether the text is a word of the theory language.
fn is_keyword(text: &str) -> bool
    ensures { result ≡ is_keyword text.now }
{
    text == "define"
        || text == "datatype"
        || text == "codatatype"
        || text == "primrec"
        || text == "primcorec"
        || text == "where"
        || text == "and"
}

fn starts_segment(c: char) -> bool
    ensures { result ≡ is_start c }
{
    is_xid_start(c) || c == '_'
}

/// Whether a segment that has begun, or one that hasn't, goes on with the character.
fn may_follow(begun: bool, c: char) -> bool
    ensures { result ≡ goes_on begun c }
{
    if begun {
        is_xid_continue(c)
    } else {
        starts_segment(c)
    }
}

/// Whether a segment has begun once the character is read, or None where the character cannot come.
fn step(within: bool, c: char) -> Option<bool>
    ensures { result ≡ segment_step within c }
{
    match (within, c) {
        (true, '.') => Some(false),
        (true, c) if is_xid_continue(c) => Some(true),
        (false, c) if starts_segment(c) => Some(true),
        _ => None,
    }
}

fn are_segments(text: &str) -> bool
    ensures { result ≡ are_segments_of false (chars text.now) }
{
    let mut within = false;
    for c in text.chars() {
        let Some(next) = step(within, c) else {
            return false;
        };
        within = next;
    }
    within
}
