//! Signs of canonical text: of binders, between operands, and the names of bound variables.

ghost use Rattle.std.specs.Prelude.{◌≡◌, IfSome, IfNone, None, Some, bytes_eq, length};
ghost use Rattle.hol_terms.specs.Text.{bound_text};
ghost use Rattle.strict_reading.specs.Words.{behind};
ghost use Rattle.strict_reading.specs.Terms.{binder_at, begins_argument, starts_argument};
ghost use Rattle.flat_terms.specs.Plain.{HasTypes, types_of};
ghost use Rattle.flat_reading.specs.Signs.{binder_sign, connective_sign, IsBinderOf};

use flat_signatures::words::{behind, is_word_byte};
use flat_terms::nodes::TypeId;
use flat_terms::tables::Tables;
use itoa::Buffer;

/// The sign of a binder.
#[derive(Clone, Copy)]
pub enum BinderSign {
    Lambda,
    All,
    Exists,
}

/// A sign that stands between two operands.
#[derive(Clone, Copy)]
pub enum Connective {
    Equals,
    And,
    Or,
    Implies,
}

/// The sign of a binder that the text begins with, and what is left.
pub fn binder_sign(text: &[u8]) -> Option<(BinderSign, &[u8])>
    ensures some { IfSome result (λ r. binder_sign text.now ≡ Some (r.0, r.1.now)) }
    ensures none { IfNone result (binder_sign text.now ≡ None) }
{
    if let Some(rest) = behind(b"\\", text) {
        return Some((BinderSign::Lambda, rest));
    }
    if let Some(rest) = behind(b"!", text) {
        return Some((BinderSign::All, rest));
    }
    if let Some(rest) = behind(b"?", text) {
        return Some((BinderSign::Exists, rest));
    }
    None
}

/// The sign between two operands that the text begins with, and what is left.
pub fn connective_sign(text: &[u8]) -> Option<(Connective, &[u8])>
    ensures some { IfSome result (λ r. connective_sign text.now ≡ Some (r.0, r.1.now)) }
    ensures none { IfNone result (connective_sign text.now ≡ None) }
{
    if let Some(rest) = behind(b" = ", text) {
        return Some((Connective::Equals, rest));
    }
    if let Some(rest) = behind(b" /\\ ", text) {
        return Some((Connective::And, rest));
    }
    if let Some(rest) = behind(b" \\/ ", text) {
        return Some((Connective::Or, rest));
    }
    if let Some(rest) = behind(b" ==> ", text) {
        return Some((Connective::Implies, rest));
    }
    None
}

/// The binder whose variable is called so: its index and its type, among binders of these types, the innermost first.
pub fn find_binder(tables: &Tables, bound: &[TypeId], word: &[u8]) -> Option<(usize, TypeId)>
    requires { HasTypes tables.now bound.now }
    ensures { IsBinderOf tables.now result (binder_at (types_of tables.now bound.now) word.now) }
{
    let _ = tables.count_types();
    for (index, ty) in bound.iter().enumerate() {
        if is_bound_text(word, bound.len() - 1 - index) {
            return Some((index, *ty));
        }
    }
    None
}

/// Whether the word is what the bound variable of a binder is called that so many binders enclose.
fn is_bound_text(word: &[u8], depth: usize) -> bool
    ensures { result ≡ bytes_eq word.now (bound_text depth) }
{
    match word {
        [b'x', digits @ ..] => {
            let mut buffer = Buffer::new();
            digits == buffer.format(depth).as_bytes()
        }
        _ => false,
    }
}

/// What is left of a text behind the name of that bound variable.
pub fn behind_bound(depth: usize, text: &[u8]) -> Option<&[u8]>
    ensures some { IfSome result (λ rest. behind (bound_text depth) text.now ≡ Some rest.now) }
    ensures none { IfNone result (behind (bound_text depth) text.now ≡ None) }
{
    let Some(digits) = behind(b"x", text) else {
        return None;
    };
    let mut buffer = Buffer::new();
    behind(buffer.format(depth).as_bytes(), digits)
}

/// Whether an argument begins where the text does.
pub fn begins_argument(text: &[u8]) -> bool
    ensures { result ≡ begins_argument text.now }
{
    match text {
        [byte, ..] => is_word_byte(*byte) || *byte == b'(' || *byte == b'[',
        [] => false,
    }
}
