//! Signatures given by tables of names.

use hol_terms::sig::Sig;
use hol_text::read::read_type;
use std::alloc::{AllocError, Global};

// Adds a type, and says whether its name is new.
fn put_type(alloc: Global, sig: &mut Sig, name: &str, arity: u32) -> Result<bool, AllocError> {
    if !sig.is_new(name) {
        return Ok(false);
    }
    sig.add_type(alloc, name, arity)?;
    Ok(true)
}

// Adds a constant, and says whether its type is read and its name is new.
fn put_constant(alloc: Global, sig: &mut Sig, name: &str, ty: &str) -> Result<bool, AllocError> {
    let Ok(generic) = read_type(alloc, sig, ty) else {
        return Ok(false);
    };
    if !sig.is_new(name) {
        return Ok(false);
    }
    sig.add_const(alloc, name, &generic)?;
    Ok(true)
}

fn put_types(alloc: Global, sig: &mut Sig, types: &[(&str, u32)]) -> Result<bool, AllocError> {
    for (name, arity) in types {
        if !put_type(alloc, sig, name, *arity)? {
            return Ok(false);
        }
    }
    Ok(true)
}

fn put_constants(
    alloc: Global,
    sig: &mut Sig,
    constants: &[(&str, &str)],
) -> Result<bool, AllocError> {
    for (name, ty) in constants {
        if !put_constant(alloc, sig, name, ty)? {
            return Ok(false);
        }
    }
    Ok(true)
}

/// The signature of the start with these types, each with its number of arguments, and then these constants, each with the text of
/// its generic type. None where a name is there already or a text is no type.
pub(crate) fn signature(
    alloc: Global,
    types: &[(&str, u32)],
    constants: &[(&str, &str)],
) -> Result<Option<Sig>, AllocError> {
    let mut sig = Sig::start(alloc)?;
    let is_put = put_types(alloc, &mut sig, types)? && put_constants(alloc, &mut sig, constants)?;
    Ok(is_put.then_some(sig))
}
