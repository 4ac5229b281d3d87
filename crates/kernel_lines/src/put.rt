//! The pairs that instances take.

ghost use Rattle.std.specs.Prelude.{◌≡◌, [], IfOk, OnOk, IsSome, Some};
ghost use Rattle.hol_terms.specs.Definition.{signature_of};
ghost use Rattle.hol_terms.specs.Proves.{AreOver, AreTypesOver};
ghost use Rattle.hol_terms.specs.Subst.{ty_pairs};
ghost use Rattle.kernel_lines.specs.Lines.{types_put, terms_put};
ghost use Rattle.kernel_lines.specs.Ready.{AllOver, TypeFits, TypeSteps, TermFits, TermSteps};

use crate::made::{term_at, var_of};
use hol_kernel::Kernel;
use hol_terms::terms::{Term, Var};
use hol_terms::types::HolType;
use std::alloc::{AllocError, Global};

fn add_type(
    alloc: Global,
    k: &Kernel,
    terms: &[Term],
    found: &mut Vec<(String, HolType)>,
    pair: &(&'static str, usize),
) -> Result<(), AllocError>
    requires over { AllOver k.now.defs terms.now }
    requires put { AreTypesOver (signature_of k.now.defs) (ty_pairs found.old.items) }
    requires fits { TypeFits terms.now (ty_pairs found.old.items) pair.now }
    ensures put { OnOk result (AreTypesOver (signature_of k.now.defs) (ty_pairs found.new.items)) }
    ensures exact { OnOk result (TypeSteps terms.now (ty_pairs found.old.items) pair.now (ty_pairs found.new.items)) }
{
    let ty = term_at(k, terms, pair.1).type_of().copy()?;
    let name = String::from_str(alloc, pair.0)?;
    found.push((name, ty))?;
    Ok(())
}

pub(crate) fn put_types(
    alloc: Global,
    k: &Kernel,
    terms: &[Term],
    pairs: &[(&'static str, usize)],
) -> Result<Vec<(String, HolType)>, AllocError>
    requires over { AllOver k.now.defs terms.now }
    requires fits { IsSome (types_put terms.now [] pairs.now) }
    ensures exact { IfOk result (λ v. types_put terms.now [] pairs.now ≡ Some (ty_pairs v.items)) }
    ensures over { IfOk result (λ v. AreTypesOver (signature_of k.now.defs) (ty_pairs v.items)) }
{
    let mut found = Vec::new(alloc);
    for pair in pairs {
        add_type(alloc, k, terms, &mut found, pair)?;
    }
    Ok(found)
}

fn add_term(
    alloc: Global,
    k: &Kernel,
    terms: &[Term],
    found: &mut Vec<(Var, Term)>,
    pair: &(usize, usize),
) -> Result<(), AllocError>
    requires over { AllOver k.now.defs terms.now }
    requires put { AreOver (signature_of k.now.defs) found.old.items }
    requires fits { TermFits terms.now found.old.items pair.now }
    ensures put { OnOk result (AreOver (signature_of k.now.defs) found.new.items) }
    ensures exact { OnOk result (TermSteps terms.now found.old.items pair.now found.new.items) }
{
    let v = var_of(k, terms, pair.0).copy(alloc)?;
    let t = term_at(k, terms, pair.1).copy()?;
    found.push((v, t))?;
    Ok(())
}

pub(crate) fn put_terms(
    alloc: Global,
    k: &Kernel,
    terms: &[Term],
    pairs: &[(usize, usize)],
) -> Result<Vec<(Var, Term)>, AllocError>
    requires over { AllOver k.now.defs terms.now }
    requires fits { IsSome (terms_put terms.now [] pairs.now) }
    ensures exact { IfOk result (λ v. terms_put terms.now [] pairs.now ≡ Some v.items) }
    ensures over { IfOk result (λ v. AreOver (signature_of k.now.defs) v.items) }
{
    let mut found = Vec::new(alloc);
    for pair in pairs {
        add_term(alloc, k, terms, &mut found, pair)?;
    }
    Ok(found)
}
