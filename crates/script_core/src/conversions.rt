//! The conversions, each where its partial function gives a sequent.

ghost use Rattle.std.specs.Prelude.{◌≡◌, [], IfOk, IsSome, Some};
ghost use Rattle.hol_terms.specs.Signature.{IsOver};
ghost use Rattle.hol_terms.specs.Definition.{signature_of};
ghost use Rattle.hol_kernel.specs.State.{Has, Grows};
ghost use Rattle.kernel_lines.specs.Bases.{HasBase};
ghost use Rattle.script_core.specs.Conversions.{most_steps, beta_conv_rule, eta_conv_rule, beta_norm_rule, norm_rule, rewrite_all_rule, rewrite_at_rule};

use hol_conv::beta::{beta_conv, beta_norm};
use hol_conv::eta::eta_conv;
use hol_conv::rewrite::{rewrite_all, rewrite_at};
use hol_kernel::{Kernel, Thm};
use hol_terms::terms::Term;
use std::alloc::{AllocError, Global};

#[tactic(auto, using(crate::proofs::ConversionLemmas::redex_lemmas))]
pub(crate) fn beta_converted(alloc: Global, k: &mut Kernel, t: &Term) -> Result<Thm, AllocError>
    requires over { IsOver (signature_of k.old.defs) [] t.now }
    requires fits { IsSome (beta_conv_rule t.now) }
    ensures exact { IfOk result (λ th. beta_conv_rule t.now ≡ Some th.sequent) }
    ensures has { IfOk result (λ th. Has k.new th) }
    ensures grows { Grows k.old k.new }
{
    let th = beta_conv(alloc, k, t)?;
    Ok(th)
}

#[tactic(auto, using(crate::proofs::ConversionLemmas::eta_lemmas))]
pub(crate) fn eta_converted(alloc: Global, k: &mut Kernel, t: &Term) -> Result<Thm, AllocError>
    requires base { HasBase k.old.defs }
    requires over { IsOver (signature_of k.old.defs) [] t.now }
    requires fits { IsSome (eta_conv_rule t.now) }
    ensures exact { IfOk result (λ th. eta_conv_rule t.now ≡ Some th.sequent) }
    ensures has { IfOk result (λ th. Has k.new th) }
    ensures grows { Grows k.old k.new }
{
    let th = eta_conv(alloc, k, t)?;
    Ok(th)
}

#[tactic(auto, unfolding(crate::specs::Conversions::most_steps))]
fn most() -> u64
    ensures { result ≡ most_steps }
{
    u64::MAX
}

#[tactic(auto, using(crate::proofs::ConversionLemmas::norm_lemmas))]
pub(crate) fn beta_normed(alloc: Global, k: &mut Kernel, t: &Term) -> Result<Thm, AllocError>
    requires over { IsOver (signature_of k.old.defs) [] t.now }
    ensures exact { IfOk result (λ th. beta_norm_rule t.now ≡ Some th.sequent) }
    ensures has { IfOk result (λ th. Has k.new th) }
    ensures grows { Grows k.old k.new }
{
    let fuel = most();
    let th = beta_norm(alloc, k, t, fuel)?;
    Ok(th)
}

#[tactic(auto, using(crate::proofs::ConversionLemmas::norm_lemmas))]
pub(crate) fn normed(alloc: Global, k: &mut Kernel, a: &Thm) -> Result<Thm, AllocError>
    requires has_a { Has k.old a.now }
    ensures exact { IfOk result (λ th. norm_rule a.now.sequent ≡ Some th.sequent) }
    ensures has { IfOk result (λ th. Has k.new th) }
    ensures grows { Grows k.old k.new }
{
    let eq = beta_normed(alloc, k, a.concl())?;
    let th = k.eq_mp(alloc, &eq, a)?;
    Ok(th)
}

#[tactic(auto, using(crate::proofs::ConversionLemmas::rewriting_lemmas))]
pub(crate) fn rewritten(
    alloc: Global,
    k: &mut Kernel,
    t: &Term,
    eq: &Thm,
) -> Result<Thm, AllocError>
    requires over { IsOver (signature_of k.old.defs) [] t.now }
    requires has_eq { Has k.old eq.now }
    requires fits { IsSome (rewrite_all_rule t.now eq.now.sequent) }
    ensures exact { IfOk result (λ th. rewrite_all_rule t.now eq.now.sequent ≡ Some th.sequent) }
    ensures has { IfOk result (λ th. Has k.new th) }
    ensures grows { Grows k.old k.new }
{
    let th = rewrite_all(alloc, k, t, eq)?;
    Ok(th)
}

#[tactic(auto, using(crate::proofs::ConversionLemmas::rewriting_lemmas))]
pub(crate) fn rewritten_at(
    alloc: Global,
    k: &mut Kernel,
    path: &[u32],
    t: &Term,
    eq: &Thm,
) -> Result<Thm, AllocError>
    requires over { IsOver (signature_of k.old.defs) [] t.now }
    requires has_eq { Has k.old eq.now }
    requires fits { IsSome (rewrite_at_rule path.now t.now eq.now.sequent) }
    ensures exact { IfOk result (λ th. rewrite_at_rule path.now t.now eq.now.sequent ≡ Some th.sequent) }
    ensures has { IfOk result (λ th. Has k.new th) }
    ensures grows { Grows k.old k.new }
{
    let th = rewrite_at(alloc, k, t, path, eq)?;
    Ok(th)
}
