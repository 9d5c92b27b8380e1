//! The certificate that a goal gets in a context.
ghost use Rattle.std.specs.Prelude.{◌≡◌, ◌<◌, ◌^◌, true, length, IfOk};
ghost use Rattle.std.specs.Option.{ForSome};
ghost use Rattle.side_certs.specs.Closes as certificates;
ghost use Rattle.derive_search.specs.Rows as spec;

use cert_search::find;
use rup_base::NoMemory;
use side_certs::{Cert, Form, closes};
use sym_heap::Ctx;

/// The greatest number of facts in a context.
const MOST_FACTS: usize = 4096;

/// The certificate that the search of certificates gives a goal, with the facts and symbols of the context.
pub fn certificate(ctx: &Ctx, goal: &Form) -> Result<Option<Cert>, NoMemory>
    ensures found { IfOk result (λ cert. cert ≡ spec.certificate ctx.now goal.now) }
    ensures closes { IfOk result (λ cert. ForSome cert (λ k. certificates.closes ctx.now.facts ctx.now.tops goal.now k ≡ true)) }
{
    if !has_few_facts(ctx) {
        return Ok(None);
    }
    match find(ctx.allocator(), ctx.facts(), ctx.tops(), goal)? {
        None => Ok(None),
        Some(cert) => {
            // for the proof alone: what is found closes the goal, so the test says so
            let _ = closes(ctx.facts(), ctx.tops(), goal, &cert);
            Ok(Some(cert))
        }
    }
}

/// There are no more facts than a context may have.
fn has_few_facts(ctx: &Ctx) -> bool
    ensures few { result ≡ spec.has_few_facts ctx.now }
    ensures numbered { result ≡ true → length ctx.now.facts < 2 ^ 32 }
{
    ctx.facts().len() <= MOST_FACTS
}
