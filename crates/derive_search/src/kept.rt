//! Certificates of kept facts.
ghost use Rattle.std.specs.Prelude.{◌≡◌, true, option_and_then, IfOk};
ghost use Rattle.side_certs.specs.LinearForm.{within};
ghost use Rattle.sym_heap.specs.Sides.{difference as difference_of, form_of};
ghost use Rattle.model_syntax.specs.Linear.{is_narrow};
ghost use Rattle.stmt_rules.specs.Narrow.{all_narrow};
ghost use Rattle.derive_search.specs.Rows as rows;
ghost use Rattle.derive_search.specs.Kept as spec;

use crate::certificate::certificate;
use model_syntax::Le;
use rup_base::{List, NoMemory};
use side_certs::{Cert, Form};
use sym_heap::{Ctx, NameForms, difference};

/// The certificate of a form that is to be at least 0, where it is within the limits of forms.
pub fn certificate_of(ctx: &Ctx, form: Option<Form>) -> Result<Option<Cert>, NoMemory>
    ensures { IfOk result (λ cert. cert ≡ option_and_then (rows.certificate ctx.now) form) }
{
    match form {
        None => Ok(None),
        Some(goal) => certificate(ctx, &goal),
    }
}

/// The certificate of a kept fact, with these forms for its names.
#[tactic(auto, using(crate::proofs::Shown::narrow_is))]
fn fact_certificate(ctx: &Ctx, forms: &NameForms<'_>, fact: &Le) -> Result<Option<Cert>, NoMemory>
    requires { is_narrow fact.now ≡ true }
    ensures { IfOk result (λ cert. cert ≡ spec.certificate_of ctx.now (difference_of (form_of forms.now) fact.now)) }
{
    certificate_of(ctx, difference(forms, fact))
}

/// The certificates of kept facts in order, with these forms for their names. None where one of them has no certificate.
#[tactic(auto, using(crate::proofs::Shown::narrow_here, crate::proofs::Shown::narrow_left, crate::proofs::Shown::led_on))]
pub fn certificates(
    ctx: &Ctx,
    forms: &NameForms<'_>,
    facts: &[Le],
) -> Result<Option<List<Cert>>, NoMemory>
    requires { all_narrow facts.now ≡ true }
    ensures { IfOk result (λ certs. certs ≡ spec.certificates ctx.now (form_of forms.now) facts.now) }
{
    let mut certs = List::new(ctx.allocator());
    for fact in facts {
        let Some(cert) = fact_certificate(ctx, forms, fact)? else {
            return Ok(None);
        };
        certs.push(cert)?;
    }
    Ok(Some(certs))
}
