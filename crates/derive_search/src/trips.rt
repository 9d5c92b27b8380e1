//! The trip form of a loop from one number to another.
ghost use Rattle.std.specs.Prelude.{◌≡◌, ◌++◌, option_map, IfOk};
ghost use Rattle.derive_search.specs.Trips as spec;

use crate::kept::certificate_of;
use crate::nodes::one;
use rup_base::{List, NoMemory};
use side_certs::{Cert, Form};
use std::alloc::Global;
use stmt_rules::args::flat;
use stmt_rules::loops::is_entry_form;
use stmt_rules::rules::counting::spare_trips;
use sym_heap::Ctx;

/// A trip form, as the arguments of a node and as they are read, and the certificate that there are no more turns.
#[derive(Debug, Drop)]
pub struct Trip {
    pub args: List<i64>,
    pub form: Form,
    pub cert: Cert,
}

/// The form as the arguments of a node: its constant, and then symbols and coefficients in pairs.
pub fn as_args(alloc: Global, form: &Form) -> Result<List<i64>, NoMemory>
    ensures { IfOk result (λ args. args ≡ spec.as_args form.now) }
{
    let mut args = one(alloc, form.constant_part())?;
    let mut k = 0;
    'terms: while k < form.terms() {
        let (symbol, coefficient) = form.term_at(k);
        args.push(i64::from(symbol))?;
        args.push(coefficient)?;
        k += 1;
    }
    Ok(args)
}

/// The form, where it is a trip form and it is shown that there are no more turns.
fn trip_of(
    ctx: &Ctx,
    entries: u32,
    low: &Form,
    high: &Form,
    form: &Form,
) -> Result<Option<Trip>, NoMemory>
    ensures { IfOk result (λ trip. trip ≡ spec.trip_of entries ctx.now low.now high.now form.now) }
{
    let args = as_args(ctx.allocator(), form)?;
    with_args(ctx, entries, low, high, args)
}

/// The form that is read from the arguments, where it is a trip form and it is shown that there are no more turns.
fn with_args(
    ctx: &Ctx,
    entries: u32,
    low: &Form,
    high: &Form,
    args: List<i64>,
) -> Result<Option<Trip>, NoMemory>
    ensures { IfOk result (λ trip. trip ≡ spec.with_args entries ctx.now low.now high.now args) }
{
    match flat(args.as_slice()) {
        Some(form) if is_entry_form(entries, &form) => {
            let cert = certificate_of(ctx, spare_trips(&form, low, high))?;
            Ok(with_cert(args, form, cert))
        }
        _ => Ok(None),
    }
}

/// The trip form, where there is a certificate.
fn with_cert(args: List<i64>, form: Form, cert: Option<Cert>) -> Option<Trip>
    ensures { result ≡ option_map (λ k. record { args = args; form = form; cert = k }) cert }
{
    match cert {
        None => None,
        Some(cert) => Some(Trip { args, form, cert }),
    }
}

/// The first of these forms that is a trip form and of which it is shown that there are no more turns.
fn first_trip(
    ctx: &Ctx,
    entries: u32,
    low: &Form,
    high: &Form,
    forms: &[Form],
) -> Result<Option<Trip>, NoMemory>
    ensures { IfOk result (λ trip. trip ≡ spec.first_trip entries ctx.now low.now high.now forms.now) }
{
    for form in forms {
        if let Some(trip) = trip_of(ctx, entries, low, high, form)? {
            return Ok(Some(trip));
        }
    }
    Ok(None)
}

/// The form, where there is one, after others.
fn with_form(forms: List<Form>, form: Option<Form>) -> Result<List<Form>, NoMemory>
    ensures { IfOk result (λ all. all ≡ forms ++ spec.at_most_one form) }
{
    let mut all = forms;
    if let Some(form) = form {
        all.push(form)?;
    }
    Ok(all)
}

/// The entry symbols, after other forms.
fn with_symbols(forms: List<Form>, entries: u32) -> Result<List<Form>, NoMemory>
    ensures { IfOk result (λ all. all ≡ forms ++ spec.entry_symbols entries) }
{
    let mut all = forms;
    let mut symbol = 0;
    'symbols: while symbol < entries {
        all.push(Form::symbol(symbol))?;
        symbol += 1;
    }
    Ok(all)
}

/// The greatest byte, the greatest number of two bytes and the greatest word, after other forms.
fn with_greatest(forms: List<Form>) -> Result<List<Form>, NoMemory>
    ensures { IfOk result (λ all. all ≡ forms ++ spec.greatest) }
{
    let all = with_form(forms, Form::constant(255))?;
    let all = with_form(all, Form::constant(65_535))?;
    with_form(all, Form::constant(4_294_967_295))
}

/// The forms that are tried, in their order.
fn candidates(alloc: Global, entries: u32, low: &Form, high: &Form) -> Result<List<Form>, NoMemory>
    ensures { IfOk result (λ forms. forms ≡ spec.candidates entries low.now high.now) }
{
    let forms = with_form(List::new(alloc), high.sub(low))?;
    with_greatest(with_symbols(forms, entries)?)
}

/// The trip form of a loop from one number to another, with the number of entry symbols: the difference of the bounds, an entry
/// symbol, or the greatest byte, number of two bytes or word, whichever is the first of which it is shown that there are no more
/// turns.
pub fn trip_for(ctx: &Ctx, entries: u32, low: &Form, high: &Form) -> Result<Option<Trip>, NoMemory>
    ensures { IfOk result (λ trip. trip ≡ spec.trip_for entries ctx.now low.now high.now) }
{
    let forms = candidates(ctx.allocator(), entries, low, high)?;
    first_trip(ctx, entries, low, high, forms.as_slice())
}
