//! Which local a name gets.
ghost use Rattle.std.specs.Prelude.{◌≡◌, ◌+◌, ◌-◌, None, Some};
ghost use Rattle.std.specs.List.{position_from, find};
ghost use Rattle.std.specs.Option.{option_copied};
ghost use Rattle.model_syntax.specs.Names.{same};
ghost use Rattle.sym_heap.specs.Context.{has, is_scalar};
ghost use Rattle.stmt_rules.specs.Words.{most_local};
ghost use Rattle.derive_search.specs.Locals as spec;

use rup_base::Name;
use sym_heap::{Ctx, Held};

/// The greatest local.
const MOST_LOCAL: u32 = 65_535;

/// The names that have homes: the scalars of the parameters and their lengths, which have their arguments' locals, and the names
/// that statements bind, which have the locals after those of all arguments.
#[derive(Clone, Copy)]
pub struct Homes<'a> {
    pub params: &'a [Held],
    pub names: &'a [Name],
    /// The number of arguments.
    pub args: usize,
}

/// The local is in the range of arguments, and free for the name; where none is given no scalar has it.
fn may_take(ctx: &Ctx, x: Option<&Name>, local: u32) -> bool
    ensures { result ≡ spec.may_take ctx.now (option_copied x.entry) local }
{
    local <= MOST_LOCAL && ctx.is_free(local, x)
}

/// The local may be taken, and is none of those that are taken.
fn is_left(ctx: &Ctx, taken: &[u32], x: Option<&Name>, local: u32) -> bool
    ensures { result ≡ spec.is_left taken.now ctx.now (option_copied x.entry) local }
{
    !is_among(taken, local) && may_take(ctx, x, local)
}

/// The local is one of those.
fn is_among(locals: &[u32], local: u32) -> bool
    ensures { result ≡ has local locals.now }
{
    locals.contains(&local)
}

/// The local that a name has, if it may take it.
fn present(ctx: &Ctx, x: &Name) -> Option<u32>
    ensures { result ≡ spec.passing (spec.may_take ctx.now (Some x.now)) (spec.present ctx.now x.now) }
{
    match ctx.scalar(x) {
        Some(held) if may_take(ctx, Some(x), held.local) => Some(held.local),
        _ => None,
    }
}

/// The scalar of a parameter or a length.
fn declared<'a>(params: &'a [Held], x: &Name) -> Option<&'a Held>
    ensures { option_copied result ≡ find (is_scalar x.now) params.now }
{
    params.iter().find(|held| held.name == *x)
}

/// The place of a name among those that statements bind.
fn place_of(names: &[Name], x: &Name) -> Option<usize>
    ensures { result ≡ position_from (same x.now) 0 names.now }
{
    names.iter().position(|name| x == name)
}

/// The home of a name.
fn home_of(homes: &Homes<'_>, x: &Name) -> Option<u128>
    ensures { result ≡ spec.home (spec.given homes.now) x.now }
{
    match declared(homes.params, x) {
        Some(held) => Some(u128::from(held.local)),
        None => match place_of(homes.names, x) {
            None => None,
            Some(place) => Some(homes.args as u128 + place as u128),
        },
    }
}

/// The home of a name, if it may be taken for the owner.
fn home(ctx: &Ctx, homes: &Homes<'_>, x: &Name, owner: Option<&Name>) -> Option<u32>
    ensures { result ≡ spec.passing (spec.may_take ctx.now (option_copied owner.entry)) (spec.home (spec.given homes.now) x.now) }
{
    match home_of(homes, x) {
        None => None,
        Some(local) => takable(ctx, owner, local),
    }
}

/// The local, if it may be taken.
fn takable(ctx: &Ctx, x: Option<&Name>, local: u128) -> Option<u32>
    ensures { result ≡ spec.passing (spec.may_take ctx.now (option_copied x.entry)) (Some local) }
{
    if local <= u128::from(MOST_LOCAL) && may_take(ctx, x, local as u32) {
        Some(local as u32)
    } else {
        None
    }
}

/// The least local from a number on that may be taken and is none of those that are taken.
fn least(ctx: &Ctx, taken: &[u32], x: Option<&Name>, from: u128) -> Option<u32>
    ensures { result ≡ spec.least (spec.is_left taken.now ctx.now (option_copied x.entry)) (most_local + 1 - from) from }
{
    let mut local = from;
    'locals: while local <= u128::from(MOST_LOCAL) {
        if is_left(ctx, taken, x, local as u32) {
            return Some(local as u32);
        }
        local += 1;
    }
    None
}

/// The least local past all homes that may be taken and is none of those that are taken.
fn past_homes(ctx: &Ctx, homes: &Homes<'_>, taken: &[u32], x: Option<&Name>) -> Option<u32>
    ensures { result ≡ spec.past_homes (spec.given homes.now) taken.now (option_copied x.entry) ctx.now }
{
    least(
        ctx,
        taken,
        x,
        homes.args as u128 + homes.names.len() as u128,
    )
}

/// The local of a name that a node gives a value, where the node has taken these: the one that the name has, or its home, or else
/// the least past all homes.
pub fn choice_after(ctx: &Ctx, homes: &Homes<'_>, taken: &[u32], x: &Name) -> Option<u32>
    ensures { result ≡ spec.choice_after (spec.given homes.now) taken.now x.now ctx.now }
{
    if let Some(local) = present(ctx, x) {
        return Some(local);
    }
    if let Some(local) = home(ctx, homes, x, Some(x)) {
        return Some(local);
    }
    past_homes(ctx, homes, taken, Some(x))
}

/// The local of a name that a statement binds.
pub fn choice(ctx: &Ctx, homes: &Homes<'_>, x: &Name) -> Option<u32>
    ensures { result ≡ spec.choice (spec.given homes.now) x.now ctx.now }
{
    choice_after(ctx, homes, &[], x)
}

/// The local of the name of a count or of an element.
pub fn new_choice(ctx: &Ctx, homes: &Homes<'_>, x: &Name) -> Option<u32>
    ensures { result ≡ spec.new_choice (spec.given homes.now) x.now ctx.now }
{
    if let Some(local) = home(ctx, homes, x, None) {
        return Some(local);
    }
    past_homes(ctx, homes, &[], None)
}

/// A further local of a node that has taken these.
pub fn further(ctx: &Ctx, homes: &Homes<'_>, taken: &[u32]) -> Option<u32>
    ensures { result ≡ spec.further (spec.given homes.now) taken.now ctx.now }
{
    past_homes(ctx, homes, taken, None)
}
