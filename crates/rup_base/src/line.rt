//! The line that a refusal prints: `refused`, its number, its name and its fields, with single spaces.
ghost use Rattle.std.specs.Prelude.{◌≡◌, ◌∷◌, ◌++◌, IfOk, OnOk};
ghost use Rattle.std.specs.List.{flat_map};
ghost use Rattle.std.specs.Fmt.{decimal};
ghost use Rattle.rup_base.specs.RefusalLine as spec;

use crate::no_memory::NoMemory;
use crate::refusal::{ArgFault, Goal, Limit, Refusal, TextWhy, TypePlace, TypeWhy};
use crate::text::Text;
use std::alloc::Global;

/// The printed line of a refusal, with a line feed at its end. No offset or file name is made up: a field prints as
/// its number or as its word.
pub fn refusal_line(alloc: Global, r: &Refusal) -> Result<Text, NoMemory>
    ensures { IfOk result (λ line. line ≡ spec.line_of r.now) }
{
    let mut line = Text::from_slice(alloc, b"refused")?;
    put_number(&mut line, u128::from(number(r)))?;
    put_word(&mut line, name(r))?;
    put_fields(&mut line, r)?;
    line.push(b'\n')?;
    Ok(line)
}

/// Puts a space and the bytes behind a line.
fn put_word(line: &mut Text, word: &[u8]) -> Result<(), NoMemory>
    ensures { OnOk result (line.new ≡ line.old ++ spec.spaced word.now) }
{
    line.push(b' ')?;
    line.extend_from_slice(word)
}

/// Puts a space and the number in decimal behind a line.
fn put_number(line: &mut Text, number: u128) -> Result<(), NoMemory>
    ensures { OnOk result (line.new ≡ line.old ++ spec.spaced (decimal number)) }
{
    line.push(b' ')?;
    line.push_number(number)
}

/// The number of a refusal.
fn number(r: &Refusal) -> u8
    ensures { result ≡ spec.number r.now }
{
    match r {
        Refusal::NotText { .. } => 1,
        Refusal::NotModel { .. } => 2,
        Refusal::OverLimit { .. } => 3,
        Refusal::IllTyped { .. } => 4,
        Refusal::BadArguments { .. } => 5,
        Refusal::NotJson => 6,
        Refusal::NotDerivation { .. } => 7,
        Refusal::NodeCount { .. } => 8,
        Refusal::NoInstance { .. } => 9,
        Refusal::BadCertificate { .. } => 10,
        Refusal::OverSlots { .. } => 11,
        Refusal::OverBound { .. } => 12,
        Refusal::NotLemma { .. } => 13,
        Refusal::Stuck { .. } => 14,
        Refusal::OverNodes { .. } => 15,
        Refusal::NotImage { .. } => 16,
        Refusal::ArraysTooLarge { .. } => 17,
        Refusal::OverSize { .. } => 18,
        Refusal::TooLong { .. } => 19,
    }
}

/// The name of a refusal.
fn name(r: &Refusal) -> &'static [u8]
    ensures { result.now ≡ spec.name r.now }
{
    match r {
        Refusal::NotText { .. } => b"NotText",
        Refusal::NotModel { .. } => b"NotModel",
        Refusal::OverLimit { .. } => b"OverLimit",
        Refusal::IllTyped { .. } => b"IllTyped",
        Refusal::BadArguments { .. } => b"BadArguments",
        Refusal::NotJson => b"NotJson",
        Refusal::NotDerivation { .. } => b"NotDerivation",
        Refusal::NodeCount { .. } => b"NodeCount",
        Refusal::NoInstance { .. } => b"NoInstance",
        Refusal::BadCertificate { .. } => b"BadCertificate",
        Refusal::OverSlots { .. } => b"OverSlots",
        Refusal::OverBound { .. } => b"OverBound",
        Refusal::NotLemma { .. } => b"NotLemma",
        Refusal::Stuck { .. } => b"Stuck",
        Refusal::OverNodes { .. } => b"OverNodes",
        Refusal::NotImage { .. } => b"NotImage",
        Refusal::ArraysTooLarge { .. } => b"ArraysTooLarge",
        Refusal::OverSize { .. } => b"OverSize",
        Refusal::TooLong { .. } => b"TooLong",
    }
}

/// Puts numbers behind a line, each behind a space.
fn put_numbers(line: &mut Text, numbers: &[u32]) -> Result<(), NoMemory>
    ensures { OnOk result (line.new ≡ line.old ++ flat_map spec.numbered numbers.now) }
{
    let mut left = numbers;
    'numbers: while let [first, rest @ ..] = left {
        put_number(line, u128::from(*first))?;
        left = rest;
    }
    Ok(())
}

/// Puts the fields of a refusal behind its line, each behind a space.
fn put_fields(line: &mut Text, r: &Refusal) -> Result<(), NoMemory>
    ensures { OnOk result (line.new ≡ line.old ++ flat_map spec.spaced (spec.fields r.now)) }
{
    match r {
        Refusal::NotJson => Ok(()),
        Refusal::NotText { word, at, why } => {
            put_numbers(line, &[*word, *at])?;
            put_word(line, text_why(*why))
        }
        Refusal::OverLimit { which, count } => {
            put_word(line, limit(*which))?;
            put_numbers(line, &[*count])
        }
        Refusal::IllTyped { place, why } => {
            put_place(line, *place)?;
            put_word(line, type_why(*why))
        }
        Refusal::BadArguments { which } => put_fault(line, *which),
        Refusal::NotDerivation { node: None } => put_word(line, b"header"),
        Refusal::NodeCount { listed, needed } => {
            put_numbers(line, &[*listed])?;
            put_number(line, u128::from(*needed))
        }
        Refusal::OverBound {
            node,
            degree,
            coefficient,
        } => {
            put_numbers(line, &[*node, *degree])?;
            put_number(line, *coefficient)
        }
        Refusal::Stuck { stmt, goal } => {
            put_numbers(line, &[*stmt])?;
            put_goal(line, goal)
        }
        Refusal::ArraysTooLarge { bytes } => put_number(line, u128::from(*bytes)),
        Refusal::NoInstance { node: a, cond: b }
        | Refusal::BadCertificate { node: a, cert: b }
        | Refusal::NotLemma { word: a, at: b }
        | Refusal::TooLong { word: a, limit: b } => put_numbers(line, &[*a, *b]),
        Refusal::NotModel { at: n }
        | Refusal::NotDerivation { node: Some(n) }
        | Refusal::OverSlots { count: n }
        | Refusal::OverNodes { count: n }
        | Refusal::NotImage { at: n }
        | Refusal::OverSize { bytes: n } => put_numbers(line, &[*n]),
    }
}

fn text_why(why: TextWhy) -> &'static [u8]
    ensures { result.now ≡ spec.text_why why }
{
    match why {
        TextWhy::Byte => b"byte",
        TextWhy::Extra => b"extra",
        TextWhy::Deep => b"deep",
        TextWhy::Unclosed => b"unclosed",
    }
}

fn limit(limit: Limit) -> &'static [u8]
    ensures { result.now ≡ spec.limit limit }
{
    match limit {
        Limit::Statements => b"statements",
        Limit::Depth => b"depth",
        Limit::Blocks => b"blocks",
        Limit::Tables => b"tables",
    }
}

fn type_why(why: TypeWhy) -> &'static [u8]
    ensures { result.now ≡ spec.type_why why }
{
    match why {
        TypeWhy::Repeated => b"repeated",
        TypeWhy::Registers => b"registers",
        TypeWhy::Unknown => b"unknown",
        TypeWhy::NotScalar => b"notscalar",
        TypeWhy::NotArray => b"notarray",
        TypeWhy::WrongType => b"wrongtype",
        TypeWhy::NameTaken => b"nametaken",
        TypeWhy::Uncarried => b"uncarried",
        TypeWhy::WideForm => b"wideform",
        TypeWhy::Results => b"results",
        TypeWhy::Owner => b"owner",
    }
}

fn put_place(line: &mut Text, place: TypePlace) -> Result<(), NoMemory>
    ensures { OnOk result (line.new ≡ line.old ++ flat_map spec.spaced (spec.place place)) }
{
    match place {
        TypePlace::Params => put_word(line, b"params"),
        TypePlace::Require(k) => {
            put_word(line, b"require")?;
            put_numbers(line, &[k])
        }
        TypePlace::Statement(k) => {
            put_word(line, b"statement")?;
            put_numbers(line, &[k])
        }
        TypePlace::Return(k) => {
            put_word(line, b"return")?;
            put_numbers(line, &[k])
        }
    }
}

fn put_fault(line: &mut Text, fault: ArgFault) -> Result<(), NoMemory>
    ensures { OnOk result (line.new ≡ line.old ++ flat_map spec.spaced (spec.fault fault)) }
{
    match fault {
        ArgFault::Count => put_word(line, b"count"),
        ArgFault::Param(k) => {
            put_word(line, b"param")?;
            put_numbers(line, &[k])
        }
        ArgFault::Require(k) => {
            put_word(line, b"require")?;
            put_numbers(line, &[k])
        }
    }
}

fn put_goal(line: &mut Text, goal: &Goal) -> Result<(), NoMemory>
    ensures { OnOk result (line.new ≡ line.old ++ spec.spaced (spec.goal goal.now)) }
{
    match goal {
        Goal::Expr(spelling) => put_word(line, spelling.as_slice()),
        Goal::Stmt => put_word(line, b"statement"),
        Goal::End => put_word(line, b"end"),
    }
}
