//! The image around the code of a model.
ghost use Rattle.std.specs.Prelude.{◌≡◌, ◌+◌, ◌*◌, ◌%◌, ◌≤◌, [], ◌∷◌, ◌++◌, map, length, IfOk, OnOk};
ghost use Rattle.std.specs.List.{AllByRecursion};
ghost use Rattle.bed_syntax.specs.Named.{cmd_names};
ghost use Rattle.image_layout.specs.Spelling as layout;
ghost use Rattle.model_command.specs.Computes.{Computes};
ghost use Rattle.model_command.specs.Measures.{IsMeasured, IsSmall};
ghost use Rattle.model_syntax.specs.Entries.{number_among, param_name, result_place};
ghost use Rattle.model_syntax.specs.Types.{Well, kind_of};
ghost use Rattle.rv_code.specs.Word.{word_of};
ghost use Rattle.rv_emit.specs.Names.{named_in};
ghost use Rattle.sym_heap.specs.Start.{start};
ghost use Rattle.pipeline.specs.Around as around;
ghost use Rattle.pipeline.specs.Around.{IsLimited};
ghost use Rattle.pipeline.specs.Serves.{Serves};
ghost use Rattle.pipeline.specs.Written.{Written, bytes_of};

use crate::passes::machine_code;
use bed_syntax::Weights;
use image_layout::{Image, code_offset, write_image};
use model_command::ModelCommand;
use model_syntax::{Model, Param, Ret};
use model_types::Typed;
use rup_base::{List, Name, NoMemory, Text};
use rv_code::{Instr, encode};
use rv_emit::Emitted;
use side_certs::Form;
use std::alloc::Global;
use sym_heap::Ctx;

/// The bytes of an image of a model, by a command that computes it. The error is want of memory alone.
pub fn image(alloc: Global, m: &Typed, c: &ModelCommand) -> Result<Text, NoMemory>
    requires computes { Computes Weights.LARGE m.now.inner c.now }
    requires measured { IsMeasured Weights.LARGE m.now.inner c.now }
    requires small { IsSmall c.now }

    // The image is good for the model: called on any state that is ready, it returns within its bound with the value.
    ensures written { IfOk result (λ bytes. Written m.now.inner c.now.command c.now.bound c.now.weight bytes) }
{
    let emitted = machine_code(alloc, m, c)?;
    image_around(alloc, m, c, &emitted)
}

/// The bytes of the image of a model around code that serves it.
fn image_around(alloc: Global, m: &Typed, c: &ModelCommand, e: &Emitted) -> Result<Text, NoMemory>
    requires measured { IsMeasured Weights.LARGE m.now.inner c.now }
    requires small { IsSmall c.now }
    requires serves { Serves m.now.inner c.now (map word_of e.now.code) e.now.tables e.now.stack }
    requires some { 1 ≤ length e.now.code }
    requires counted { length e.now.code ≤ c.now.weight }
    requires stack_aligned { e.now.stack % 16 ≡ 0 }
    requires stack_small { e.now.stack ≤ 4096 }
    requires tables { length e.now.tables ≤ 131_072 }
    requires names { named_in e.now.code ≡ cmd_names c.now.command }
    ensures { IfOk result (λ bytes. Written m.now.inner c.now.command c.now.bound c.now.weight bytes) }
{
    let image = image_of(alloc, m, c, e)?;
    let bytes = write_image(alloc, &image)?;
    Ok(bytes)
}

/// The code with its tables, and around it the model's parameters, requirements and results.
fn image_of(alloc: Global, m: &Typed, c: &ModelCommand, e: &Emitted) -> Result<Image, NoMemory>
    requires measured { IsMeasured Weights.LARGE m.now.inner c.now }
    requires small { IsSmall c.now }
    ensures image { IfOk result (λ i. i
        ≡ around.image_around m.now.inner c.now.bound e.now.stack (bytes_of (map word_of e.now.code)) e.now.tables) }
    ensures limited { IfOk result (λ i. AllByRecursion IsLimited i.requires_) }
{
    let model = &m.inner;
    let params = m.kinds(alloc)?;
    let requirements = requirements_of(alloc, model)?;
    let rets = places_of(alloc, model.params.as_slice(), model.rets.as_slice())?;
    let mut image = Image {
        version: 1,
        params,
        requires_: requirements,
        rets,
        bound: c.bound.copy(),
        entry: 0,
        stack: e.stack,
        code: code_of(alloc, e.code.as_slice())?,
        tables: Text::from_slice(alloc, e.tables.as_slice())?,
    };
    image.entry = entry_of(m, c, &image);
    Ok(image)
}

/// Where the code of an image begins whose lists are the model's.
#[tactic(auto, using(crate::proofs::Limits::short_image))]
fn entry_of(m: &Typed, c: &ModelCommand, image: &Image) -> u32
    requires measured { IsMeasured Weights.LARGE m.now.inner c.now }
    requires small { IsSmall c.now }
    requires params { image.now.params ≡ map kind_of m.now.inner.params }
    requires requirements { image.now.requires_ ≡ (start m.now.inner).facts }
    requires rets { image.now.rets ≡ map (result_place m.now.inner.params) m.now.inner.rets }
    requires bound { image.now.bound ≡ c.now.bound }
    requires limited { AllByRecursion IsLimited image.now.requires_ }
    ensures { result ≡ layout.code_offset image.now }
{
    // for the proof alone: whose lists they are
    let _ = m;
    let _ = c;
    code_offset(image)
}

/// The requirements as forms over the entry symbols: the facts at the start.
fn requirements_of(alloc: Global, m: &Model) -> Result<List<Form>, NoMemory>
    requires { Well m.now }
    ensures facts { IfOk result (λ forms. forms ≡ (start m.now).facts) }
    ensures limited { IfOk result (λ forms. AllByRecursion IsLimited forms) }
{
    let context = Ctx::start(alloc, m)?;
    copies_of(alloc, context.facts())
}

fn copies_of(alloc: Global, forms: &[Form]) -> Result<List<Form>, NoMemory>
    ensures same { IfOk result (λ copies. copies ≡ forms.now) }
    ensures limited { IfOk result (λ copies. AllByRecursion IsLimited copies) }
{
    let mut copies = List::new(alloc);
    let mut left = forms;
    'forms: while let [first, rest @ ..] = left {
        // for the proof alone: the form keeps its limits
        let _ = first.terms();
        copies.push(first.copy())?;
        left = rest;
    }
    Ok(copies)
}

/// For each result the number of its array parameter, or None for a scalar.
fn places_of(alloc: Global, params: &[Param], rets: &[Ret]) -> Result<List<Option<u32>>, NoMemory>
    requires { length params.now ≤ 8 }
    ensures { IfOk result (λ places. places ≡ map (result_place params.now) rets.now) }
{
    let mut places = List::new(alloc);
    let mut left = rets;
    'rets: while let [first, rest @ ..] = left {
        places.push(place_of(params, first))?;
        left = rest;
    }
    Ok(places)
}

fn place_of(params: &[Param], ret: &Ret) -> Option<u32>
    requires { length params.now ≤ 8 }
    ensures { result ≡ result_place params.now ret.now }
{
    match ret {
        Ret::Scalar(_) => None,
        Ret::Array(_, owner) => Some(number_of(params, owner)),
    }
}

/// The number of the parameter of a name, the number of all where none has it.
fn number_of(params: &[Param], name: &Name) -> u32
    requires { length params.now ≤ 8 }
    ensures { result ≡ number_among name.now (map param_name params.now) }
{
    let mut number = 0;
    let mut left = params;
    'params: while let [first, rest @ ..] = left {
        if name_of(first) == name {
            return number;
        }
        number += 1;
        left = rest;
    }
    number
}

fn name_of(param: &Param) -> &Name
    ensures { result.now ≡ param_name param.now }
{
    match param {
        Param::Word(name) => name,
        Param::Byte(name) => name,
        Param::Bytes(name, _) => name,
        Param::Words(name, _) => name,
    }
}

/// The words of the instructions, little endian.
fn code_of(alloc: Global, code: &[Instr]) -> Result<Text, NoMemory>
    ensures { IfOk result (λ bytes. bytes ≡ bytes_of (map word_of code.now)) }
{
    let mut bytes = Text::new(alloc);
    let mut left = code;
    'code: while let [first, rest @ ..] = left {
        bytes.extend_from_slice(&encode(*first).to_le_bytes())?;
        left = rest;
    }
    Ok(bytes)
}
