//! Values of models.
use crate::typed::typed;
use model_value::value;
use row_cases::{Fault, bytes_of, number_of, refused};
use rup_base::{Arg, Args, List};
use std::alloc::Global;

/// The results of a model at arguments, as `1 bytes:0a0b words:7,8; (model ..)`, or why there are none.
pub fn valued(alloc: Global, line: &str) -> Result<String, Fault> {
    let (line, text) = line.split_once("; ").unwrap_or((line, ""));
    let model = match typed(alloc, text)? {
        Ok(model) => model,
        Err(fail) => return refused(alloc, &fail),
    };
    let args = args_of(alloc, line)?;
    match value(alloc, &model, &args) {
        Ok(results) => results_text(alloc, results.as_slice()),
        Err(fail) => refused(alloc, &fail),
    }
}

fn args_of(alloc: Global, line: &str) -> Result<Args, Fault> {
    let mut args = List::new(alloc);
    for word in line.split_whitespace() {
        args.push(arg_of(alloc, word)?)?;
    }
    Ok(args)
}

fn arg_of(alloc: Global, word: &str) -> Result<Arg, Fault> {
    if let Some(digits) = word.strip_prefix("bytes:") {
        return Ok(Arg::Bytes(bytes_of(alloc, digits)?));
    }
    let Some(numbers) = word.strip_prefix("words:") else {
        return Ok(Arg::Word(number_of(word)?));
    };
    let mut words = List::new(alloc);
    if !numbers.is_empty() {
        for number in numbers.split(',') {
            words.push(number_of(number)?)?;
        }
    }
    Ok(Arg::Words(words))
}

fn results_text(alloc: Global, results: &[Arg]) -> Result<String, Fault> {
    let mut line = String::from_str(alloc, "value")?;
    for result in results {
        put_result(&mut line, result)?;
    }
    Ok(line)
}

/// Puts a result behind a line, in the form of an argument.
fn put_result(line: &mut String, given: &Arg) -> Result<(), Fault> {
    match given {
        Arg::Word(number) => write!(line, " {number}")?,
        Arg::Bytes(bytes) => {
            line.push_str(" bytes:")?;
            for byte in bytes.as_slice() {
                write!(line, "{byte:02x}")?;
            }
        }
        Arg::Words(words) => {
            line.push_str(" words:")?;
            for word in words.as_slice() {
                write!(line, "{word},")?;
            }
        }
    }
    Ok(())
}
