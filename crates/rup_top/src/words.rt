//! The words of a command line.
ghost use Rattle.std.specs.Prelude.{◌≡◌, ◌≤◌, map, length, string_bytes, IfSome};
ghost use Rattle.rup_top.specs.Requests.{command_seen, HasPlaces};
ghost use Rattle.rup_top.specs.Words as spec;

use run_setup::behind;
use rup_base::{number_of, numeral};

/// The greatest size of an image's code, in bytes.
pub const MOST_SIZE: u32 = 1_000_000;

/// The greatest number of statements that `bench` draws.
const MOST_COUNT: u32 = 1990;

/// The greatest number of lemma files.
const MOST_LEMMA_FILES: usize = 16;

/// What the words ask for. A word that names a file is kept as it is; arguments are among the words.
#[derive(Clone, Copy)]
pub enum Request<'a> {
    Usage,
    Compile {
        model: &'a str,
        /// The words that name lemma files, at most sixteen.
        lemmas: &'a [String],
    },
    Replay {
        model: &'a str,
        tree: &'a str,
        /// The most bytes of code, at most 1,000,000.
        size: u32,
    },
    Code {
        model: &'a str,
        tree: &'a str,
    },
    Run {
        image: &'a str,
        words: &'a [String],
    },
    Eval {
        model: &'a str,
        words: &'a [String],
    },
    Show {
        image: &'a str,
    },
    Bench {
        seed: u32,
        /// How many statements are drawn, from 1 to 1990.
        count: u32,
    },
}

/// The request of the words; words that fit no row of the command table are usage.
pub fn request_of(words: &[String]) -> Request<'_>
    ensures command { command_seen result ≡ spec.command_of (map string_bytes words.now) }
    ensures places { HasPlaces result }
{
    match words {
        [command, file, rest @ ..] => {
            if command.as_str() == "compile" {
                compile_of(file, rest)
            } else if command.as_str() == "replay" {
                replay_of(file, rest)
            } else if command.as_str() == "code" {
                code_of(file, rest)
            } else if command.as_str() == "run" {
                Request::Run {
                    image: file.as_str(),
                    words,
                }
            } else if command.as_str() == "eval" {
                Request::Eval {
                    model: file.as_str(),
                    words,
                }
            } else if command.as_str() == "show" {
                show_of(file, rest)
            } else if command.as_str() == "bench" {
                bench_of(file, rest)
            } else {
                Request::Usage
            }
        }
        _ => Request::Usage,
    }
}

/// `replay` takes one word more, and may take a size.
fn replay_of<'a>(model: &'a String, words: &'a [String]) -> Request<'a>
    ensures command { command_seen result ≡ spec.replay_of (string_bytes model.now) (map string_bytes words.now) }
    ensures places { HasPlaces result }
{
    match words {
        [tree] => Request::Replay {
            model: model.as_str(),
            tree: tree.as_str(),
            size: MOST_SIZE,
        },
        [tree, size] => replay_within(model, tree, size_of(size.as_str())),
        _ => Request::Usage,
    }
}

fn replay_within<'a>(model: &'a String, tree: &'a String, size: Option<u32>) -> Request<'a>
    requires { IfSome size (λ n. n ≤ spec.most_size) }
    ensures command { command_seen result ≡ spec.replay_within (string_bytes model.now) (string_bytes tree.now) size }
    ensures places { HasPlaces result }
{
    match size {
        None => Request::Usage,
        Some(size) => Request::Replay {
            model: model.as_str(),
            tree: tree.as_str(),
            size,
        },
    }
}

/// The size that a word `size=N` says: a decimal number of at most 1,000,000.
fn size_of(word: &str) -> Option<u32>
    ensures size { result ≡ spec.size_of word.now }
    ensures most { IfSome result (λ n. n ≤ spec.most_size) }
{
    let digits = behind(b"size=", word.as_bytes())?;
    let size = decimal_number(digits)?;
    if size <= MOST_SIZE { Some(size) } else { None }
}

/// The number that decimal digits spell; a zero leads no other digit.
fn decimal_number(digits: &[u8]) -> Option<u32>
    ensures { result ≡ spec.decimal_number digits.now }
{
    match digits {
        [] => None,
        [_] => numeral(10, digits),
        [first, _, ..] => {
            if *first == b'0' {
                None
            } else {
                numeral(10, digits)
            }
        }
    }
}

/// `compile` takes a word for each lemma file.
fn compile_of<'a>(model: &'a String, words: &'a [String]) -> Request<'a>
    ensures command { command_seen result ≡ spec.compile_of (string_bytes model.now) (map string_bytes words.now) }
    ensures places { HasPlaces result }
{
    if words.len() <= MOST_LEMMA_FILES {
        Request::Compile {
            model: model.as_str(),
            lemmas: words,
        }
    } else {
        Request::Usage
    }
}

/// `code` takes one word more.
fn code_of<'a>(model: &'a String, words: &'a [String]) -> Request<'a>
    ensures command { command_seen result ≡ spec.code_of (string_bytes model.now) (map string_bytes words.now) }
    ensures places { HasPlaces result }
{
    match words {
        [tree] => Request::Code {
            model: model.as_str(),
            tree: tree.as_str(),
        },
        _ => Request::Usage,
    }
}

/// `show` takes no word more.
fn show_of<'a>(image: &'a String, words: &'a [String]) -> Request<'a>
    ensures command { command_seen result ≡ spec.show_of (string_bytes image.now) (map string_bytes words.now) }
    ensures places { HasPlaces result }
{
    match words {
        [] => Request::Show {
            image: image.as_str(),
        },
        _ => Request::Usage,
    }
}

/// `bench` takes one word more; both are numbers.
fn bench_of<'a>(seed: &'a String, words: &'a [String]) -> Request<'a>
    ensures command { command_seen result ≡ spec.bench_of (string_bytes seed.now) (map string_bytes words.now) }
    ensures places { HasPlaces result }
{
    match words {
        [count] => bench_numbers(seed.as_str(), count.as_str()),
        _ => Request::Usage,
    }
}

#[tactic(auto, unfolding(crate::specs::Words::bench_numbers))]
fn bench_numbers<'a>(seed: &str, count: &str) -> Request<'a>
    ensures command { command_seen result ≡ spec.bench_numbers seed.now count.now }
    ensures places { HasPlaces result }
{
    bench_with(number_of(seed.as_bytes()), count_of(count))
}

fn bench_with<'a>(seed: Option<u32>, count: Option<u32>) -> Request<'a>
    requires { IfSome count (λ n. (1 ≤ n) × (n ≤ spec.most_count)) }
    ensures command { command_seen result ≡ spec.bench_with seed count }
    ensures places { HasPlaces result }
{
    match seed {
        None => Request::Usage,
        Some(seed) => match count {
            None => Request::Usage,
            Some(count) => Request::Bench { seed, count },
        },
    }
}

/// How many statements a word says, from 1 to 1990.
fn count_of(word: &str) -> Option<u32>
    ensures count { result ≡ spec.count_of word.now }
    ensures few { IfSome result (λ n. (1 ≤ n) × (n ≤ spec.most_count)) }
{
    let count = number_of(word.as_bytes())?;
    if 1 <= count && count <= MOST_COUNT {
        Some(count)
    } else {
        None
    }
}
