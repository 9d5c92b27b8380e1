//! Cases as text: what a program whose data are worked rows reads, and how it judges them. A file of cases is easy to
//! write by hand. Paragraphs are separated by blank lines; a paragraph is one case:
//!
//!     the sum of the largest word and one
//!     words run sum.image 4294967295 1
//!     = status 0
//!
//! Its first line is the case's name, the lines behind it ask for a call, and the lines that begin with `= ` are the
//! answer that is wanted. A table of short cases has one in each line, as `decode 000012b7 = lui 5 1`. A line that
//! begins with `#` is a comment.
#![tactic(auto)]

mod answers;
mod case;
mod fault;
mod parts;
mod table;
mod tally;
mod written;

pub use answers::{operand, refused, shown, told};
pub use case::{Case, Row, read_case, read_row};
pub use fault::Fault;
pub use parts::{bytes_of, escaped, number_of, numbers_of};
pub use table::{Calls, judge_table};
pub use tally::Tally;
pub use written::bytes_written;
