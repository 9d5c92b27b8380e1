//! Bytes to forms.
ghost use Rattle.std.specs.Prelude.{◌≡◌, ◌≤◌, ◌^◌, length};
ghost use Rattle.rup_base.specs.Answers.{Answers};
ghost use Rattle.rup_base.specs.declared.fail.Fail.TheVariants as fail;
ghost use Rattle.rup_base.specs.declared.refusal.Refusal.TheVariants.{NotText};
ghost use Rattle.sx_text.specs.Forms.{read};

use crate::byte_class::{Class, class_of, line_length, word_length};
use crate::tree::{Forms, Sx};
use rup_base::{Fail, List, Place, Refusal, Text, TextWhy};
use std::alloc::Global;

/// The greatest number of lists that may be open at one place.
const DEEPEST: usize = 256;

/// A list that is not closed yet: where its `(` stands, and the forms that stand before it beside it.
#[derive(Debug, Drop)]
struct Frame {
    start: u32,
    before: Forms,
}

/// The forms of `bytes`, in order, each with its place. Where the bytes are no text of forms,
/// `NotText` has the least offset at which they are none, and why. `word` is the place of the file's name
/// among the words of the command. The time is linear in the number of bytes.
pub fn read_forms(alloc: Global, word: u32, bytes: &[u8]) -> Result<Forms, Fail>
    requires { length bytes.now ≤ 2 ^ 24 }
    ensures { Answers result (read word bytes.now) }
{
    let mut frames: Vec<Frame> = Vec::new(alloc);
    let mut forms: Forms = List::new(alloc);
    let mut at = 0;
    while at < bytes.len() {
        match class_of(bytes[at]) {
            Class::Space => at += 1,
            Class::Note => at += 1 + line_length(bytes, at + 1),
            Class::Open => {
                if frames.len() == DEEPEST {
                    return Err(refused(word, at as u32, TextWhy::Deep));
                }
                frames.push(Frame {
                    start: at as u32,
                    before: forms,
                })?;
                forms = List::new(alloc);
                at += 1;
            }
            Class::Close => {
                let Some(frame) = frames.pop() else {
                    return Err(refused(word, at as u32, TextWhy::Extra));
                };
                at += 1;
                let Frame { start, before } = frame;
                let place = Place {
                    start,
                    end: at as u32,
                };
                let list = Sx::Kids(place, forms);
                forms = before;
                forms.push(list)?;
            }
            Class::Word => {
                let end = at + 1 + word_length(bytes, at + 1);
                let place = Place {
                    start: at as u32,
                    end: end as u32,
                };
                forms.push(Sx::Atom(place, Text::from_slice(alloc, &bytes[at..end])?))?;
                at = end;
            }
            Class::Bad => return Err(refused(word, at as u32, TextWhy::Byte)),
        }
    }
    if !frames.is_empty() {
        return Err(refused(word, at as u32, TextWhy::Unclosed));
    }
    Ok(forms)
}

fn refused(word: u32, at: u32, why: TextWhy) -> Fail
    ensures { result ≡ fail.Refused (NotText word at why) }
{
    Fail::Refused(Refusal::NotText { word, at, why })
}
