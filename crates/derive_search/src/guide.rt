//! What the search goes by.
use crate::locals::Homes;
use lemma_files::Lemma;

/// What every goal is searched with: the homes of names, the lemmas in
/// the order in which they are tried, and the book whose steps
/// they name.
#[derive(Clone, Copy)]
pub struct Guide<'h, 'a, B> {
    pub homes: Homes<'h>,
    pub lemmas: &'a [Lemma],
    pub book: &'a B,
}
