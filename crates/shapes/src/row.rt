// Rows of shapes by their words, depth first, taken apart from the front.
ghost use Rattle.std.specs.Prelude.{◌≡◌, length, MatchOption};
ghost use Rattle.shapes.specs.Format.{never};
ghost use Rattle.shapes.specs.Words.{is_bracket, read_format};
ghost use Rattle.shapes.specs.Code.Rows.{IsRowOf, IsFirstAndRest};

use crate::leaf::Leaf;
use crate::{OPEN, OPEN_INSIDE, is_never};

// The words of a row's shapes, and whether it is open.
#[derive(Clone, Copy)]
pub struct Row<'a> {
    pub words: &'a [u32],
    pub is_open: bool,
}

// A shape: no bracket, or a bracket with its contents.
#[derive(Clone, Copy)]
pub enum Shape<'a> {
    Leaf(Leaf),
    Bracket(Row<'a>),
}

// Is this shape's word a bracket's?
fn is_bracket(w: u32) -> bool
    ensures { result ≡ is_bracket w }
{
    w % 8 == 5
}

impl<'a> Row<'a> {
    // The row of a format's words, or none where it is never. No words are the empty format.
    pub fn of_format(format: &'a [u32]) -> Option<Row<'a>>
        ensures { MatchOption result (read_format format.now ≡ never) (λ row. IsRowOf format.now row) }
    {
        let Some((&header, words)) = format.split_first() else {
            return Some(Row {
                words: format,
                is_open: false,
            });
        };
        if is_never(header) {
            return None;
        }
        let count = (header % OPEN) as usize;
        Some(Row {
            words: &words[..count.min(words.len())],
            is_open: OPEN <= header,
        })
    }
}

// The first shape of a row's words, and the words after it.
pub fn split_first<'a>(words: &'a [u32]) -> Option<(Shape<'a>, &'a [u32])>
    ensures { MatchOption result (length words.now ≡ 0) (λ parts. IsFirstAndRest words.now parts.0 parts.1.now) }
{
    let (&word, after) = words.split_first()?;
    if !is_bracket(word) {
        return Some((Shape::Leaf(Leaf::from(word)), after));
    }
    let inside = (word / 8 % 128) as usize;
    let (contents, rest) = after.split_at(inside.min(after.len()));
    let bracket = Row {
        words: contents,
        is_open: OPEN_INSIDE <= word,
    };
    Some((Shape::Bracket(bracket), rest))
}
