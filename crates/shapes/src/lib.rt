// Formats as flat words: a header and its shapes, depth first.
#![tactic(auto)]

ghost use Rattle.std.specs.Prelude.{◌≡◌, true, false, cond, ◌+◌, ◌%◌, ◌≤◌, ◌<◌, length, leb};
ghost use Rattle.shapes.specs.Format.{end, size};
ghost use Rattle.shapes.specs.Join.{join_rows, join_formats};
ghost use Rattle.shapes.specs.Disjoint.{disjoint_rows, disjoint_formats};
ghost use Rattle.shapes.specs.Words.{bracket_word, shape_words, format_words, shapes_in, read_format};
ghost use Rattle.shapes.specs.Code.Words.{row_end, FormatIn};
ghost use Rattle.buffers.specs.Written.{written};
ghost use Rattle.shapes.specs.Code.Rows.{word_count, apart, first_join, row_next, row_opens, ShapesWritten};

use crate::leaf::Leaf;
use crate::row::{Row, Shape, split_first};
use buffers::copy_words;

pub mod display;
pub mod leaf;
pub mod row;

// The header of a format that is never.
pub const NEVER: u32 = 512;

// What the header of an open row has more.
const OPEN: u32 = 256;

// What the word of a bracket has more where its contents are open.
const OPEN_INSIDE: u32 = 1024;

// A row that was written ends closed or open, before a position.
#[derive(Clone, Copy, Debug, PartialEq, Eq)]
pub enum RowEnd {
    Closed(usize),
    Open(usize),
}

impl RowEnd {
    // The end of a row before a position, open or not.
    pub fn new(next: usize, is_open: bool) -> RowEnd
        ensures next { row_next result ≡ next }
        ensures opens { row_opens result ≡ is_open }
    {
        if is_open {
            RowEnd::Open(next)
        } else {
            RowEnd::Closed(next)
        }
    }

    // The position after the row's words.
    pub fn next(self) -> usize
        ensures { result ≡ row_next self }
    {
        match self {
            RowEnd::Closed(next) | RowEnd::Open(next) => next,
        }
    }

    pub fn is_open(self) -> bool
        ensures { result ≡ row_opens self }
    {
        matches!(self, RowEnd::Open(_))
    }
}

// The word of a bracket with so many shapes inside it.
pub fn bracket_word(n: usize, is_open: bool) -> u32
    requires { n < 65536 }
    ensures { result ≡ bracket_word n is_open }
{
    5 + 8 * (n as u32) + if is_open { OPEN_INSIDE } else { 0 }
}

// The header of a format with so many shapes.
pub fn header_word(n: usize, is_open: bool) -> u32
    requires { n ≤ 127 }
    ensures { result ≡ n + cond is_open 256 0 }
{
    n as u32 + if is_open { OPEN } else { 0 }
}

// Is no term of both shapes? Brackets ask about their contents.
#[cycle(disjoint_rows_disjoint_shapes)]
fn disjoint_shapes(a: Shape, b: Shape) -> bool
    ensures { result ≡ apart a.entry b.entry }
{
    match (a, b) {
        (Shape::Leaf(a), Shape::Leaf(b)) => a.is_apart(b),
        (Shape::Leaf(leaf), Shape::Bracket(_)) | (Shape::Bracket(_), Shape::Leaf(leaf)) => {
            !leaf.holds_brackets()
        }
        (Shape::Bracket(a), Shape::Bracket(b)) => {
            disjoint_rows(a.words, a.is_open, b.words, b.is_open)
        }
    }
}

// Is no expression in both rows of shapes? A row's words and whether it is open are handed on apart: a row as a whole would go through memory.
#[cycle(disjoint_rows_disjoint_shapes)]
fn disjoint_rows(a: &[u32], a_open: bool, b: &[u32], b_open: bool) -> bool
    ensures { result ≡ disjoint_rows (shapes_in a_open a.now) (shapes_in b_open b.now) }
{
    match (split_first(a), split_first(b)) {
        (None, None) => false,
        (None, Some(_)) => !a_open,
        (Some(_), None) => !b_open,
        (Some((x, a_rest)), Some((y, b_rest))) => {
            disjoint_shapes(x, y) || disjoint_rows(a_rest, a_open, b_rest, b_open)
        }
    }
}

// The join of two shapes, written at a position; the position after it. Brackets join their contents.
#[cycle(join_rows_join_shapes)]
fn join_shapes(a: Shape, b: Shape, out: &mut [u32], at: usize) -> usize
    requires { (at + word_count a ≤ length out.old) × (word_count a ≤ 127) }
    ensures end { (result ≤ at + word_count a.entry) × (result ≡ at + size (first_join a.entry b.entry (end false))) }
    ensures words { out.new ≡ written out.old at (shape_words (first_join a.entry b.entry (end false))) }
{
    match (a, b) {
        (Shape::Leaf(a), Shape::Leaf(b)) => {
            out[at] = u32::from(a.join(b));
            at + 1
        }
        (Shape::Bracket(a), Shape::Bracket(b)) => {
            let end = join_rows(a.words, a.is_open, b.words, b.is_open, out, at + 1);
            out[at] = bracket_word(end.next() - at - 1, end.is_open());
            end.next()
        }
        (Shape::Leaf(_), Shape::Bracket(_)) => {
            out[at] = u32::from(Leaf::Unknown); // the first shape is no bracket
            at + 1
        }
        (Shape::Bracket(_), Shape::Leaf(_)) => {
            out[at] = u32::from(Leaf::Unknown); // the second shape is no bracket
            at + 1
        }
    }
}

// The join of two rows of shapes, written at a position.
#[cycle(join_rows_join_shapes)]
fn join_rows(a: &[u32], a_open: bool, b: &[u32], b_open: bool, out: &mut [u32], at: usize) -> RowEnd
    requires { (at + length a.now ≤ length out.old) × (length a.now ≤ 127) }
    ensures end { row_next result ≤ at + length a.now }
    ensures joined { ShapesWritten (join_rows (shapes_in a_open a.now) (shapes_in b_open b.now)) out.old at (row_next result) (row_opens result) out.new }
{
    match (split_first(a), split_first(b)) {
        (None, None) => RowEnd::new(at, a_open || b_open),
        (Some((x, a_rest)), Some((y, b_rest))) => {
            let next = join_shapes(x, y, out, at);
            join_rows(a_rest, a_open, b_rest, b_open, out, next)
        }
        _ => RowEnd::Open(at),
    }
}

// Does this header say never?
pub fn is_never(header: u32) -> bool
    ensures { result ≡ leb 512 header }
{
    NEVER <= header
}

// Where the shapes of a format end.
pub fn row_end(f: &[u32]) -> usize
    requires { 1 ≤ length f.now }
    ensures { (result ≡ row_end f.now) × (1 ≤ result) × (result ≤ length f.now) }
{
    (1 + (f[0] % OPEN) as usize).min(f.len())
}

// Is no expression in both formats? No words are the empty format.
pub fn disjoint_formats(a: &[u32], b: &[u32]) -> bool
    ensures { result ≡ disjoint_formats (read_format a.now) (read_format b.now) }
{
    match (Row::of_format(a), Row::of_format(b)) {
        (Some(a), Some(b)) => disjoint_rows(a.words, a.is_open, b.words, b.is_open),
        _ => true,
    }
}

// The join of two formats, every word of it: the header, the shapes, and zeros.
pub fn join_formats(limit: usize, a: &[u32], b: &[u32], out: &mut [u32])
    requires { (limit ≤ 127) × FormatIn limit a.now × FormatIn limit b.now × (length out.old ≡ limit + 1) }
    ensures { out.new ≡ format_words limit (join_formats (read_format a.now) (read_format b.now)) }
{
    match (Row::of_format(a), Row::of_format(b)) {
        (None, _) => copy_words(b, out),
        (_, None) => copy_words(a, out),
        (Some(a), Some(b)) => {
            out.fill(0);
            let end = join_rows(a.words, a.is_open, b.words, b.is_open, out, 1);
            out[0] = header_word(end.next() - 1, end.is_open());
        }
    }
}
