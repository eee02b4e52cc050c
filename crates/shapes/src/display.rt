// Formats as text, written into a lent buffer.
ghost use Rattle.std.specs.Prelude.{◌≡◌, true, false, cond, [], ◌∷◌, ◌+◌, ◌*◌, ◌≤◌, length};
ghost use Rattle.shapes.specs.Words.{shapes_in, read_format};
ghost use Rattle.shapes.specs.Code.Rows.{word_count};
ghost use Rattle.buffers.specs.Code.Put.{Put, largest};
ghost use Rattle.shapes.specs.Display.{display, shown_answer, display_at};
ghost use Rattle.shapes.specs.Code.Shown.{shown, first_shown};

use crate::row::{Row, Shape, split_first};
use buffers::{put, put_byte};

// A space, unless what follows is the first item.
fn put_space(first: bool, out: &mut [u8], at: usize) -> usize
    requires { at + 1 ≤ largest }
    ensures { Put out.old at (cond first [] (32 ∷ [])) result out.new }
{
    if first { at } else { put_byte(b' ', out, at) }
}

// The first item of a row. A bracket shows its contents.
#[cycle(show_row_show_shape)]
fn show_shape(shape: Shape, out: &mut [u8], at: usize) -> usize
    requires { at + 8 * word_count shape ≤ largest }
    ensures end { result + 1 ≤ at + 8 * word_count shape.entry }
    ensures put { Put out.old at (first_shown shape.entry) result out.new }
{
    match shape {
        Shape::Leaf(leaf) => put_byte(leaf.letter(), out, at),
        Shape::Bracket(contents) => {
            let start = put(b"([", out, at);
            let next = show_row(contents.words, contents.is_open, true, out, start);
            put(b"])", out, next)
        }
    }
}

// The items of a row, and `..` where it is open.
#[cycle(show_row_show_shape)]
fn show_row(words: &[u32], is_open: bool, first: bool, out: &mut [u8], at: usize) -> usize
    requires { at + 8 * length words.now + 3 ≤ largest }
    ensures end { result ≤ at + 8 * length words.now + 3 }
    ensures put { Put out.old at (shown first (shapes_in is_open words.now)) result out.new }
{
    let Some((shape, rest)) = split_first(words) else {
        if !is_open {
            return at;
        }
        let start = put_space(first, out, at);
        return put(b"..", out, start);
    };
    let start = put_space(first, out, at);
    let next = show_shape(shape, out, start);
    show_row(rest, is_open, false, out, next)
}

// A format as text, as far as there is room; the position after all of it in any case. No words are the empty format.
// No `Display`: it would need a writer of its own, which counts on where a buffer is too short.
pub fn show_format(format: &[u32], out: &mut [u8], at: usize) -> usize
    requires { at + 4096 ≤ largest }
    ensures { Put out.old at (display (read_format format.now)) result out.new }
{
    let Some(row) = Row::of_format(format) else {
        return put(b"never", out, at);
    };
    let start = put(b"[", out, at);
    let next = show_row(row.words, row.is_open, true, out, start);
    put(b"]", out, next)
}

// A format as text at a position, where there is room for all of it; else the buffer stays as it is.
pub fn display_format(format: &[u32], out: &mut [u8], at: usize) -> Option<usize>
    ensures { (shown_answer result, out.new) ≡ display_at out.old at (read_format format.now) }
{
    if out.len() < at {
        return None;
    }
    let next = show_format(format, &mut [], at); // no byte fits: only the position is found
    if out.len() < next {
        return None;
    }
    Some(show_format(format, out, at))
}
