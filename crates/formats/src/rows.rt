// The shapes of a run of term records, written as words into a buffer.
ghost use Rattle.std.specs.Prelude.{◌≡◌, false, ◌+◌, ◌*◌, ◌≤◌, ◌<◌, length, MatchOption};
ghost use Rattle.std.specs.Option.{option_map};
ghost use Rattle.file.specs.Sections.{file_of};
ghost use Rattle.file.specs.Forest.{contents};
ghost use Rattle.law.specs.Runs.{end_of};
ghost use Rattle.shapes.specs.Format.{end, item, group};
ghost use Rattle.shapes.specs.Code.Leaves.{leaf_meant};
ghost use Rattle.formats.specs.FormatOf.{Results};
ghost use Rattle.formats.specs.Code.Rows.{format_at, RowIs, Between, term_leaf, LeavesAre, Stored, stored_at, callee_shapes, part_shapes, first_shapes, RowAsked, KnowsAll};

use crate::placed::Placed;
use buffers::copy_words;
use file::{Term, term_at, word_at};
use law::runs::end_of;
use law::whole::after;
use shapes::leaf::Leaf;
use shapes::row::Row;
use shapes::{RowEnd, bracket_word};

// The bytes of a term record.
const RECORD: usize = 24;

// What a row reads: a law and the places of its names, and a store that has the results of the first `count` of them.
#[derive(Clone, Copy)]
pub struct Known<'a> {
    pub placed: &'a Placed<'a>,
    pub store: &'a [u32],
    pub count: usize,
}

impl<'a> Known<'a> {
    // The words of the result that the store has for the name of a place; none from `count` on.
    fn result(&self, place: usize) -> Option<&'a [u32]>
        requires { Stored self.now.store.now self.now.placed.now.limit self.now.count × (place < 256) }
        ensures { MatchOption result (self.now.count ≤ place)
            (λ words. (place < self.now.count) × (words.now ≡ format_at self.now.placed.now.limit self.now.store.now (2 * place + 1))) }
    {
        if self.count <= place {
            return None;
        }
        let width = self.placed.width();
        let from = (2 * place + 1) * width;
        Some(&self.store[from..from + width])
    }
}

// The shape that a term adds alone: that of a symbol, an s. or a t. variable.
fn leaf_of(term: Term) -> Option<Leaf>
    ensures { option_map leaf_meant result ≡ term_leaf term }
{
    match term {
        Term::Symbol(symbol) => Some(Leaf::from(symbol)),
        Term::SVariable(_, _) => Some(Leaf::Symbol),
        Term::TVariable(_, _) => Some(Leaf::Unknown),
        _ => None,
    }
}

// A shape of one word.
fn write_leaf(leaf: Leaf, out: &mut [u32], to: usize) -> Option<RowEnd>
    requires { to ≤ length out.old }
    ensures between { Between to (length out.old) result }
    ensures row { RowIs (item (leaf_meant leaf) (end false)) out.old out.new to (length out.old) result }
{
    if out.len() <= to {
        return None;
    }
    out[to] = u32::from(leaf);
    Some(RowEnd::Closed(to + 1))
}

// Writes the words of the symbols, s. and t. variables that a part begins with, while there is room, and answers how many. They are
// most of what a row has, and need no call each.
fn write_leaves(part: &[u8], out: &mut [u32], to: usize) -> usize
    requires { to ≤ length out.old }
    ensures inside { (24 * result ≤ length part.now) × (to + result ≤ length out.old) }
    ensures leaves { LeavesAre part.now out.old out.new to (length out.old) result }
{
    let most = (part.len() / RECORD).min(out.len() - to);
    for n in 0..most {
        let Some(leaf) = leaf_of(term_at(&part[RECORD * n..], 0)) else {
            return n;
        };
        out[to + n] = u32::from(leaf);
    }
    most
}

// The shapes that the store has for a call, by the place of its name. From `count` on no function has the name, and the row ends open.
fn write_call(known: &Known, place: usize, out: &mut [u32], to: usize) -> Option<RowEnd>
    requires { Stored known.now.store.now known.now.placed.now.limit known.now.count × (place < 256) × (to ≤ length out.old) }
    ensures between { Between to (length out.old) result }
    ensures row { RowIs (callee_shapes (stored_at known.now.store.now known.now.placed.now.limit known.now.count place)) out.old out.new to (length out.old) result }
{
    let Some(format) = known.result(place) else {
        return Some(RowEnd::Open(to));
    };
    let Some(row) = Row::of_format(format) else {
        return Some(RowEnd::Closed(to)); // never: no shapes, and the row goes on
    };
    if out.len() - to < row.words.len() {
        return None;
    }
    let next = to + row.words.len();
    copy_words(row.words, &mut out[to..next]);
    Some(RowEnd::new(next, row.is_open))
}

// A bracket: the shapes inside it, and its word in front of them once their number is known.
// A part, the number of its first record and the place in the buffer go one by one: a struct of them would be made anew for each part.
#[cycle(write_row)]
fn write_bracket(
    known: &Known,
    part: &[u8],
    at: usize,
    out: &mut [u32],
    to: usize,
) -> Option<RowEnd>
    requires { RowAsked (file_of known.now.placed.now.law.bytes.now) at part.now known.now.store.now known.now.placed.now.limit known.now.count out.old to (length out.old) × (24 ≤ length part.now) }
    ensures between { Between to (length out.old) result }
    ensures row { (t : Results) → KnowsAll known.now t
        → RowIs (group (part_shapes (file_of known.now.placed.now.law.bytes.now) t (at + 1) (contents 24 end_of part.now)) (end false))
        out.old out.new to (length out.old) result }
{
    if out.len() <= to {
        return None;
    }
    let inside = &part[RECORD..end_of(part)];
    let end = write_row(known, inside, at + 1, out, to + 1)?;
    let next = end.next();
    out[to] = bracket_word(next - (to + 1), end.is_open());
    Some(RowEnd::Closed(next))
}

// The shapes of a part's first record.
#[cycle(write_row)]
fn write_first(known: &Known, part: &[u8], at: usize, out: &mut [u32], to: usize) -> Option<RowEnd>
    requires { RowAsked (file_of known.now.placed.now.law.bytes.now) at part.now known.now.store.now known.now.placed.now.limit known.now.count out.old to (length out.old) × (24 ≤ length part.now) }
    ensures between { Between to (length out.old) result }
    ensures row { (t : Results) → KnowsAll known.now t
        → RowIs (first_shapes (file_of known.now.placed.now.law.bytes.now) t at part.now) out.old out.new to (length out.old) result }
{
    match term_at(part, 0) {
        Term::Symbol(symbol) => write_leaf(Leaf::from(symbol), out, to),
        Term::SVariable(_, _) => write_leaf(Leaf::Symbol, out, to),
        Term::TVariable(_, _) => write_leaf(Leaf::Unknown, out, to),
        Term::Bracket => write_bracket(known, part, at, out, to),
        Term::Call(_, _) => write_call(known, usize::from(known.placed.slots.calls[at]), out, to),
        Term::EVariable(_, _) | Term::Block(_) => Some(RowEnd::Open(to)),
    }
}

// The shapes of a run of term records or of the rest of one, its first record number `at`, written from a position on; none where there is no
// room for them. The store has the results of the first `count` names; a call of another name, a block or an e. variable ends the row open.
// There are results that these are (`results_known` of proofs/StateLaws.antt).
#[cycle(write_row)]
pub fn write_row(
    known: &Known,
    part: &[u8],
    at: usize,
    out: &mut [u32],
    to: usize,
) -> Option<RowEnd>
    requires { RowAsked (file_of known.now.placed.now.law.bytes.now) at part.now known.now.store.now known.now.placed.now.limit known.now.count out.old to (length out.old) }
    ensures between { Between to (length out.old) result }
    ensures row { (t : Results) → KnowsAll known.now t
        → RowIs (part_shapes (file_of known.now.placed.now.law.bytes.now) t at part.now) out.old out.new to (length out.old) result }
{
    let n = write_leaves(part, out, to);
    let left = &part[RECORD * n..];
    let here = at + n;
    let from = to + n;
    if left.len() < RECORD {
        return Some(RowEnd::Closed(from));
    }
    let first = write_first(known, left, here, out, from)?;
    match first {
        RowEnd::Open(_) => Some(first),
        RowEnd::Closed(next) => {
            let past = here + 1 + word_at(left, 12) as usize;
            write_row(known, after(left), past, out, next)
        }
    }
}
