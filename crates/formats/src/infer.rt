// Inference of a law's formats by rounds, in place in a lent store.
ghost use Rattle.std.specs.Prelude.{not, false, List, ◌≡◌, ℕ, ◌+◌, ◌*◌, ◌-◌, ◌≤◌, ◌<◌, length};
ghost use Rattle.file.specs.Sections.{file_of};
ghost use Rattle.law.specs.Places.{sentences_of, first_sentence};
ghost use Rattle.law.specs.Reading.{sentences_at, tree_of};
ghost use Rattle.law.specs.Tree.{keep};
ghost use Rattle.shapes.specs.Format.{never};
ghost use Rattle.shapes.specs.Join.{join_formats};
ghost use Rattle.shapes.specs.Same.{same_format};
ghost use Rattle.shapes.specs.Words.{format_words, read_format};
ghost use Rattle.shapes.specs.Code.Words.{FormatIn};
ghost use Rattle.formats.specs.FormatOf.{Results};
ghost use Rattle.formats.specs.Infer.{Entry, find, arguments, round, rounds_from};
ghost use Rattle.formats.specs.Code.Entries.{StoreHolds};
ghost use Rattle.formats.specs.Code.Slots.{file_names, function_folded, position};
ghost use Rattle.formats.specs.Code.Rows.{KnowsAll, part_shapes, RowAsked};
ghost use Rattle.formats.specs.Code.Turns.{Holding, results_in, FormatMade, sentence_shapes, rows_joined, JoinedIs, format_number, TurnIs, arguments_stop, round_stop, rounds_stop, ArgumentsIs, RoundIs, RoundsIs};

use crate::placed::Placed;
use crate::rows::{Known, write_row};
use crate::{FORMAT, Inferred, TooWide};
use buffers::copy_words;
use shapes::{NEVER, header_word, is_never, join_formats, row_end};

// Which run of a sentence is looked at.
#[derive(Clone, Copy, Debug, PartialEq, Eq)]
pub enum Side {
    Pattern,
    Result,
}

impl Side {
    // The number of a name's argument or result format in the store, by the name's place.
    fn format_number(self, place: usize) -> usize
        requires { place < 256 }
        ensures { result ≡ format_number self place }
    {
        match self {
            Side::Pattern => 2 * place,
            Side::Result => 2 * place + 1,
        }
    }
}

// The format of a run of term records, every word of it, or zeros where it has too many shapes. As in `write_row`, there are results that the
// store holds.
pub fn row_format(known: &Known, part: &[u8], at: usize, out: &mut [u32]) -> Result<(), TooWide>
    requires { RowAsked (file_of known.now.placed.now.law.bytes.now) at part.now known.now.store.now known.now.placed.now.limit known.now.count out.old 1 (length out.old)
        × (length out.old ≡ known.now.placed.now.limit + 1) }
    ensures { (t : Results) → KnowsAll known.now t
        → FormatMade known.now.placed.now.limit (part_shapes (file_of known.now.placed.now.law.bytes.now) t at part.now) result out.new }
{
    out.fill(0);
    let Some(end) = write_row(known, part, at, out, 1) else {
        out.fill(0);
        return Err(TooWide);
    };
    out[0] = header_word(end.next() - 1, end.is_open());
    Ok(())
}

// Joins a format into another.
// Not by `renew_joined`, which goes through every word once more to say whether one changed: no one asks here, for each two sentences.
fn join_into(limit: usize, format: &mut [u32], other: &[u32])
    requires { (limit ≤ 64) × FormatIn limit format.old × FormatIn limit other.now }
    ensures { format.new ≡ format_words limit (join_formats (read_format format.old) (read_format other.now)) }
{
    let mut joined = [0; FORMAT];
    let joined = &mut joined[..limit + 1];
    join_formats(limit, format, other, joined);
    copy_words(joined, format);
}

// The same, and answers whether that one changed.
fn renew_joined(limit: usize, format: &mut [u32], other: &[u32]) -> bool
    requires { (limit ≤ 64) × FormatIn limit format.old × FormatIn limit other.now }
    ensures words { format.new ≡ format_words limit (join_formats (read_format format.old) (read_format other.now)) }
    ensures changed { result ≡ not (same_format (join_formats (read_format format.old) (read_format other.now)) (read_format format.old)) }
{
    let mut joined = [0; FORMAT];
    let joined = &mut joined[..limit + 1];
    join_formats(limit, format, other, joined);
    let changed = &*joined != &*format;
    copy_words(joined, format);
    changed
}

// The format of a sentence's pattern or result.
fn sentence_format(
    placed: &Placed,
    store: &[u32],
    s: usize,
    side: Side,
    out: &mut [u32],
) -> Result<(), TooWide>
    requires { Holding placed.now.limit (file_names (file_of placed.now.law.bytes.now)) store.now × (s < (file_of placed.now.law.bytes.now).sentences.count) × (length out.old ≡ placed.now.limit + 1) }
    ensures { FormatMade placed.now.limit (sentence_shapes (file_of placed.now.law.bytes.now) side (find (results_in placed.now.limit (file_names (file_of placed.now.law.bytes.now)) store.now)) s) result out.new }
{
    let law = &placed.law;
    match side {
        Side::Pattern => {
            let known = Known {
                placed,
                store,
                count: 0,
            };
            row_format(&known, law.pattern(s), law.pattern_at(s), out)
        }
        Side::Result => {
            let known = Known {
                placed,
                store,
                count: placed.names(),
            };
            row_format(&known, law.result(s), law.result_at(s), out)
        }
    }
}

// Joins the formats of so many sentences' patterns or results, from a sentence on, into a format.
fn join_sentences(
    placed: &Placed,
    store: &[u32],
    first: usize,
    number: usize,
    side: Side,
    joined: &mut [u32],
) -> Result<(), TooWide>
    requires { Holding placed.now.limit (file_names (file_of placed.now.law.bytes.now)) store.now × (first + number ≤ (file_of placed.now.law.bytes.now).sentences.count) × FormatIn placed.now.limit joined.old }
    ensures { JoinedIs placed.now.limit (rows_joined placed.now.limit side (find (results_in placed.now.limit (file_names (file_of placed.now.law.bytes.now)) store.now)) (read_format joined.old)
        (keep number (sentences_at (file_of placed.now.law.bytes.now) first))) result joined.new }
{
    let mut row = [0; FORMAT];
    let row = &mut row[..placed.width()];
    for i in 0..number {
        sentence_format(placed, store, first + i, side, row)?;
        join_into(placed.limit, joined, row);
    }
    Ok(())
}

// The join of the formats of so many sentences' patterns or results, from a sentence on. The first one's row is written where the
// join is made, since a join with never would only copy it.
fn sentences_format(
    placed: &Placed,
    store: &[u32],
    from: usize,
    number: usize,
    side: Side,
    out: &mut [u32],
) -> Result<(), TooWide>
    requires { Holding placed.now.limit (file_names (file_of placed.now.law.bytes.now)) store.now × (from + number ≤ (file_of placed.now.law.bytes.now).sentences.count) × (length out.old ≡ placed.now.limit + 1) }
    ensures { JoinedIs placed.now.limit (rows_joined placed.now.limit side (find (results_in placed.now.limit (file_names (file_of placed.now.law.bytes.now)) store.now)) never
        (keep number (sentences_at (file_of placed.now.law.bytes.now) from))) result out.new }
{
    if number == 0 {
        out.fill(0);
        out[0] = NEVER;
        return Ok(());
    }
    sentence_format(placed, store, from, side, out)?;
    if number == 1 {
        return Ok(());
    }
    join_sentences(placed, store, from + 1, number - 1, side, out)
}

// The same as `renew_joined`, where a look comes first: at the start the format is never, and in a last round it is already there.
fn renew_format(limit: usize, format: &mut [u32], other: &[u32]) -> bool
    requires { (limit ≤ 64) × FormatIn limit format.old × FormatIn limit other.now }
    ensures words { format.new ≡ format_words limit (join_formats (read_format format.old) (read_format other.now)) }
    ensures changed { result ≡ not (same_format (join_formats (read_format format.old) (read_format other.now)) (read_format format.old)) }
{
    if is_never(format[0]) {
        copy_words(other, format);
        return !is_never(other[0]);
    }
    let n = row_end(other);
    if &format[..n] == &other[..n] {
        return false;
    }
    renew_joined(limit, format, other)
}

// Joins the patterns or the results of a function into its name's format in the store, and answers whether that changed.
// The store goes beside `Placed`, here and below, since it is written: what is copied can hold none that is.
fn function_turn(
    placed: &Placed,
    store: &mut [u32],
    f: usize,
    side: Side,
    joined: &mut [u32],
) -> Result<bool, TooWide>
    requires { Holding placed.now.limit (file_names (file_of placed.now.law.bytes.now)) store.old × (f < (file_of placed.now.law.bytes.now).functions.count) × (length joined.old ≡ placed.now.limit + 1) }
    ensures { TurnIs placed.now.limit (rows_joined placed.now.limit side (find (results_in placed.now.limit (file_names (file_of placed.now.law.bytes.now)) store.old)) never
        (keep (sentences_of (file_of placed.now.law.bytes.now) f) (sentences_at (file_of placed.now.law.bytes.now) (first_sentence (file_of placed.now.law.bytes.now) f))))
        (format_number side (position (file_names (file_of placed.now.law.bytes.now)) (function_folded (file_of placed.now.law.bytes.now) f))) store.old store.new result }
{
    let first = placed.law.first_sentence(f);
    let number = placed.law.first_sentence(f + 1) - first;
    sentences_format(placed, store, first, number, side, joined)?;
    let width = placed.width();
    let start = side.format_number(usize::from(placed.slots.functions[f])) * width;
    Ok(renew_format(placed.limit, &mut store[start..start + width], joined))
}

// The argument formats: each function's patterns, in file order. Where a pattern's format passes the limit on shapes, the store holds what the
// functions before it left. What a store holds before, `Holding` has.
pub fn infer_arguments(
    placed: &Placed,
    store: &mut [u32],
    joined: &mut [u32],
) -> Result<(), TooWide>
    requires { Holding placed.now.limit (file_names (file_of placed.now.law.bytes.now)) store.old × (length joined.old ≡ placed.now.limit + 1) }
    ensures { (found results : List Entry) (tail : List ℕ) → StoreHolds placed.now.limit (file_names (file_of placed.now.law.bytes.now)) found results tail store.old
        → ArgumentsIs placed.now.limit (file_names (file_of placed.now.law.bytes.now)) (arguments placed.now.limit (tree_of (file_of placed.now.law.bytes.now)) found)
        (arguments_stop placed.now.limit (tree_of (file_of placed.now.law.bytes.now)) found) results tail store.new result }
{
    for f in 0..placed.law.functions() {
        function_turn(placed, store, f, Side::Pattern, joined)?;
    }
    Ok(())
}

// One round: each function's results, in file order, using what was renewed before in the round. Answers whether a format changed.
// Not one with `infer_arguments` over the side: that one promises `arguments_stop`, this one `round_stop` and whether a format changed.
fn infer_round(placed: &Placed, store: &mut [u32], joined: &mut [u32]) -> Result<bool, TooWide>
    requires { Holding placed.now.limit (file_names (file_of placed.now.law.bytes.now)) store.old × (length joined.old ≡ placed.now.limit + 1) }
    ensures { (found results : List Entry) (tail : List ℕ) → StoreHolds placed.now.limit (file_names (file_of placed.now.law.bytes.now)) found results tail store.old
        → RoundIs placed.now.limit (file_names (file_of placed.now.law.bytes.now)) (round placed.now.limit (tree_of (file_of placed.now.law.bytes.now)) results false)
        (round_stop placed.now.limit (tree_of (file_of placed.now.law.bytes.now)) results) found tail store.new result }
{
    let mut changed = false;
    for f in 0..placed.law.functions() {
        let turn = function_turn(placed, store, f, Side::Result, joined)?;
        changed |= turn;
    }
    Ok(changed)
}

// Rounds, at most so many; one that changes nothing is the last, and one in which a row passes the limit on shapes.
pub fn infer_rounds(
    placed: &Placed,
    store: &mut [u32],
    most: usize,
    joined: &mut [u32],
) -> Result<Inferred, TooWide>
    requires { Holding placed.now.limit (file_names (file_of placed.now.law.bytes.now)) store.old × (length joined.old ≡ placed.now.limit + 1) }
    ensures { (found results : List Entry) (tail : List ℕ) → StoreHolds placed.now.limit (file_names (file_of placed.now.law.bytes.now)) found results tail store.old
        → RoundsIs placed.now.limit (file_names (file_of placed.now.law.bytes.now)) (rounds_from placed.now.limit most (tree_of (file_of placed.now.law.bytes.now)) results 0)
        (rounds_stop placed.now.limit most (tree_of (file_of placed.now.law.bytes.now)) results) found tail store.new result }
{
    for done in 0..most {
        if !infer_round(placed, store, joined)? {
            return Ok(Inferred {
                rounds: done + 1,
                settled: true,
            });
        }
    }
    Ok(Inferred {
        rounds: most,
        settled: false,
    })
}
