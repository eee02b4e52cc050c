// Literal matching: does a pattern match a row without variables, calls and blocks? A bracket whose contents matched is gone back into.
ghost use Rattle.std.specs.Prelude.{◌≡◌, true, false, ◌++◌, ℕ, suc, ◌+◌, ◌≤◌, ◌<◌, length, set};
ghost use Rattle.std.proofs.Math.Option.{none};
ghost use Rattle.file.specs.Forest.{contents, rest};
ghost use Rattle.law.specs.Runs.{end_of};
ghost use Rattle.law.specs.Variables.{distinct};
ghost use Rattle.matching.specs.Literal.{literal_matches};
ghost use Rattle.matching.specs.Code.Part.{row_of, literal_part, symbols_of};
ghost use Rattle.matching.specs.Pattern.{Atom};
ghost use Rattle.matching.specs.Match.{Values};
ghost use Rattle.matching.specs.Code.Bound.{values_up_to, values_of, Keyed, Kept};
ghost use Rattle.matching.specs.Code.Step.{found, each_length, each_inside, Free, Facing, TriesAll, Stopped, first_variable};
ghost use Rattle.searches.specs.Code.Capacity.{variables_in, Capacity};
ghost use Rattle.searches.specs.Code.Asked.{some_holds, nesting, resume, coming_in, levels_of, Around, LiteralAsked};
ghost use Rattle.searches.specs.Code.Repeats.{Agree, Disjoint};
ghost use Rattle.searches.specs.Code.Failed.{Settled, RemembersAround, Remembering, Remembered};

use crate::failed::{Rest, Rests};
use crate::pair::Pair;
use crate::repeats::{Sure, closed, stands_apart};
use file::word_at;
use law::runs::end_of;
use law::whole::Terms;
use matching::front::known_front;
use matching::{Bindings, Known, Records, Stop};

// Nothing more than the text and the records goes as one: a pattern, a row and where they begin would lie as a struct in each frame, of which there may be hundreds in
// the 1 MiB of stack that `include/bilzarko.h` asks for.

// `failed` is what is remembered, where `sure.here`: of rests and then all that is around them, whose variables have the values of the fixed places of `sure`, or none.

// The positions among the term records where a level of the pattern and of the row ends.
#[derive(Clone, Copy)]
pub struct Level {
    pub pattern_end: u16,
    pub row_end: u16,
}

// What is still to be matched around the brackets that were gone into: where each level ends, the outermost first. A level begins where the one inside it ends.
// An array with its count beside it, since memory is fixed.
#[derive(Clone, Copy)]
pub struct Pending {
    pub levels: [Level; 33],
    pub count: usize,
}

impl Pending {
    // Nothing is around.
    fn none() -> Pending
        ensures { (result.count ≡ 0) × (length result.levels ≡ 33) }
    {
        Pending {
            levels: [Level {
                pattern_end: 0,
                row_end: 0,
            }; 33],
            count: 0,
        }
    }

    // One level more.
    fn push(&self, pattern_end: usize, row_end: usize) -> Pending
        requires { (pattern_end < 65536) × (row_end < 65536) × (self.now.count < 33) }
        ensures { (result.count ≡ suc self.now.count) × (result.levels ≡ set self.now.levels self.now.count (record { pattern_end = pattern_end; row_end = row_end })) }
    {
        let mut more = *self;
        more.levels[self.count] = Level {
            pattern_end: pattern_end as u16,
            row_end: row_end as u16,
        };
        more.count += 1;
        more
    }
}

// Has no variable of the levels around a value in the places from `sure` on? The levels begin at `at`; each begins where the one before it ends.
fn closed_around(records: &Records, outer: &Pending, at: usize, b: &Bindings, sure: usize) -> bool
    requires { (sure ≤ b.now.count) × Keyed records.now.terms.now b.now × ((start : ℕ) × Around records.now.text.now records.now.terms.now outer.now at start) }
    ensures { result ≡ true → Kept records.now.text.now records.now.terms.now b.now → (start : ℕ) (vs : Values Atom)
        → Agree (coming_in (levels_of records.now.text.now records.now.terms.now outer.now at start)) (values_up_to records.now.text.now records.now.terms.now b.now.places sure) vs
        → Agree (coming_in (levels_of records.now.text.now records.now.terms.now outer.now at start)) (values_of records.now.text.now records.now.terms.now b.now) vs }
{
    let mut from = at;
    for n in (0..outer.count).rev() {
        let end = usize::from(outer.levels[n].pattern_end);
        if !closed(records, &records.terms[from..end], b, sure) {
            return false;
        }
        from = end;
    }
    true
}

// Is what is remembered of the levels around here, and have their variables and those of the pattern the values of the fixed places, or none? The levels begin at
// `end`.
fn holds_here(
    records: &Records,
    pattern: &[u8],
    outer: &Pending,
    end: usize,
    b: &Bindings,
    sure: Sure,
) -> bool
    requires { (sure.places ≤ b.now.count) × Keyed records.now.terms.now b.now × ((start : ℕ) × Around records.now.text.now records.now.terms.now outer.now end start) }
    ensures { result ≡ true → (sure.here ≡ true) × (Kept records.now.text.now records.now.terms.now b.now → (start : ℕ) (vs : Values Atom)
        → Agree (variables_in (row_of records.now.text.now pattern.now) ++ coming_in (levels_of records.now.text.now records.now.terms.now outer.now end start)) (values_up_to records.now.text.now records.now.terms.now b.now.places sure.places) vs
        → Agree (variables_in (row_of records.now.text.now pattern.now) ++ coming_in (levels_of records.now.text.now records.now.terms.now outer.now end start)) (values_of records.now.text.now records.now.terms.now b.now) vs) }
{
    let places = sure.places;
    sure.here
        && closed_around(records, outer, end, b, places)
        && closed(records, pattern, b, places)
}

// Everything that is left at this level is matched: the next level out, or all. What is remembered is of other levels.
#[cycle(literal)]
fn literal_out(
    records: &Records,
    at: usize,
    start: usize,
    outer: &Pending,
    b: Bindings,
    failed: &mut Rests,
) -> bool
    requires terms_len_bound { (length records.now.terms.now < 65536) × Around records.now.text.now records.now.terms.now outer.now at start × Kept records.now.text.now records.now.terms.now b }
    requires capacity { Capacity (coming_in (levels_of records.now.text.now records.now.terms.now outer.now at start)) (values_of records.now.text.now records.now.terms.now b) }
    ensures { (result ≡ resume (levels_of records.now.text.now records.now.terms.now outer.now at start) (values_of records.now.text.now records.now.terms.now b)) × (failed.new.places ≡ failed.old.places) }
{
    if outer.count == 0 {
        return true;
    }
    let top = outer.count - 1;
    let mut out = *outer;
    out.count = top;
    let level = outer.levels[top];
    let pattern = &records.terms[at..usize::from(level.pattern_end)];
    let row = &records.terms[start..usize::from(level.row_end)];
    let sure = Sure::none();
    literal_run(records, pattern, at, row, start, &out, b, sure, failed)
}

// The same, unless it is remembered that all that is around has no match. A rest from 1 to 0 stands for this. It has the position of the pattern's end in place of a
// row's, so that no rest of the row takes its place. An enum of both would make each place longer, as an Option would (`Rest::NONE`).
#[cycle(literal)]
fn literal_end(
    records: &Records,
    at: usize,
    start: usize,
    outer: &Pending,
    b: Bindings,
    sure: Sure,
    failed: &mut Rests,
) -> bool
    requires terms_len_bound { (length records.now.terms.now < 65536) × Around records.now.text.now records.now.terms.now outer.now at start × Kept records.now.text.now records.now.terms.now b × (at ≤ length records.now.terms.now) }
    requires capacity { Capacity (coming_in (levels_of records.now.text.now records.now.terms.now outer.now at start)) (values_of records.now.text.now records.now.terms.now b) }
    requires settled { Settled records.now.text.now records.now.terms.now (coming_in (levels_of records.now.text.now records.now.terms.now outer.now at start)) b sure × (sure.here ≡ true → RemembersAround records.now.text.now records.now.terms.now (levels_of records.now.text.now records.now.terms.now outer.now at start) b sure failed.old.places) }
    ensures { (result ≡ resume (levels_of records.now.text.now records.now.terms.now outer.now at start) (values_of records.now.text.now records.now.terms.now b))
        × Remembered records.now.text.now records.now.terms.now (levels_of records.now.text.now records.now.terms.now outer.now at start) b sure failed.old.places failed.new.places }
{
    let nothing = &records.terms[at..at];
    if !holds_here(records, nothing, outer, at, &b, sure) {
        return literal_out(records, at, start, outer, b, failed);
    }
    let rests = Rest::new(1, 0, at, at);
    if failed.has(rests) {
        return false;
    }
    let found = literal_out(records, at, start, outer, b, failed);
    if !found {
        failed.note(rests);
    }
    found
}

// An e. variable without a value, then the rest of the pattern: every length in turn. By positions, since each length is a term longer and is asked for by its
// bytes; the last is the whole row.
#[cycle(literal)]
fn literal_lengths(
    records: &Records,
    pattern: &[u8],
    at: usize,
    row: &[u8],
    start: usize,
    outer: &Pending,
    b: Bindings,
    sure: Sure,
    failed: &mut Rests,
) -> bool
    requires literal_asked { LiteralAsked records.now.text.now records.now.terms.now pattern.now at row.now start outer.now b × (24 ≤ length pattern.now) × Remembering records.now.text.now records.now.terms.now pattern.now (levels_of records.now.text.now records.now.terms.now outer.now (at + length pattern.now) (start + length row.now)) b sure failed.old.places }
    requires free { Free (row_of records.now.text.now pattern.now) (first_variable records.now.text.now pattern.now) (values_of records.now.text.now records.now.terms.now b) }
    ensures { (result ≡ some_holds (resume (levels_of records.now.text.now records.now.terms.now outer.now (at + length pattern.now) (start + length row.now)))
        (each_length records.now.text.now true pattern.now row.now (values_of records.now.text.now records.now.terms.now b)))
        × Remembered records.now.text.now records.now.terms.now (levels_of records.now.text.now records.now.terms.now outer.now (at + length pattern.now) (start + length row.now)) b sure failed.old.places failed.new.places }
{
    let end = end_of(pattern);
    let rest = &pattern[end..];
    let next = at + end;
    let mut n = 0;
    loop {
        let left = &row[n..];
        let more = b.bind(at, start, n);
        let j = start + n;
        if literal_run(records, rest, next, left, j, outer, more, sure, failed) {
            break true;
        }
        if left.len() < 24 {
            break false;
        }
        n += end_of(left);
    }
}

// The same, with a search that remembers anew, from the values that there are now.
#[inline(never)]
#[cycle(literal)]
fn literal_anew(
    records: &Records,
    pattern: &[u8],
    at: usize,
    row: &[u8],
    start: usize,
    outer: &Pending,
    b: Bindings,
) -> bool
    requires literal_asked { LiteralAsked records.now.text.now records.now.terms.now pattern.now at row.now start outer.now b × (24 ≤ length pattern.now) }
    requires free { Free (row_of records.now.text.now pattern.now) (first_variable records.now.text.now pattern.now) (values_of records.now.text.now records.now.terms.now b) }
    ensures { result ≡ some_holds (resume (levels_of records.now.text.now records.now.terms.now outer.now (at + length pattern.now) (start + length row.now)))
        (each_length records.now.text.now true pattern.now row.now (values_of records.now.text.now records.now.terms.now b)) }
{
    let mut failed = Rests {
        places: [Rest::NONE; 512],
    };
    let all = Sure::fixed(b.count);
    literal_lengths(records, pattern, at, row, start, outer, b, all, &mut failed)
}

// The same, unless it is remembered that there is no match: where the variables of the pattern and of the levels around have the values of the fixed places, or none,
// this does not depend on the others.
#[cycle(literal)]
fn literal_tries(
    records: &Records,
    pattern: &[u8],
    at: usize,
    row: &[u8],
    start: usize,
    outer: &Pending,
    b: Bindings,
    sure: Sure,
    failed: &mut Rests,
) -> bool
    requires literal_asked { LiteralAsked records.now.text.now records.now.terms.now pattern.now at row.now start outer.now b × (24 ≤ length pattern.now) × Remembering records.now.text.now records.now.terms.now pattern.now (levels_of records.now.text.now records.now.terms.now outer.now (at + length pattern.now) (start + length row.now)) b sure failed.old.places }
    requires free { Free (row_of records.now.text.now pattern.now) (first_variable records.now.text.now pattern.now) (values_of records.now.text.now records.now.terms.now b) }
    requires tries_all { TriesAll records.now.text.now pattern.now row.now (values_of records.now.text.now records.now.terms.now b) }
    ensures { (result ≡ some_holds (resume (levels_of records.now.text.now records.now.terms.now outer.now (at + length pattern.now) (start + length row.now)))
        (each_length records.now.text.now true pattern.now row.now (values_of records.now.text.now records.now.terms.now b)))
        × Remembered records.now.text.now records.now.terms.now (levels_of records.now.text.now records.now.terms.now outer.now (at + length pattern.now) (start + length row.now)) b sure failed.old.places failed.new.places }
{
    let end = at + pattern.len();
    if !holds_here(records, pattern, outer, end, &b, sure) {
        return literal_anew(records, pattern, at, row, start, outer, b);
    }
    let rests = Rest::new(at, end, start, start + row.len());
    if failed.has(rests) {
        return false;
    }
    let all = Sure {
        places: b.count,
        here: true,
        ..sure
    };
    let found = literal_lengths(records, pattern, at, row, start, outer, b, all, failed);
    if !found {
        failed.note(rests);
    }
    found
}

// A bracket against a bracket: the contents, and then what is around them. What is remembered is of other levels.
#[cycle(literal)]
fn literal_inside(
    records: &Records,
    pattern: &[u8],
    at: usize,
    row: &[u8],
    start: usize,
    outer: &Pending,
    b: Bindings,
    failed: &mut Rests,
) -> bool
    requires { LiteralAsked records.now.text.now records.now.terms.now pattern.now at row.now start outer.now b × (24 ≤ length pattern.now) × Facing (row_of records.now.text.now pattern.now) row.now }
    ensures { (result ≡ some_holds (resume (levels_of records.now.text.now records.now.terms.now outer.now (at + length pattern.now) (start + length row.now)))
        (each_inside records.now.text.now true pattern.now row.now (values_of records.now.text.now records.now.terms.now b)))
        × (failed.new.places ≡ failed.old.places) }
{
    let m = end_of(pattern);
    let n = end_of(row);
    let around = outer.push(at + pattern.len(), start + row.len());
    let contents = &pattern[24..m];
    let inside = &row[24..n];
    let i = at + 24;
    let j = start + 24;
    let sure = Sure::none();
    literal_run(records, contents, i, inside, j, &around, b, sure, failed)
}

// A bracket against a bracket, with nothing around and no variable in common with the rest: one match of the contents is as good as another, so that contents and
// rest are asked for by themselves, and nothing is gone back into.
#[cycle(literal)]
fn literal_apart(
    records: &Records,
    pattern: &[u8],
    at: usize,
    row: &[u8],
    start: usize,
    outer: &Pending,
    b: Bindings,
    sure: Sure,
    failed: &mut Rests,
) -> bool
    requires literal_asked { LiteralAsked records.now.text.now records.now.terms.now pattern.now at row.now start outer.now b × (24 ≤ length pattern.now) × Facing (row_of records.now.text.now pattern.now) row.now × Remembering records.now.text.now records.now.terms.now pattern.now (levels_of records.now.text.now records.now.terms.now outer.now (at + length pattern.now) (start + length row.now)) b sure failed.old.places }
    requires count_value { (outer.now.count ≡ 0) × Disjoint (variables_in (row_of records.now.text.now (contents 24 end_of pattern.now))) (variables_in (row_of records.now.text.now (rest 24 end_of pattern.now))) }
    ensures { (result ≡ some_holds (resume (levels_of records.now.text.now records.now.terms.now outer.now (at + length pattern.now) (start + length row.now)))
        (each_inside records.now.text.now true pattern.now row.now (values_of records.now.text.now records.now.terms.now b)))
        × Remembered records.now.text.now records.now.terms.now (levels_of records.now.text.now records.now.terms.now outer.now (at + length pattern.now) (start + length row.now)) b sure failed.old.places failed.new.places }
{
    let m = end_of(pattern);
    let n = end_of(row);
    let contents = &pattern[24..m];
    let inside = &row[24..n];
    let i = at + 24;
    let j = start + 24;
    if !literal_run(records, contents, i, inside, j, outer, b, sure, failed) {
        return false;
    }
    let rest = &pattern[m..];
    let left = &row[n..];
    let next = at + m;
    let j = start + n;
    literal_run(records, rest, next, left, j, outer, b, sure, failed)
}

// A bracket against a bracket.
#[cycle(literal)]
fn literal_bracket(
    records: &Records,
    pattern: &[u8],
    at: usize,
    row: &[u8],
    start: usize,
    outer: &Pending,
    b: Bindings,
    sure: Sure,
    failed: &mut Rests,
) -> bool
    requires { LiteralAsked records.now.text.now records.now.terms.now pattern.now at row.now start outer.now b × (24 ≤ length pattern.now) × Facing (row_of records.now.text.now pattern.now) row.now × Remembering records.now.text.now records.now.terms.now pattern.now (levels_of records.now.text.now records.now.terms.now outer.now (at + length pattern.now) (start + length row.now)) b sure failed.old.places }
    ensures { (result ≡ some_holds (resume (levels_of records.now.text.now records.now.terms.now outer.now (at + length pattern.now) (start + length row.now)))
        (each_inside records.now.text.now true pattern.now row.now (values_of records.now.text.now records.now.terms.now b)))
        × Remembered records.now.text.now records.now.terms.now (levels_of records.now.text.now records.now.terms.now outer.now (at + length pattern.now) (start + length row.now)) b sure failed.old.places failed.new.places }
{
    let m = end_of(pattern);
    let contents = &pattern[24..m];
    if stands_apart(records.text, contents, &pattern[m..], outer.count) {
        return literal_apart(records, pattern, at, row, start, outer, b, sure, failed);
    }
    literal_inside(records, pattern, at, row, start, outer, b, failed)
}

// Is there a match of a pattern with a row, and then of all that is around them? By what the pattern's first record leaves to do.
#[cycle(literal)]
fn literal_first(
    records: &Records,
    pattern: &[u8],
    at: usize,
    row: &[u8],
    start: usize,
    outer: &Pending,
    b: Bindings,
    sure: Sure,
    failed: &mut Rests,
    stop: Stop,
) -> bool
    requires literal_asked { LiteralAsked records.now.text.now records.now.terms.now pattern.now at row.now start outer.now b × Remembering records.now.text.now records.now.terms.now pattern.now (levels_of records.now.text.now records.now.terms.now outer.now (at + length pattern.now) (start + length row.now)) b sure failed.old.places }
    requires stopped { Stopped records.now.text.now pattern.now row.now (values_of records.now.text.now records.now.terms.now b) stop }
    ensures { (result ≡ some_holds (resume (levels_of records.now.text.now records.now.terms.now outer.now (at + length pattern.now) (start + length row.now)))
        (found true (row_of records.now.text.now pattern.now) (row_of records.now.text.now row.now) (values_of records.now.text.now records.now.terms.now b)))
        × Remembered records.now.text.now records.now.terms.now (levels_of records.now.text.now records.now.terms.now outer.now (at + length pattern.now) (start + length row.now)) b sure failed.old.places failed.new.places }
{
    match stop {
        Stop::Binds(n) => {
            let end = end_of(pattern);
            let rest = &pattern[end..];
            let left = &row[n..];
            let next = at + end;
            let more = b.bind(at, start, n);
            let j = start + n;
            literal_run(records, rest, next, left, j, outer, more, sure, failed)
        }
        Stop::Tries => { literal_tries(records, pattern, at, row, start, outer, b, sure, failed) }
        Stop::Inside => {
            literal_bracket(records, pattern, at, row, start, outer, b, sure, failed)
        }
    }
}

// Is there a match of a pattern with a row, and then of all that is around them?
#[cycle(literal)]
fn literal_run(
    records: &Records,
    pattern: &[u8],
    at: usize,
    row: &[u8],
    start: usize,
    outer: &Pending,
    b: Bindings,
    sure: Sure,
    failed: &mut Rests,
) -> bool
    requires { LiteralAsked records.now.text.now records.now.terms.now pattern.now at row.now start outer.now b × Remembering records.now.text.now records.now.terms.now pattern.now (levels_of records.now.text.now records.now.terms.now outer.now (at + length pattern.now) (start + length row.now)) b sure failed.old.places }
    ensures { (result ≡ some_holds (resume (levels_of records.now.text.now records.now.terms.now outer.now (at + length pattern.now) (start + length row.now)))
        (found true (row_of records.now.text.now pattern.now) (row_of records.now.text.now row.now) (values_of records.now.text.now records.now.terms.now b)))
        × Remembered records.now.text.now records.now.terms.now (levels_of records.now.text.now records.now.terms.now outer.now (at + length pattern.now) (start + length row.now)) b sure failed.old.places failed.new.places }
{
    match known_front(records, pattern, row, &b) {
        Known::Fails => false,
        Known::End(_, n) => {
            let next = at + pattern.len();
            let end = start + row.len();
            row[n..].len() < 24 && literal_end(records, next, end, outer, b, sure, failed)
        }
        Known::Stops(m, n, stop) => {
            let rest = &pattern[m..];
            let left = &row[n..];
            let i = at + m;
            let j = start + n;
            literal_first(records, rest, i, left, j, outer, b, sure, failed, stop)
        }
    }
}

// Has a part no variable, call or block at any depth?
pub fn is_literal(part: &[u8]) -> bool
    ensures { result ≡ literal_part part.now }
{
    for term in Terms(part) {
        let kind = word_at(term, 0);
        if 2 < kind && (kind != 6 || !is_literal(&term[24..end_of(term)])) {
            return false;
        }
    }
    true
}

// Does a pattern match a literal part? The search from no values, with nothing around.
#[inline(never)]
pub fn search_literal(pair: &Pair) -> bool
    requires { (distinct (variables_in (row_of pair.now.records.text.now pair.now.pattern.now)) ≤ 32)
        × (nesting (row_of pair.now.records.text.now pair.now.pattern.now) ≤ 33) × (literal_part pair.now.row.now ≡ true) }
    ensures { result ≡ literal_matches (row_of pair.now.records.text.now pair.now.pattern.now) (symbols_of pair.now.records.text.now pair.now.row.now) }
{
    let mut failed = Rests {
        places: [Rest::NONE; 512],
    };
    let outer = Pending::none();
    let sure = Sure::fixed(0);
    literal_run(
        &pair.records,
        pair.pattern,
        pair.at,
        pair.row,
        pair.start,
        &outer,
        Bindings::none(),
        sure,
        &mut failed,
    )
}
