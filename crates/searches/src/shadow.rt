// Shadowing: does an earlier pattern match whatever a later one matches? A bracket whose contents matched is not gone back into.
ghost use Rattle.std.specs.Prelude.{[], ◌≡◌, false, ◌≤◌, ◌<◌, length};
ghost use Rattle.std.proofs.Math.Option.{none};
ghost use Rattle.law.specs.Variables.{distinct};
ghost use Rattle.matching.specs.Shadow.{shadows};
ghost use Rattle.matching.specs.Code.Part.{row_of};
ghost use Rattle.matching.specs.Code.Bound.{values_of};
ghost use Rattle.matching.specs.Code.Step.{found, each_length, each_inside, Free, Facing, TriesAll, Stopped, first_variable};
ghost use Rattle.searches.specs.Code.Capacity.{variables_in};
ghost use Rattle.searches.specs.Code.Asked.{first_in, Asked, matched_values};
ghost use Rattle.searches.specs.Code.Failed.{first_values, Settled, Failed, Remembers, MatchKept};

use crate::failed::{Rest, Rests};
use crate::pair::Pair;
use crate::repeats::{Sure, closed};
use law::runs::end_of;
use matching::front::known_front;
use matching::{Bindings, Known, Records, Stop};

// Nothing more than the text and the records goes as one, as in src/literal.rt. The two searches stay apart: literal matching goes on around brackets and answers yes or
// no, shadowing takes the first match of a bracket and answers its values, and what they remember is true of different things.

// `failed` is what is remembered, of rests whose variables have the values of the fixed places of `sure`, or none.

// An e. variable without a value, then the rest of the pattern: every length in turn. By positions, since each length is a term longer and is asked for by its
// bytes; the last is the whole row.
#[cycle(shadow)]
fn shadow_lengths(
    records: &Records,
    pattern: &[u8],
    at: usize,
    row: &[u8],
    start: usize,
    b: Bindings,
    sure: Sure,
    failed: &mut Rests,
) -> Option<Bindings>
    requires asked { Asked records.now.text.now records.now.terms.now pattern.now at row.now start [] b × (24 ≤ length pattern.now) × Settled records.now.text.now records.now.terms.now (variables_in (row_of records.now.text.now pattern.now)) b sure × Remembers (Failed records.now.text.now records.now.terms.now (first_values records.now.text.now records.now.terms.now b sure.fixed)) failed.old.places }
    requires free { Free (row_of records.now.text.now pattern.now) (first_variable records.now.text.now pattern.now) (values_of records.now.text.now records.now.terms.now b) }
    ensures { (matched_values records.now.text.now records.now.terms.now result ≡ first_in (each_length records.now.text.now false pattern.now row.now (values_of records.now.text.now records.now.terms.now b)))
        × Remembers (Failed records.now.text.now records.now.terms.now (first_values records.now.text.now records.now.terms.now b sure.fixed)) failed.new.places
        × MatchKept records.now.text.now records.now.terms.now b sure.fixed result }
{
    let end = end_of(pattern);
    let rest = &pattern[end..];
    let next = at + end;
    let mut n = 0;
    loop {
        let left = &row[n..];
        let more = b.bind(at, start, n);
        let found = shadow_run(records, rest, next, left, start + n, more, sure, failed);
        if found.is_some() || left.len() < 24 {
            break found;
        }
        n += end_of(left);
    }
}

// The same, with a search that remembers anew, from the values that there are now.
#[inline(never)]
#[cycle(shadow)]
fn shadow_anew(
    records: &Records,
    pattern: &[u8],
    at: usize,
    row: &[u8],
    start: usize,
    b: Bindings,
) -> Option<Bindings>
    requires asked { Asked records.now.text.now records.now.terms.now pattern.now at row.now start [] b × (24 ≤ length pattern.now) }
    requires free { Free (row_of records.now.text.now pattern.now) (first_variable records.now.text.now pattern.now) (values_of records.now.text.now records.now.terms.now b) }
    ensures { (matched_values records.now.text.now records.now.terms.now result ≡ first_in (each_length records.now.text.now false pattern.now row.now (values_of records.now.text.now records.now.terms.now b)))
        × MatchKept records.now.text.now records.now.terms.now b b.count result }
{
    let mut failed = Rests {
        places: [Rest::NONE; 512],
    };
    let all = Sure::fixed(b.count);
    shadow_lengths(records, pattern, at, row, start, b, all, &mut failed)
}

// The same, unless it is remembered that there is no match: where the variables of the pattern have the values of the fixed places, or none, this does not
// depend on the others.
#[cycle(shadow)]
fn shadow_tries(
    records: &Records,
    pattern: &[u8],
    at: usize,
    row: &[u8],
    start: usize,
    b: Bindings,
    sure: Sure,
    failed: &mut Rests,
) -> Option<Bindings>
    requires asked { Asked records.now.text.now records.now.terms.now pattern.now at row.now start [] b × (24 ≤ length pattern.now) × Settled records.now.text.now records.now.terms.now (variables_in (row_of records.now.text.now pattern.now)) b sure × Remembers (Failed records.now.text.now records.now.terms.now (first_values records.now.text.now records.now.terms.now b sure.fixed)) failed.old.places }
    requires free { Free (row_of records.now.text.now pattern.now) (first_variable records.now.text.now pattern.now) (values_of records.now.text.now records.now.terms.now b) }
    requires tries_all { TriesAll records.now.text.now pattern.now row.now (values_of records.now.text.now records.now.terms.now b) }
    ensures { (matched_values records.now.text.now records.now.terms.now result ≡ first_in (each_length records.now.text.now false pattern.now row.now (values_of records.now.text.now records.now.terms.now b)))
        × Remembers (Failed records.now.text.now records.now.terms.now (first_values records.now.text.now records.now.terms.now b sure.fixed)) failed.new.places
        × MatchKept records.now.text.now records.now.terms.now b sure.fixed result }
{
    if !closed(records, pattern, &b, sure.places) {
        return shadow_anew(records, pattern, at, row, start, b);
    }
    let rests = Rest::new(at, at + pattern.len(), start, start + row.len());
    if failed.has(rests) {
        return None;
    }
    let all = Sure {
        places: b.count,
        here: true,
        ..sure
    };
    let found = shadow_lengths(records, pattern, at, row, start, b, all, failed);
    if found.is_none() {
        failed.note(rests);
    }
    found
}

// A bracket against a bracket: the first match of the contents, then the rest.
#[cycle(shadow)]
fn shadow_inside(
    records: &Records,
    pattern: &[u8],
    at: usize,
    row: &[u8],
    start: usize,
    b: Bindings,
    sure: Sure,
    failed: &mut Rests,
) -> Option<Bindings>
    requires { Asked records.now.text.now records.now.terms.now pattern.now at row.now start [] b × (24 ≤ length pattern.now) × Facing (row_of records.now.text.now pattern.now) row.now × Settled records.now.text.now records.now.terms.now (variables_in (row_of records.now.text.now pattern.now)) b sure × Remembers (Failed records.now.text.now records.now.terms.now (first_values records.now.text.now records.now.terms.now b sure.fixed)) failed.old.places }
    ensures { (matched_values records.now.text.now records.now.terms.now result ≡ first_in (each_inside records.now.text.now false pattern.now row.now (values_of records.now.text.now records.now.terms.now b)))
        × Remembers (Failed records.now.text.now records.now.terms.now (first_values records.now.text.now records.now.terms.now b sure.fixed)) failed.new.places
        × MatchKept records.now.text.now records.now.terms.now b sure.fixed result }
{
    let m = end_of(pattern);
    let n = end_of(row);
    let contents = &pattern[24..m];
    let inside = &row[24..n];
    let i = at + 24;
    let j = start + 24;
    let more = shadow_run(records, contents, i, inside, j, b, sure, failed)?;
    let kept = Sure::fixed(sure.fixed);
    let rest = &pattern[m..];
    let left = &row[n..];
    let next = at + m;
    shadow_run(records, rest, next, left, start + n, more, kept, failed)
}

// The first match of a pattern with a row, by what the pattern's first record leaves to do.
#[cycle(shadow)]
fn shadow_first(
    records: &Records,
    pattern: &[u8],
    at: usize,
    row: &[u8],
    start: usize,
    b: Bindings,
    sure: Sure,
    failed: &mut Rests,
    stop: Stop,
) -> Option<Bindings>
    requires asked { Asked records.now.text.now records.now.terms.now pattern.now at row.now start [] b × Settled records.now.text.now records.now.terms.now (variables_in (row_of records.now.text.now pattern.now)) b sure × Remembers (Failed records.now.text.now records.now.terms.now (first_values records.now.text.now records.now.terms.now b sure.fixed)) failed.old.places }
    requires stopped { Stopped records.now.text.now pattern.now row.now (values_of records.now.text.now records.now.terms.now b) stop }
    ensures { (matched_values records.now.text.now records.now.terms.now result ≡ first_in (found false (row_of records.now.text.now pattern.now) (row_of records.now.text.now row.now) (values_of records.now.text.now records.now.terms.now b)))
        × Remembers (Failed records.now.text.now records.now.terms.now (first_values records.now.text.now records.now.terms.now b sure.fixed)) failed.new.places
        × MatchKept records.now.text.now records.now.terms.now b sure.fixed result }
{
    match stop {
        Stop::Binds(n) => {
            let end = end_of(pattern);
            let rest = &pattern[end..];
            let left = &row[n..];
            let more = b.bind(at, start, n);
            let next = at + end;
            shadow_run(records, rest, next, left, start + n, more, sure, failed)
        }
        Stop::Tries => shadow_tries(records, pattern, at, row, start, b, sure, failed),
        Stop::Inside => shadow_inside(records, pattern, at, row, start, b, sure, failed),
    }
}

// The first match of a pattern with a row.
#[cycle(shadow)]
fn shadow_run(
    records: &Records,
    pattern: &[u8],
    at: usize,
    row: &[u8],
    start: usize,
    b: Bindings,
    sure: Sure,
    failed: &mut Rests,
) -> Option<Bindings>
    requires { Asked records.now.text.now records.now.terms.now pattern.now at row.now start [] b × Settled records.now.text.now records.now.terms.now (variables_in (row_of records.now.text.now pattern.now)) b sure × Remembers (Failed records.now.text.now records.now.terms.now (first_values records.now.text.now records.now.terms.now b sure.fixed)) failed.old.places }
    ensures { (matched_values records.now.text.now records.now.terms.now result ≡ first_in (found false (row_of records.now.text.now pattern.now) (row_of records.now.text.now row.now) (values_of records.now.text.now records.now.terms.now b)))
        × Remembers (Failed records.now.text.now records.now.terms.now (first_values records.now.text.now records.now.terms.now b sure.fixed)) failed.new.places
        × MatchKept records.now.text.now records.now.terms.now b sure.fixed result }
{
    match known_front(records, pattern, row, &b) {
        Known::End(_, n) if row[n..].len() < 24 => Some(b),
        Known::End(_, _) | Known::Fails => None,
        Known::Stops(m, n, stop) => {
            let rest = &pattern[m..];
            let left = &row[n..];
            let i = at + m;
            let j = start + n;
            shadow_first(records, rest, i, left, j, b, sure, failed, stop)
        }
    }
}

// Does an earlier pattern shadow a later one? The search from no values.
#[inline(never)]
pub fn search_shadow(pair: &Pair) -> bool
    requires { distinct (variables_in (row_of pair.now.records.text.now pair.now.pattern.now)) ≤ 32 }
    ensures { result ≡ shadows (row_of pair.now.records.text.now pair.now.pattern.now) (row_of pair.now.records.text.now pair.now.row.now) }
{
    let mut failed = Rests {
        places: [Rest::NONE; 512],
    };
    let sure = Sure::fixed(0);
    shadow_run(
        &pair.records,
        pair.pattern,
        pair.at,
        pair.row,
        pair.start,
        Bindings::none(),
        sure,
        &mut failed,
    )
    .is_some()
}
