// The way of lints 1 to 3 through a function's sentences.
ghost use Rattle.std.specs.Prelude.{◌≡◌, ◌+◌, ◌≤◌, ◌<◌, length};
ghost use Rattle.law.specs.Code.Index.{PartAt};
ghost use Rattle.findings.specs.Code.Events.{Collects};
ghost use Rattle.findings.specs.Code.Ways.{file_in, none_inside, block_met, conditions_met, function_met, law_met, pattern_met, run_met, term_met, sentences_met};

use crate::calls::note_call;
use crate::dead::note_dead;
use crate::open::note_open;
use crate::way::Way;
use crate::{Tally, Task};
use file::{term_at, word_at};
use law::depth::sentences_in;
use law::runs::end_of;
use lints::levels::Lint;

// Notes the dead ones of a block's own sentences, where the task is lint 1.
// Sentences are said by the first and how many, as the definitions count them (specs/Code/Ways.antt).
// Not one `match` with `walk_pattern`, which is in a cycle of calls: a closure there has no clauses but those that are written at it.
fn note_block(way: &Way, first: usize, count: usize, out: &mut [u32], tally: Tally) -> Tally
    requires { first + count ≤ (file_in way.now).sentences.count }
    ensures { Collects way.now.task.room tally out.old result out.new (block_met way.now first count) }
{
    match way.task.lint {
        Lint::Dead => note_dead(way, first, count, out, tally),
        _ => tally,
    }
}

// Goes through the first term of a part of the term records, whose record is number `at`.
// The part and the number go apart, here and below: a struct of both would be made anew for each part that is cut off.
#[cycle(walk_conditions_walk_pattern_walk_run_walk_sentence_walk_sentences_walk_term)]
fn walk_term(way: &Way, part: &[u8], at: usize, out: &mut [u32], tally: Tally) -> Tally
    requires { PartAt (file_in way.now) at part.now × (24 ≤ length part.now) }
    ensures { Collects way.now.task.room tally out.old result out.new (term_met way.now at part.now) }
{
    let called = note_call(way, at, out, tally);
    let inside = &part[24..end_of(part)];
    let walked = walk_run(way, inside, at + 1, out, called);
    let count = sentences_in(term_at(part, 0));
    if count == 0 {
        return walked;
    }
    let first = way.formats.law.law.block_first(at);
    let own = note_block(way, first, count, out, walked);
    walk_sentences(way, first, count, out, own)
}

// Goes through a part of the term records, the first of which is number `at`. Kinds below 6 are symbols and variables, in
// which nothing is met. Their n is 0 (refusal 5), so that the step is constant and the next record does not wait for n. What
// is left of the part is cut off for the others alone, since a slice made for each record is kept in memory.
#[cycle(walk_conditions_walk_pattern_walk_run_walk_sentence_walk_sentences_walk_term)]
fn walk_run(way: &Way, part: &[u8], at: usize, out: &mut [u32], tally: Tally) -> Tally
    requires { PartAt (file_in way.now) at part.now }
    ensures { Collects way.now.task.room tally out.old result out.new (run_met way.now at part.now) }
{
    let mut so_far = tally;
    let mut i = 0;
    while i < part.len() {
        if word_at(part, i) < 6 {
            i += 24;
        } else {
            let left = &part[i..];
            let t = at + i / 24;
            so_far = walk_term(way, left, t, out, so_far);
            i += end_of(left);
        }
    }
    so_far
}

// Goes through so many sentences from one on.
// Not one loop with `note_open` over a closure: in this cycle of calls it would need the clauses of the walk written at it.
#[cycle(walk_conditions_walk_pattern_walk_run_walk_sentence_walk_sentences_walk_term)]
fn walk_sentences(way: &Way, first: usize, count: usize, out: &mut [u32], tally: Tally) -> Tally
    requires { first + count ≤ (file_in way.now).sentences.count }
    ensures { Collects way.now.task.room tally out.old result out.new (sentences_met way.now first count) }
{
    let mut so_far = tally;
    for i in 0..count {
        so_far = walk_sentence(way, first + i, out, so_far);
    }
    so_far
}

// Goes through one sentence.
#[cycle(walk_conditions_walk_pattern_walk_run_walk_sentence_walk_sentences_walk_term)]
fn walk_sentence(way: &Way, s: usize, out: &mut [u32], tally: Tally) -> Tally
    requires { s < (file_in way.now).sentences.count }
    ensures { Collects way.now.task.room tally out.old result out.new (sentences_met way.now s 1) }
{
    let law = &way.formats.law.law;
    let at = law.pattern_at(s);
    let first = law.pattern(s);
    let left = walk_pattern(way, first, at, out, tally);
    let asked = walk_conditions(way, s, out, left);
    let next = law.result_at(s);
    let last = law.result(s);
    walk_run(way, last, next, out, asked)
}

// Goes through a pattern, where the task is lint 1.
#[cycle(walk_conditions_walk_pattern_walk_run_walk_sentence_walk_sentences_walk_term)]
fn walk_pattern(way: &Way, part: &[u8], at: usize, out: &mut [u32], tally: Tally) -> Tally
    requires { PartAt (file_in way.now) at part.now }
    ensures { Collects way.now.task.room tally out.old result out.new (pattern_met way.now at part.now) }
{
    match way.task.lint {
        Lint::Dead => walk_run(way, part, at, out, tally),
        _ => tally,
    }
}

// Goes through a sentence's conditions.
#[cycle(walk_conditions_walk_pattern_walk_run_walk_sentence_walk_sentences_walk_term)]
fn walk_conditions(way: &Way, s: usize, out: &mut [u32], tally: Tally) -> Tally
    requires { s < (file_in way.now).sentences.count }
    ensures { Collects way.now.task.room tally out.old result out.new (conditions_met way.now s) }
{
    let law = &way.formats.law.law;
    let first = law.first_condition(s);
    let count = law.first_condition(s + 1) - first;
    let mut so_far = tally;
    for i in 0..count {
        let c = first + i;
        let at = law.condition_result_at(s, c);
        let part = law.condition_result(s, c);
        let left = walk_run(way, part, at, out, so_far);
        let next = at + law.condition_result_size(c);
        let whole = law.condition_pattern(s, c);
        so_far = walk_pattern(way, whole, next, out, left);
    }
    so_far
}

// Is it known that the task's lint meets nothing inside the functions' sentences? Lint 1 goes in for blocks, and no block has sentences
// where the functions have all. Lints 2 and 3 go in for calls.
fn none_inside(way: &Way) -> bool
    ensures { result ≡ none_inside way.now }
{
    let law = &way.formats.law.law;
    match way.task.lint {
        Lint::Dead => law.first_sentence(law.functions()) == law.sentences(),
        _ => !way.formats.slots.has_call,
    }
}

// Notes what the task's lint says of a function.
fn lint_function(way: &Way, f: usize, out: &mut [u32], tally: Tally) -> Tally
    requires { f < (file_in way.now).functions.count }
    ensures { Collects way.now.task.room tally out.old result out.new (function_met way.now f) }
{
    let law = &way.formats.law.law;
    let first = law.first_sentence(f);
    let count = law.first_sentence(f + 1) - first;
    if way.task.lint == Lint::Open {
        return note_open(way, first, count, out, tally);
    }
    let own = note_block(way, first, count, out, tally);
    if none_inside(way) {
        return own;
    }
    walk_sentences(way, first, count, out, own)
}

// Notes what the task's lint says of a law, function by function.
pub fn lint_law(way: &Way, out: &mut [u32], tally: Tally) -> Tally
    ensures { Collects way.now.task.room tally out.old result out.new (law_met way.now) }
{
    let mut so_far = tally;
    for f in 0..way.formats.law.law.functions() {
        let task = Task {
            position: f as u32,
            ..way.task
        };
        let here = Way {
            formats: way.formats,
            task,
        };
        so_far = lint_function(&here, f, out, so_far);
    }
    so_far
}
