// Lints 2 and 3 at one call.
ghost use Rattle.std.specs.Prelude.{◌≡◌, [], ◌∷◌, ◌*◌, ◌<◌};
ghost use Rattle.file.specs.Word.{word_at};
ghost use Rattle.file.specs.Sections.{file_of};
ghost use Rattle.matching.specs.Match.{when, each};
ghost use Rattle.findings.specs.Code.Events.{sink_of, met, collect};
ghost use Rattle.findings.specs.Code.Judging.{call_note, call_found, is_over};
ghost use Rattle.findings.specs.Code.Ways.{file_in, recognition_met, builtin_met, call_met};

use crate::way::Way;
use crate::{Ended, Note, Tally, put_note};
use file::word_at;
use law::AcceptedLaw;
use lints::builtin::builtin_fails;
use lints::levels::Lint;
use lints::recognition::judge_call;
use names::name_in;
use sentences::argument_of;

// A finding about the call at a term record, with a word of its own.
fn call_note(accepted: &AcceptedLaw, t: usize, a: u32) -> Note
    requires { t < (file_of accepted.now.law.bytes.now).terms.count }
    ensures { result ≡ call_note (file_of accepted.now.law.bytes.now) t a }
{
    let record = accepted.law.records(t, 1);
    Note {
        start: word_at(record, 16),
        end: word_at(record, 20),
        a,
        b: 0,
        subject: t as u32,
    }
}

// Counts a finding about it, and writes it where there is room.
fn put_call(way: &Way, t: usize, a: u32, out: &mut [u32], tally: Tally) -> Tally
    requires { t < (file_in way.now).terms.count }
    ensures { sink_of result out.new ≡ met way.now.task.room (call_found (file_in way.now) way.now.task t a) tally out.old }
{
    let note = call_note(&way.formats.law, t, a);
    put_note(&way.task, &note, out, tally)
}

// The same where findings are shown.
fn put_shown(way: &Way, t: usize, a: u32, out: &mut [u32], tally: Tally) -> Tally
    requires { t < (file_in way.now).terms.count }
    ensures { sink_of result out.new ≡ collect way.now.task.room (sink_of tally out.old)
        (when way.now.task.shown (call_found (file_in way.now) way.now.task t a ∷ [])) }
{
    if !way.task.shown {
        return tally;
    }
    put_call(way, t, a, out, tally)
}

// Did the count of findings end at an argument?
fn is_over(tally: Tally) -> bool
    ensures { result ≡ is_over tally }
{
    matches!(tally, Err(Ended::TooWide))
}

// Lint 2 at the call at a term record; nothing is added once the count has ended.
fn note_recognition(way: &Way, t: usize, out: &mut [u32], tally: Tally) -> Tally
    requires { (t < (file_in way.now).terms.count) × (word_at (file_in way.now).terms.records (24 * t) ≡ 7) }
    ensures { sink_of result out.new ≡ collect way.now.task.room (sink_of tally out.old) (recognition_met way.now t) }
{
    if is_over(tally) {
        return tally;
    }
    match judge_call(way.formats, t) {
        Err(_) => Err(Ended::TooWide),
        Ok(None) => tally,
        Ok(Some(reason)) => put_shown(way, t, u32::from(reason), out, tally),
    }
}

// Lint 3 at the call at a term record: notes why it fails, if that is certain.
fn note_builtin(way: &Way, t: usize, out: &mut [u32], tally: Tally) -> Tally
    requires { (t < (file_in way.now).terms.count) × (word_at (file_in way.now).terms.records (24 * t) ≡ 7) }
    ensures { sink_of result out.new ≡ collect way.now.task.room (sink_of tally out.old) (builtin_met way.now t) }
{
    let law = &way.formats.law.law;
    let words = law.text();
    let start = law.term_word(t, 4);
    let len = law.term_word(t, 8);
    let name = name_in(words, start, len);
    match builtin_fails(words, name, argument_of(&way.formats.law, t)) {
        None => tally,
        Some(why) => put_call(way, t, u32::from(why), out, tally),
    }
}

// Notes what the task's lint says of the term record t, where it is a call.
pub fn note_call(way: &Way, t: usize, out: &mut [u32], tally: Tally) -> Tally
    requires { t < (file_in way.now).terms.count }
    ensures { sink_of result out.new ≡ collect way.now.task.room (sink_of tally out.old) (call_met way.now t) }
{
    if way.formats.law.law.term_word(t, 0) != 7 {
        return tally;
    }
    match way.task.lint {
        Lint::Recognition => note_recognition(way, t, out, tally),
        Lint::Builtin => note_builtin(way, t, out, tally),
        _ => tally,
    }
}
