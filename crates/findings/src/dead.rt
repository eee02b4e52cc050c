// Lint 1 in the sentences of one function or block.
ghost use Rattle.std.specs.Prelude.{[], ◌≡◌, Bool, ◌+◌, ◌*◌, ◌≤◌, ◌<◌};
ghost use Rattle.file.specs.Word.{word_at};
ghost use Rattle.file.specs.Sections.{file_of};
ghost use Rattle.law.specs.Tree.{keep};
ghost use Rattle.law.specs.Reading.{sentences_at};
ghost use Rattle.lints.specs.Dead.{dead_after};
ghost use Rattle.findings.specs.Code.Events.{noting, sink_of, met, collect};
ghost use Rattle.findings.specs.Code.Tasks.{remark_events};
ghost use Rattle.findings.specs.Code.DeadSteps.{sentence_words, dead_events};
ghost use Rattle.findings.specs.Code.Ways.{file_in};

use crate::way::Way;
use crate::{Note, Tally, put_note};
use file::word_at;
use law::Law;
use lints::dead::earliest_shadow;

// A word of a sentence record.
fn field(law: &Law, s: usize, at: usize) -> u32
    requires { (s < (file_of law.now.bytes.now).sentences.count) × (at + 4 ≤ 20) }
    ensures { result ≡ word_at (file_of law.now.bytes.now).sentences.records (20 * s + at) }
{
    let start = usize::from(law.index[1]);
    word_at(law.bytes, start + (20 * s + at))
}

// Notes a sentence with two numbers.
pub fn put_sentence(way: &Way, s: usize, a: u32, b: u32, out: &mut [u32], tally: Tally) -> Tally
    requires { s < (file_in way.now).sentences.count }
    ensures { sink_of result out.new ≡ met way.now.task.room (noting (sentence_words (file_in way.now) way.now.task s a b)) tally out.old }
{
    let law = &way.formats.law.law;
    let note = Note {
        start: field(law, s, 12),
        end: field(law, s, 16),
        a,
        b,
        subject: s as u32,
    };
    put_note(&way.task, &note, out, tally)
}

// Notes the sentence after `later` sentences from `first` on, where one of these shadows it. None is looked for where no further finding counts.
fn note_sentence(way: &Way, first: usize, later: usize, out: &mut [u32], tally: Tally) -> Tally
    requires { first + later < (file_in way.now).sentences.count }
    ensures { (in_block : Bool) → sink_of result out.new ≡ collect way.now.task.room (sink_of tally out.old)
        (dead_events (file_in way.now) way.now.task in_block first later) }
{
    if tally.is_err() {
        return tally;
    }
    match earliest_shadow(&way.formats.law, first, later) {
        None => tally,
        Some(earliest) => {
            let a = (later + 1) as u32;
            let b = earliest as u32;
            put_sentence(way, first + later, a, b, out, tally)
        }
    }
}

// Notes the dead ones among so many sentences from `first` on.
pub fn note_dead(way: &Way, first: usize, count: usize, out: &mut [u32], tally: Tally) -> Tally
    requires { first + count ≤ (file_in way.now).sentences.count }
    ensures { (in_block : Bool) → sink_of result out.new ≡ collect way.now.task.room (sink_of tally out.old)
        (remark_events way.now.task (dead_after in_block [] [] 1 (keep count (sentences_at (file_in way.now) first)))) }
{
    let mut so_far = tally;
    for later in 0..count {
        so_far = note_sentence(way, first, later, out, so_far);
    }
    so_far
}
