// Lint 4 in the sentences of one function.
ghost use Rattle.std.specs.Prelude.{◌≡◌, ◌+◌, ◌≤◌, ◌<◌};
ghost use Rattle.law.specs.Tree.{keep};
ghost use Rattle.law.specs.Reading.{sentences_at};
ghost use Rattle.lints.specs.Open.{open_in};
ghost use Rattle.findings.specs.Code.Events.{sink_of, collect};
ghost use Rattle.findings.specs.Code.Tasks.{remark_events};
ghost use Rattle.findings.specs.Code.Ways.{file_in};

use crate::Tally;
use crate::dead::put_sentence;
use crate::way::Way;
use lints::open::e_occurrences;

// Notes a sentence, where its pattern has two e. occurrences or more.
fn note_pattern(way: &Way, s: usize, out: &mut [u32], tally: Tally) -> Tally
    requires { s < (file_in way.now).sentences.count }
    ensures { sink_of result out.new ≡ collect way.now.task.room (sink_of tally out.old)
        (remark_events way.now.task (open_in (keep 1 (sentences_at (file_in way.now) s)))) }
{
    let occurrences = e_occurrences(way.formats.law.law.pattern(s));
    if occurrences < 2 {
        return tally;
    }
    let a = occurrences as u32;
    put_sentence(way, s, a, 0, out, tally)
}

// Notes those of so many sentences from `first` on whose patterns have two e. occurrences or more.
// Not one loop with `walk_sentences` over a closure: that one is in a cycle of calls.
pub fn note_open(way: &Way, first: usize, count: usize, out: &mut [u32], tally: Tally) -> Tally
    requires { first + count ≤ (file_in way.now).sentences.count }
    ensures { sink_of result out.new ≡ collect way.now.task.room (sink_of tally out.old)
        (remark_events way.now.task (open_in (keep count (sentences_at (file_in way.now) first)))) }
{
    let mut so_far = tally;
    for i in 0..count {
        so_far = note_pattern(way, first + i, out, so_far);
    }
    so_far
}
