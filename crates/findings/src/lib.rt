// The four lints' ways through a law, and the findings that they note in a lent buffer.
#![tactic(auto)]

ghost use Rattle.std.specs.Prelude.{◌≡◌, ◌+◌, ◌*◌, ◌≤◌, length};
ghost use Rattle.buffers.specs.Written.{written};
ghost use Rattle.findings.specs.Code.Events.{noting, sink_of, met};
ghost use Rattle.findings.specs.Code.Tasks.{note_words};

use lints::levels::Lint;

pub mod all;
mod calls;
mod dead;
mod open;
mod walk;
mod way;

// Why the count of findings ended: an argument has too many shapes to be compared, or there are more findings than there is room for.
#[derive(Clone, Copy, PartialEq, Eq, Debug)]
pub enum Ended {
    TooWide,
    Full,
}

// How far the count of findings has come. It is passed on also once it is `Full`, since an argument that is too wide comes before that (refusal 10
// before 11). It goes by value beside the lent buffer: a struct of both would be lent again at each step, and reads no plainer.
pub type Tally = Result<usize, Ended>;

// What a way through a law is for: the lint, the severity of its findings, whether they are shown, the position of the function that is gone through, the
// words that there is room for, and the most shapes of a format.
#[derive(Clone, Copy)]
pub struct Task {
    pub lint: Lint,
    pub severity: u32,
    pub shown: bool,
    pub position: u32,
    pub room: usize,
    pub limit: usize,
}

// What a finding says, besides what its task says.
#[derive(Clone, Copy)]
pub struct Note {
    pub start: u32,
    pub end: u32,
    pub a: u32,
    pub b: u32,
    pub subject: u32,
}

// Writes the eight words of a finding.
fn write_note(task: &Task, note: &Note, out: &mut [u32], at: usize)
    requires { at + 8 ≤ length out.old }
    ensures { out.new ≡ written out.old at (note_words task.now note.now) }
{
    out[at..at + 8].copy_from_slice(&[
        u32::from(task.lint),
        task.severity,
        note.start,
        note.end,
        note.a,
        note.b,
        task.position,
        note.subject,
    ]);
}

// Counts a finding, and writes it where the buffer has room for it.
fn put_note(task: &Task, note: &Note, out: &mut [u32], tally: Tally) -> Tally
    ensures { sink_of result out.new ≡ met task.now.room (noting (note_words task.now note.now)) tally out.old }
{
    let Ok(n) = tally else {
        return tally;
    };
    if task.room / 8 <= n {
        return Err(Ended::Full);
    }
    if n < out.len() / 8 {
        write_note(task, note, out, 8 * n);
    }
    Ok(n + 1)
}
