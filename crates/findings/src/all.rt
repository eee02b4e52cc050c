// All lints under given settings.
ghost use Rattle.std.specs.Prelude.{◌≡◌};
ghost use Rattle.lints.specs.Code.Overrides.{lint_meant, settings_meant};
ghost use Rattle.findings.specs.Code.Events.{Upto, sink_of, collect};
ghost use Rattle.findings.specs.Code.All.{task_for, is_due, task_met, all_met};

use crate::walk::lint_law;
use crate::way::Way;
use crate::{Tally, Task};
use formats::held::Formats;
use lints::levels::{Lint, Settings};

// What a lint is to do.
fn task_of(settings: &Settings, lint: Lint, room: usize, limit: usize) -> Task
    ensures { result ≡ task_for (settings_meant settings.now) room limit (lint_meant lint) }
{
    Task {
        lint,
        severity: settings.severity_of(lint),
        shown: settings.is_shown(lint),
        position: 0,
        room,
        limit,
    }
}

// Whether a task has anything to meet: a lint whose findings are hidden is passed over, but for lint 2, which may meet an argument with too many shapes.
fn is_due(task: &Task) -> bool
    ensures { result ≡ is_due task.now }
{
    task.shown || task.lint == Lint::Recognition
}

// Does a lint's task.
fn lint_task(way: &Way, out: &mut [u32], tally: Tally) -> Tally
    ensures { sink_of result out.new ≡ collect way.now.task.room (sink_of tally out.old) (task_met way.now) }
{
    if !is_due(&way.task) {
        return tally;
    }
    lint_law(way, out, tally)
}

// Notes the findings of a law that the settings show, lint by lint.
pub fn lint_all(formats: &Formats, settings: &Settings, room: usize, out: &mut [u32]) -> Tally
    ensures { sink_of result out.new ≡ collect room (sink_of (Upto 0) out.old) (all_met formats.now (settings_meant settings.now) room) }
{
    let mut tally = Ok(0);
    for lint in Lint::ALL {
        let task = task_of(settings, lint, room, formats.limit);
        let way = Way {
            formats: &*formats,
            task,
        };
        tally = lint_task(&way, out, tally);
    }
    tally
}
