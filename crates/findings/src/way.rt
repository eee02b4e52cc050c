// What goes through a law with its formats for one lint.
ghost use Rattle.std.specs.Prelude.{◌≡◌};

use crate::Task;
use formats::held::Formats;

// A law with its formats, and a task for which it is gone through. Which lint is asked at a call, at a block and in a function is a `match` on the
// task's lint: a closure for each would be three more parameters of every function of the walk.
#[derive(Clone, Copy)]
pub struct Way<'a> {
    pub formats: &'a Formats<'a>,
    pub task: Task,
    pub ghost limit: { formats.now.limit ≡ task.limit },
}
