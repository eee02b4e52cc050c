// The grammar of a law typed as text: a machine that reads tokens from left to right, by their kinds.
#![tactic(auto)]

ghost use Rattle.std.specs.Prelude.{◌<◌, ◌≤◌, [], ◌≡◌, length};
ghost use Rattle.tokens.specs.Code.Arrays.{kinds_in};
ghost use Rattle.grammar.specs.Code.Machine.{accepts_kinds, StepDone};

use crate::stack::Stack;
use crate::table::{Mode, Move, may_end, move_of, move_of_code};
use tokens::Lexeme;

mod stack;
mod table;

// Makes a move: the mode it leads to, unless it is refused.
fn perform(made: Move, stack: &mut Stack) -> Option<Mode>
    requires { stack.old.depth < 4096 }
    ensures { StepDone made stack.old result stack.new }
{
    match made {
        Move::Refuse => None,
        Move::Stay(mode) => Some(mode),
        Move::Leave(mode) => stack.is_empty().then_some(mode),
        Move::Open(pair, mode) => {
            stack.push(pair);
            Some(mode)
        }
        Move::Close(pair, mode) => (stack.pop()? == pair).then_some(mode),
    }
}

// Do these tokens spell a text?
pub fn accepts(tokens: &[Lexeme]) -> bool
    requires { length tokens.now ≤ 4096 }
    ensures { result ≡ accepts_kinds Mode.AtText [] (kinds_in tokens.now) }
{
    let mut stack = Stack::new();
    let mut mode = Mode::AtText;
    for token in tokens {
        match perform(move_of(token.kind, mode), &mut stack) {
            Some(next) => mode = next,
            None => return false,
        }
    }
    stack.is_empty() && may_end(mode)
}

// Do tokens with kinds of these numbers spell a text? Any bytes may stand here, also those that are no kind, so it stays beside `accepts`.
pub fn accepts_codes(kinds: &[u8]) -> bool
    requires { length kinds.now ≤ 4096 }
    ensures { result ≡ accepts_kinds Mode.AtText [] kinds.now }
{
    let mut pairs = Stack::new();
    let mut mode = Mode::AtText;
    for &code in kinds {
        match perform(move_of_code(code, mode), &mut pairs) {
            Some(next) => mode = next,
            None => return false,
        }
    }
    pairs.is_empty() && may_end(mode)
}
