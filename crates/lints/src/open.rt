// Lint 4: the e. occurrences of a pattern.
ghost use Rattle.std.specs.Prelude.{◌≡◌, List, ℕ, ◌*◌, ◌≤◌, length};
ghost use Rattle.lints.specs.Open.{e_occurrences};
ghost use Rattle.lints.specs.Code.Part.{argument_of};

use file::word_at;
use law::runs::end_of;
use law::whole::Terms;

// The kinds of term records that count: an e. variable, and a bracket by what is inside it.
const E_VARIABLE: u32 = 5;

const BRACKET: u32 = 6;

// The number of e. occurrences of a run of term records, at most the number of its records.
pub fn e_occurrences(part: &[u8]) -> usize
    ensures { ((text : List ℕ) → result ≡ e_occurrences (argument_of text part.now)) × (24 * result ≤ length part.now) }
{
    let mut found = 0;
    for left in Terms(part) {
        let kind = word_at(left, 0);
        if kind == E_VARIABLE {
            found += 1;
        } else if kind == BRACKET {
            found += e_occurrences(&left[24..end_of(left)]);
        }
    }
    found
}
