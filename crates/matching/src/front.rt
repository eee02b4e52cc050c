// The symbols and the variables with a value that a pattern begins with.
ghost use Rattle.matching.specs.Code.Bound.{values_of, Kept};
ghost use Rattle.matching.specs.Code.Step.{KnownFront};

use crate::step::first_of;
use crate::{Bindings, First, Known, Records};

// The symbols and the variables with a value that a pattern begins with: the row begins with the same. A loop, since there may be hundreds. By
// positions in both, since a step is as long as what is passed over and both positions are answered.
pub fn known_front(records: &Records, pattern: &[u8], row: &[u8], b: &Bindings) -> Known
    requires { Kept records.now.text.now records.now.terms.now b.now }
    ensures { KnownFront records.now.text.now pattern.now row.now (values_of records.now.text.now records.now.terms.now b.now) result }
{
    let mut i = 0;
    let mut j = 0;
    loop {
        let left = &pattern[i..];
        let right = &row[j..];
        if left.len() < 24 {
            break Known::End(i, j);
        }
        match first_of(records, left, right, b) {
            First::Goes(m, n) => {
                i += m;
                j += n;
            }
            First::Fails => break Known::Fails,
            First::Stops(stop) => break Known::Stops(i, j, stop),
        }
    }
}
