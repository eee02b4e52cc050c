// Values of variables: none, and one more.
ghost use Rattle.std.specs.Prelude.{◌≡◌, List, ℕ, ◌<◌};
ghost use Rattle.matching.specs.Match.{none_bound};
ghost use Rattle.matching.specs.Code.Bound.{values_of, Kept, Bound};

use crate::{Binding, Bindings};

impl Bindings {
    // No variable has a value.
    pub fn none() -> Bindings
        ensures { (text terms : List ℕ) → Kept text terms result × (values_of text terms result ≡ none_bound) }
    {
        Bindings {
            places: [Binding {
                key: 0,
                start: 0,
                size: 0,
            }; 32],
            count: 0,
        }
    }

    // One variable more has a value.
    pub fn bind(&self, key: usize, start: usize, size: usize) -> Bindings
        requires { (key < 65536) × (start < 65536) × (size < 65536) × (self.now.count < 32) }
        ensures { Bound self.now key start size result }
    {
        let mut next = *self;
        next.places[self.count] = Binding {
            key: key as u16,
            start: start as u16,
            size: size as u16,
        };
        next.count += 1;
        next
    }
}
