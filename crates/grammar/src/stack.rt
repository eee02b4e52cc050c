// The brackets and calls that are open, in an array of fixed size.
ghost use Rattle.std.specs.Prelude.{◌+◌, ◌<◌, ◌≤◌, [], ◌∷◌, ◌≡◌, MatchOption, length, nat_eq};

// What is open.
#[derive(Clone, Copy, PartialEq, Eq, Debug)]
pub enum Pair {
    Bracket,
    Call,
}

// What is open, the last on top: as many first places as the depth says.
// An array with its depth beside it, since memory is fixed.
#[derive(Drop)]
pub struct Stack {
    pub places: [Pair; 4096],
    pub depth: usize,
    ghost long: { length places ≡ 4096 },
    ghost within: { depth ≤ 4096 },
}

impl Stack {
    ghost use Rattle.grammar.specs.Accept.{open_of};
    ghost use Rattle.grammar.specs.Code.Machine.{open_in};

    // A stack where nothing is open.
    pub fn new() -> Stack
        ensures { result.depth ≡ 0 }
    {
        Stack {
            places: [Pair::Bracket; 4096],
            depth: 0,
        }
    }

    // Is nothing open?
    pub fn is_empty(&self) -> bool
        ensures { result ≡ nat_eq self.now.depth 0 }
    {
        self.depth == 0
    }

    // What opens goes on top.
    pub fn push(&mut self, pair: Pair)
        requires { self.old.depth < 4096 }
        ensures depth { self.new.depth ≡ self.old.depth + 1 }
        ensures top { open_in self.new ≡ open_of pair ∷ open_in self.old }
    {
        self.places[self.depth] = pair;
        self.depth += 1;
    }

    // Takes what is open last off, if anything is.
    pub fn pop(&mut self) -> Option<Pair>
        ensures depth { self.new.depth ≤ self.old.depth }
        ensures top { MatchOption result (open_in self.old ≡ []) (λ pair. open_in self.old ≡ open_of pair ∷ open_in self.new) }
    {
        if self.depth == 0 {
            return None;
        }
        self.depth -= 1;
        Some(self.places[self.depth])
    }
}
