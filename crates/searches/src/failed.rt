// Rests of a pattern and of a row that have no match: what a search remembers of them, so that it does not try them again.
ghost use Rattle.std.specs.Prelude.{◌≡◌, true, ◌<◌};
ghost use Rattle.searches.specs.Code.Failed.{rest_of, Within, Noted};

// A rest of a pattern and one of a row: the positions among the term records where they begin and end.
#[derive(Clone, Copy, PartialEq, Eq)]
pub struct Rest {
    pub at: u16,
    pub end: u16,
    pub start: u16,
    pub row_end: u16,
}

impl Rest {
    // What an empty place holds: rests that end where they begin, of which nothing is said. An Option would make each of the 512 places a fourth longer, and so the
    // stack that a search that remembers takes.
    pub const NONE: Rest = Rest {
        at: 0,
        end: 0,
        start: 0,
        row_end: 0,
    };

    pub fn new(at: usize, end: usize, start: usize, row_end: usize) -> Rest
        requires { (at < 65536) × (end < 65536) × (start < 65536) × (row_end < 65536) }
        ensures { result ≡ rest_of at end start row_end }
    {
        Rest {
            at: at as u16,
            end: end as u16,
            start: start as u16,
            row_end: row_end as u16,
        }
    }

    // The number of its place: one for each record that a row can begin with. A later rest takes the place of an earlier one; the rests that are asked about
    // again are mostly the last ones.
    fn place(self) -> usize
        ensures { result < 512 }
    {
        usize::from(self.start) / 24 % 512
    }
}

// The rests that a search remembers.
#[derive(Drop)]
pub struct Rests {
    pub places: [Rest; 512],
}

impl Rests {
    // Is it remembered that these rests have no match?
    pub fn has(&self, rest: Rest) -> bool
        ensures { result ≡ true → Within self.now.places rest }
    {
        self.places[rest.place()] == rest
    }

    // Remembers that these rests have no match.
    pub fn note(&mut self, rest: Rest)
        ensures { Noted self.old.places rest self.new.places }
    {
        self.places[rest.place()] = rest;
    }
}
