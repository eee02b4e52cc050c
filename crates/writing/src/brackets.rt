// What stands between `(` and `)`, or between `<` and `>`. An array is filled from the last token to the first: where the closing sign after each place stands, and
// how many records begin from each place on. So no token is looked at twice, however deep a text nests.
ghost use Rattle.std.specs.Prelude.{ℕ, ◌+◌, ◌<◌, ◌≤◌, ◌≡◌, List, length, drop, get_or};
ghost use Rattle.tokens.specs.Token.{Placed};
ghost use Rattle.tokens.specs.Code.TokenKind.{kind_code};
ghost use Rattle.tokens.specs.Code.Arrays.{kinds_in};
ghost use Rattle.encoding.specs.Code.FlatTerms.{inside as where_inside, scan};
ghost use Rattle.writing.specs.Code.Held.{HeldIn, Stand};
ghost use Rattle.writing.specs.Code.Found.{run_state};
ghost use Rattle.writing.specs.Code.Closers.{closers_in, sums_in, closer_of, ClosedFrom, SummedFrom, called_at, held_before, Nested};

use crate::kinds::{closes_term, opens_term};
use crate::source::Source;
use tokens::kinds::Kind;

// What a token has ahead: the place of the closing sign, which is past the last token where there is none, and the number of records from it on.
// The array of these goes beside the source, and in no struct with it: it is read while it is filled (`closer_before`).
#[derive(Clone, Copy, PartialEq, Eq, Debug)]
pub struct Ahead {
    pub closer: u16,
    pub records: u32,
}

impl<'a> Source<'a> {
    // Where the closing sign after a place stands; past the last token where there is none.
    fn closer_at(&self, ahead: &[Ahead], i: usize) -> usize
        requires { length self.now.tokens.now ≤ length ahead.now }
        ensures { (result < 65536) × (result ≡ held_before (length self.now.tokens.now) (closers_in ahead.now) (length self.now.tokens.now) i) }
    {
        if i >= self.tokens.len() {
            return self.tokens.len();
        }
        usize::from(ahead[i].closer)
    }

    // The same from the places after it.
    fn closer_before(&self, ahead: &[Ahead], i: usize) -> usize
        requires { (length self.now.tokens.now ≤ length ahead.now) × (i < length self.now.tokens.now) }
        ensures { (result < 65536)
            × (ClosedFrom (i + 1) (kinds_in self.now.tokens.now) (closers_in ahead.now) → result ≡ closer_of (kinds_in self.now.tokens.now) i) }
    {
        let kind = self.tokens[i].kind;
        if closes_term(kind) {
            return i;
        }
        let inner = self.closer_at(ahead, i + 1);
        if opens_term(kind) {
            return self.closer_at(ahead, inner + 1);
        }
        inner
    }

    // Does a token stand behind `<`?
    fn called_at(&self, i: usize) -> bool
        requires { i ≤ length self.now.tokens.now }
        ensures { result ≡ called_at (kinds_in self.now.tokens.now) i }
    {
        i > 0 && self.is_at(Kind::LeftAngle, i - 1)
    }

    // Fills the array, from the last token to the first.
    pub(crate) fn look_ahead(&self, ahead: &mut [Ahead])
        requires { length self.now.tokens.now ≤ length ahead.old }
        ensures closed { ClosedFrom 0 (kinds_in self.now.tokens.now) (closers_in ahead.new) }
        ensures summed { (ts : List Placed) → HeldIn self.now.tokens.now ts → Stand self.now.text.now ts
            → SummedFrom 0 (kinds_in self.now.tokens.now) (sums_in ahead.new) ts }
    {
        let mut records = 0;
        for passed in 0..self.tokens.len() {
            let i = self.tokens.len() - 1 - passed;
            let called = self.called_at(i);
            records += self.weight(self.tokens[i], called);
            let closer = self.closer_before(ahead, i) as u16;
            ahead[i] = Ahead { closer, records };
        }
    }

    // The number of records from a place on; 0 past the last token.
    fn records_at(&self, ahead: &[Ahead], i: usize) -> u32
        requires { length self.now.tokens.now ≤ length ahead.now }
        ensures { result ≡ held_before (length self.now.tokens.now) (sums_in ahead.now) 0 i }
    {
        if i >= self.tokens.len() {
            return 0;
        }
        ahead[i].records
    }

    // The number of records from a place on, up to the closing sign.
    pub(crate) fn inner_records(&self, ahead: &[Ahead], from: usize) -> u32
        requires { (length self.now.tokens.now ≤ length ahead.now) × (from ≤ length self.now.tokens.now) }
        ensures { (ts : List Placed) → Nested self.now.tokens.now ahead.now ts
            → result ≡ (scan (run_state (called_at (kinds_in self.now.tokens.now) from)) 0 (drop from ts)).records }
    {
        let closer = self.closer_at(ahead, from);
        self.records_at(ahead, from)
            .saturating_sub(self.records_at(ahead, closer))
    }

    // Where the closing sign ends.
    pub(crate) fn inner_end(&self, ahead: &[Ahead], from: usize) -> u32
        requires { (length self.now.tokens.now ≤ length ahead.now) × (from ≤ length self.now.tokens.now) }
        ensures { (ts : List Placed) → Nested self.now.tokens.now ahead.now ts
            → result ≡ (scan where_inside 0 (drop from ts)).end }
    {
        self.end_at(self.closer_at(ahead, from))
    }
}
