// The section of conditions.
ghost use Rattle.std.specs.Prelude.{◌+◌, ◌<◌, ◌≤◌, List, ◌≡◌, false as no, ◌&&◌, eqb, length, drop, get_or};
ghost use Rattle.buffers.specs.Code.Put.{Put, largest};
ghost use Rattle.tokens.specs.Token.{Placed};
ghost use Rattle.tokens.specs.Code.Arrays.{kinds_in};
ghost use Rattle.encoding.specs.Encode.{records_bytes, section_bytes};
ghost use Rattle.encoding.specs.Code.FlatFile.{flat_conditions};
ghost use Rattle.writing.specs.Code.Held.{HeldIn, Stand, at_first};
ghost use Rattle.writing.specs.Code.Found.{conditions_at};

use crate::kinds::within_after;
use crate::records::{put_count, put_record};
use crate::source::Source;
use tokens::kinds::Kind;

impl<'a> Source<'a> {
    // Does a condition begin after the token at a place?
    fn begins_condition(&self, inside: bool, i: usize) -> bool
        ensures { result ≡ inside && eqb (get_or (kinds_in self.now.tokens.now) i 0) 44 }
    {
        inside && self.is_at(Kind::Comma, i)
    }

    // The record of the condition that begins after a token, if one does.
    fn put_condition(&self, inside: bool, i: usize, out: &mut [u8], at: usize) -> usize
        requires { (at + 16 ≤ largest) × (i < length self.now.tokens.now) }
        ensures { (at ≤ result) × (result ≤ at + 16)
            × ((ts : List Placed) → HeldIn self.now.tokens.now ts → Stand self.now.text.now ts
            → Put out.old at (records_bytes (at_first (conditions_at inside) (drop i ts))) result out.new) }
    {
        if !self.begins_condition(inside, i) {
            return at;
        }
        let first = i + 1;
        let result = self.part_records(first);
        let colon = self.place_of(Kind::Colon, first);
        let after = colon + 1;
        let pattern = self.part_records(after);
        let start = self.start_at(first);
        let end = self.part_end(self.end_at(colon), after);
        put_record(&[result, pattern, start, end], out, at)
    }

    // The section of conditions: the records, and their number before them.
    // Not one loop with the sentences (said there): a closure for the record would carry `inside` and the buffer.
    pub(crate) fn condition_section(&self, out: &mut [u8], at: usize) -> usize
        requires { at ≤ 900000000000 }
        ensures { (result ≤ at + 65540)
            × ((ts : List Placed) → HeldIn self.now.tokens.now ts → Stand self.now.text.now ts
            → Put out.old at (section_bytes (flat_conditions no ts)) result out.new) }
    {
        let mut next = at + 4;
        let mut inside = false;
        for i in 0..self.tokens.len() {
            next = self.put_condition(inside, i, out, next);
            inside = within_after(inside, self.tokens[i].kind);
        }
        put_count(16, out, at, next)
    }
}
