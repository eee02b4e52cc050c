// The section of functions.
ghost use Rattle.std.specs.Prelude.{◌+◌, ◌<◌, ◌≤◌, List, length, drop};
ghost use Rattle.buffers.specs.Code.Put.{Put, largest};
ghost use Rattle.tokens.specs.Token.{Placed};
ghost use Rattle.encoding.specs.Encode.{records_bytes, section_bytes};
ghost use Rattle.encoding.specs.Code.FlatFile.{functions_at, flat_functions};
ghost use Rattle.writing.specs.Code.Held.{HeldIn, at_first};

use crate::records::{put_count, put_record};
use crate::source::Source;
use tokens::kinds::Kind;

impl<'a> Source<'a> {
    // The record of the function whose name is a token, if one is.
    fn put_function(&self, i: usize, out: &mut [u8], at: usize) -> usize
        requires { (at + 20 ≤ largest) × (i < length self.now.tokens.now) }
        ensures { (at ≤ result) × (result ≤ at + 20)
            × ((ts : List Placed) → HeldIn self.now.tokens.now ts
            → Put out.old at (records_bytes (at_first functions_at (drop i ts))) result out.new) }
    {
        let after = i + 1;
        if !self.is_at(Kind::Identifier, i) || !self.is_at(Kind::LeftBrace, after) {
            return at;
        }
        let start = self.start_at(i);
        let size = self.end_at(i).saturating_sub(start);
        let count = self.count(Kind::Equals, Kind::RightBrace, after);
        let end = self.end_at(self.place_of(Kind::RightBrace, after));
        put_record(&[start, size, count, start, end], out, at)
    }

    // The section of functions: the records, and their number before them.
    pub(crate) fn function_section(&self, out: &mut [u8], at: usize) -> usize
        requires { at ≤ 900000000000 }
        ensures { (result ≤ at + 81924)
            × ((ts : List Placed) → HeldIn self.now.tokens.now ts
            → Put out.old at (section_bytes (flat_functions ts)) result out.new) }
    {
        let mut next = at + 4;
        for i in 0..self.tokens.len() {
            next = self.put_function(i, out, next);
        }
        put_count(20, out, at, next)
    }
}
