// The section of sentences.
ghost use Rattle.std.specs.Prelude.{◌+◌, ◌<◌, ◌≤◌, List, ◌≡◌, false as no, length, drop, get_or};
ghost use Rattle.buffers.specs.Code.Put.{Put, largest};
ghost use Rattle.tokens.specs.Token.{Placed};
ghost use Rattle.tokens.specs.Code.Arrays.{kinds_in};
ghost use Rattle.encoding.specs.Encode.{records_bytes, section_bytes};
ghost use Rattle.encoding.specs.Code.FlatFile.{flat_sentences};
ghost use Rattle.writing.specs.Code.Held.{HeldIn, Stand, at_first};
ghost use Rattle.writing.specs.Code.Found.{sentence_begins, sentences_at};

use crate::kinds::within_after;
use crate::records::{put_count, put_record};
use crate::source::Source;
use tokens::kinds::Kind;

impl<'a> Source<'a> {
    // Does a sentence begin after the token at a place?
    fn begins_sentence(&self, inside: bool, i: usize) -> bool
        requires { i < length self.now.tokens.now }
        ensures { result ≡ sentence_begins inside (get_or (kinds_in self.now.tokens.now) i 0) (get_or (kinds_in self.now.tokens.now) (i + 1) 0) }
    {
        let begun = self.is_at(Kind::LeftBrace, i) || inside && self.is_at(Kind::Semicolon, i);
        begun && !self.is_at(Kind::RightBrace, i + 1)
    }

    // The record of the sentence that begins after a token, if one does.
    fn put_sentence(&self, inside: bool, i: usize, out: &mut [u8], at: usize) -> usize
        requires { (at + 20 ≤ largest) × (i < length self.now.tokens.now) }
        ensures { (at ≤ result) × (result ≤ at + 20)
            × ((ts : List Placed) → HeldIn self.now.tokens.now ts → Stand self.now.text.now ts
            → Put out.old at (records_bytes (at_first (sentences_at inside) (drop i ts))) result out.new) }
    {
        if !self.begins_sentence(inside, i) {
            return at;
        }
        let first = i + 1;
        let pattern = self.part_records(first);
        let conditions = self.count(Kind::Colon, Kind::Equals, first);
        let equals = self.place_of(Kind::Equals, first);
        let after = equals + 1;
        let result = self.part_records(after);
        let start = self.start_at(first);
        let end = self.part_end(self.end_at(equals), after);
        put_record(&[pattern, conditions, result, start, end], out, at)
    }

    // The section of sentences: the records, and their number before them.
    // A loop of its own for each section: they carry nothing, `inside` or a place from token to token, and a closure would carry the buffer too.
    pub(crate) fn sentence_section(&self, out: &mut [u8], at: usize) -> usize
        requires { at ≤ 900000000000 }
        ensures { (result ≤ at + 81924)
            × ((ts : List Placed) → HeldIn self.now.tokens.now ts → Stand self.now.text.now ts
            → Put out.old at (section_bytes (flat_sentences no ts)) result out.new) }
    {
        let mut next = at + 4;
        let mut inside = false;
        for i in 0..self.tokens.len() {
            next = self.put_sentence(inside, i, out, next);
            inside = within_after(inside, self.tokens[i].kind);
        }
        put_count(20, out, at, next)
    }
}
