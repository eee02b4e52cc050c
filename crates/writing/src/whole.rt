// The law file of a text.
ghost use Rattle.std.specs.Prelude.{◌≤◌, List, length};
ghost use Rattle.buffers.specs.Code.Put.{Put};
ghost use Rattle.tokens.specs.Token.{Placed};
ghost use Rattle.encoding.specs.Code.FlatFile.{flat_file};
ghost use Rattle.writing.specs.Code.Held.{HeldIn, Stand};

use crate::brackets::Ahead;
use crate::records::put_word;
use crate::source::Source;
use buffers::put;

impl<'a> Source<'a> {
    // The file from its first byte on, and where it ends.
    pub fn put_file(&self, ahead: &mut [Ahead], out: &mut [u8]) -> usize
        requires { length self.now.tokens.now ≤ length ahead.old }
        ensures { (ts : List Placed) → HeldIn self.now.tokens.now ts → Stand self.now.text.now ts
            → Put out.old 0 (flat_file self.now.text.now ts) result out.new }
    {
        let size = put_word(self.text.len() as u32, out, 0);
        let first = put(self.text, out, size);
        let second = self.function_section(out, first);
        let third = self.sentence_section(out, second);
        let fourth = self.condition_section(out, third);
        self.term_section(ahead, out, fourth)
    }
}
