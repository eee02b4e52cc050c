// Blocks of sentences (refusal 7).
ghost use Rattle.std.specs.Prelude.{◌≡◌, ◌<◌};
ghost use Rattle.file.specs.Sections.{file_of};
ghost use Rattle.law.specs.Places.{block_size};
ghost use Rattle.law.specs.Runs.{block_later, sentence_blocks, blocks_allowed};

use crate::Law;

impl Law<'_, '_> {
    // The number of sentences of the block at a term record, 0 where it is no block.
    pub fn block_size(&self, t: usize) -> usize
        requires { t < (file_of self.now.bytes.now).terms.count }
        ensures { result ≡ block_size (file_of self.now.bytes.now) t }
    {
        if self.term_word(t, 0) == 8 {
            self.term_word(t, 4)
        } else {
            0
        }
    }

    // Is the term record t, which stands in the sentence s, no block with sentences, or is its first sentence later than s?
    fn block_later(&self, s: usize, t: usize) -> bool
        requires { t < (file_of self.now.bytes.now).terms.count }
        ensures { result ≡ block_later (file_of self.now.bytes.now) s t }
    {
        self.block_size(t) == 0 || s < self.block_first(t)
    }

    // Are the blocks of a sentence later than the sentence?
    fn sentence_blocks(&self, s: usize) -> bool
        requires { s < (file_of self.now.bytes.now).sentences.count }
        ensures { result ≡ sentence_blocks (file_of self.now.bytes.now) s }
    {
        let first = self.pattern_at(s);
        let end = self.pattern_at(s + 1);
        (first..end).all(|t| self.block_later(s, t))
    }

    // Are the blocks of each sentence later than the sentence?
    pub fn blocks_allowed(&self) -> bool
        ensures { result ≡ blocks_allowed (file_of self.now.bytes.now) }
    {
        let count = self.sentences();
        // Where the functions have all sentences, no block has any.
        self.first_sentence(self.functions()) == count
            || (0..count).all(|s| self.sentence_blocks(s))
    }
}
