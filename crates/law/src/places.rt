// Where things stand in a file, read off its index: no lookup goes through the file. specs/Places.antt says what each answer is.
ghost use mathlib.Core.Sum.{⊎_set};
ghost use Rattle.std.specs.Prelude.{◌≡◌, true, ◌+◌, ◌*◌, ◌≤◌, ◌<◌, get_or};
ghost use Rattle.std.proofs.Props.{props};
ghost use Rattle.file.specs.Word.{word_at};
ghost use Rattle.file.specs.Sections.{file_of};
ghost use Rattle.file.specs.Fields.{fields_allowed};
ghost use Rattle.law.specs.Places.{pattern_size, condition_result_size, pattern_at, condition_result_at, result_at, terms_at, pattern_part, result_part, condition_result_part, condition_pattern_part};
ghost use Rattle.law.specs.Code.Terms.{Owns};
ghost use Rattle.law.specs.Reading.{function_name};
ghost use Rattle.law.specs.Code.Index.{Indexed};
ghost use Rattle.law.specs.Code.Accepted.{Accepted};

use crate::{BLOCKS, CONDITION_TERMS, FIRST_CONDITIONS, FIRST_SENTENCES, Index, SENTENCE_TERMS};
use file::word_at;
use names::name_in;

// The bytes of a file, and its index. What a lookup hands back is of the bytes alone: the index may be written while it is held.
#[derive(Clone, Copy)]
pub struct Law<'a, 'i> {
    pub bytes: &'a [u8],
    pub index: &'i Index,
    pub ghost indexed: { Indexed bytes.now index.now } by { Prim.hlevel (props, ⊎_set) },
}

// A file whose fields are allowed, with its index.
#[derive(Clone, Copy)]
pub struct AllowedLaw<'a, 'i> {
    pub law: Law<'a, 'i>,
    pub ghost fields: { fields_allowed (file_of law.bytes.now) ≡ true },
}

// A law that no refusal holds of.
#[derive(Clone, Copy)]
pub struct AcceptedLaw<'a, 'i> {
    pub law: Law<'a, 'i>,
    pub ghost accepted: { Accepted law.bytes.now } by { Prim.hlevel (props, ⊎_set) },
}

// A word of an index.
fn word(index: &Index, i: usize) -> usize
    requires { i < 972 }
    ensures { (result ≡ get_or index.now i 0) × (result < 65536) }
{
    index[i] as usize
}

// The numbers of functions, sentences, conditions and terms, of any index.
pub fn functions(index: &Index) -> usize
    ensures { result ≡ get_or index.now 4 0 }
{
    word(index, 4)
}

pub fn sentences(index: &Index) -> usize
    ensures { result ≡ get_or index.now 5 0 }
{
    word(index, 5)
}

pub fn terms(index: &Index) -> usize
    ensures { result ≡ get_or index.now 7 0 }
{
    word(index, 7)
}

// The first sentence of a function, up to the number of functions.
pub fn first_sentence(index: &Index, f: usize) -> usize
    requires { f ≤ 64 }
    ensures { result ≡ get_or index.now (8 + f) 0 }
{
    word(index, FIRST_SENTENCES + f)
}

// The first condition of a sentence, up to the number of sentences.
pub fn first_condition(index: &Index, s: usize) -> usize
    requires { s ≤ 128 }
    ensures { result ≡ get_or index.now (73 + s) 0 }
{
    word(index, FIRST_CONDITIONS + s)
}

// The first sentence of the block at a term record.
pub fn block_first(index: &Index, t: usize) -> usize
    requires { t < 512 }
    ensures { result ≡ get_or index.now (460 + t) 0 }
{
    word(index, BLOCKS + t)
}

impl<'a> Law<'a, '_> {
    // A word of the index.
    fn word(&self, i: usize) -> usize
        requires { i < 972 }
        ensures { (result ≡ get_or self.now.index.now i 0) × (result < 65536) }
    {
        word(self.index, i)
    }

    // The numbers of functions, sentences, conditions and terms.
    pub fn functions(&self) -> usize
        ensures { result ≡ get_or self.now.index.now 4 0 }
    {
        functions(self.index)
    }

    pub fn sentences(&self) -> usize
        ensures { result ≡ get_or self.now.index.now 5 0 }
    {
        sentences(self.index)
    }

    pub fn terms(&self) -> usize
        ensures { result ≡ get_or self.now.index.now 7 0 }
    {
        terms(self.index)
    }

    // The first sentence of a function, up to the number of functions.
    pub fn first_sentence(&self, f: usize) -> usize
        requires { f ≤ 64 }
        ensures { result ≡ get_or self.now.index.now (8 + f) 0 }
    {
        first_sentence(self.index, f)
    }

    // The first condition of a sentence, up to the number of sentences.
    pub fn first_condition(&self, s: usize) -> usize
        requires { s ≤ 128 }
        ensures { result ≡ get_or self.now.index.now (73 + s) 0 }
    {
        first_condition(self.index, s)
    }

    // The first sentence of the block at a term record.
    pub fn block_first(&self, t: usize) -> usize
        requires { t < 512 }
        ensures { result ≡ get_or self.now.index.now (460 + t) 0 }
    {
        block_first(self.index, t)
    }

    // A word of a function record.
    // There is one of these for each section: each asks for the count and the record size of its section, and promises a word of its records.
    fn function_word(&self, f: usize, at: usize) -> usize
        requires { (f < (file_of self.now.bytes.now).functions.count) × (at + 4 ≤ 20) }
        ensures { result ≡ word_at (file_of self.now.bytes.now).functions.records (20 * f + at) }
    {
        let start = self.word(0);
        word_at(self.bytes, start + (20 * f + at)) as usize
    }

    // A word of a sentence record.
    fn sentence_word(&self, s: usize, at: usize) -> usize
        requires { (s < (file_of self.now.bytes.now).sentences.count) × (at + 4 ≤ 20) }
        ensures { result ≡ word_at (file_of self.now.bytes.now).sentences.records (20 * s + at) }
    {
        let start = self.word(1);
        word_at(self.bytes, start + (20 * s + at)) as usize
    }

    // A word of a condition record.
    fn condition_word(&self, c: usize, at: usize) -> usize
        requires { (c < (file_of self.now.bytes.now).conditions.count) × (at + 4 ≤ 16) }
        ensures { result ≡ word_at (file_of self.now.bytes.now).conditions.records (16 * c + at) }
    {
        let start = self.word(2);
        word_at(self.bytes, start + (16 * c + at)) as usize
    }

    // A word of a term record.
    pub fn term_word(&self, t: usize, at: usize) -> usize
        requires { (t < (file_of self.now.bytes.now).terms.count) × (at + 4 ≤ 24) }
        ensures { result ≡ word_at (file_of self.now.bytes.now).terms.records (24 * t + at) }
    {
        let start = self.word(3);
        word_at(self.bytes, start + (24 * t + at)) as usize
    }

    // The bytes of so many term records from one on.
    pub fn records(&self, at: usize, count: usize) -> &'a [u8]
        requires { at + count ≤ (file_of self.now.bytes.now).terms.count }
        ensures { result.now ≡ terms_at (file_of self.now.bytes.now) at count }
    {
        let start = self.word(3) + 24 * at;
        let end = start + 24 * count;
        &self.bytes[start..end]
    }

    // The number of records of a sentence's pattern.
    pub fn pattern_size(&self, s: usize) -> usize
        requires { s < (file_of self.now.bytes.now).sentences.count }
        ensures { result ≡ pattern_size (file_of self.now.bytes.now) s }
    {
        self.sentence_word(s, 0)
    }

    // The first record of a sentence's pattern, up to the number of sentences.
    pub fn pattern_at(&self, s: usize) -> usize
        requires { s ≤ (file_of self.now.bytes.now).sentences.count }
        ensures { result ≡ pattern_at (file_of self.now.bytes.now) s }
    {
        let c = self.word(FIRST_CONDITIONS + s);
        self.word(SENTENCE_TERMS + s) + self.word(CONDITION_TERMS + c)
    }

    // The first record of a sentence's result.
    pub fn result_at(&self, s: usize) -> usize
        requires { s < (file_of self.now.bytes.now).sentences.count }
        ensures { result ≡ result_at (file_of self.now.bytes.now) s }
    {
        let c = self.word(FIRST_CONDITIONS + 1 + s);
        self.word(SENTENCE_TERMS + s) + self.pattern_size(s) + self.word(CONDITION_TERMS + c)
    }

    // The first record of the result of a condition of a sentence.
    pub fn condition_result_at(&self, s: usize, c: usize) -> usize
        requires { (s < (file_of self.now.bytes.now).sentences.count) × (c < (file_of self.now.bytes.now).conditions.count) }
        ensures { result ≡ condition_result_at (file_of self.now.bytes.now) s c }
    {
        self.word(SENTENCE_TERMS + s) + self.pattern_size(s) + self.word(CONDITION_TERMS + c)
    }

    // The number of records of a condition's result.
    pub fn condition_result_size(&self, c: usize) -> usize
        requires { c < (file_of self.now.bytes.now).conditions.count }
        ensures { result ≡ condition_result_size (file_of self.now.bytes.now) c }
    {
        self.condition_word(c, 0)
    }

    // A sentence's pattern: the bytes of its records.
    pub fn pattern(&self, s: usize) -> &'a [u8]
        requires { s < (file_of self.now.bytes.now).sentences.count }
        ensures { result.now ≡ pattern_part (file_of self.now.bytes.now) s }
    {
        let at = self.pattern_at(s);
        self.records(at, self.pattern_size(s))
    }

    // A sentence's result.
    pub fn result(&self, s: usize) -> &'a [u8]
        requires { s < (file_of self.now.bytes.now).sentences.count }
        ensures { result.now ≡ result_part (file_of self.now.bytes.now) s }
    {
        let at = self.result_at(s);
        self.records(at, self.sentence_word(s, 8))
    }

    // The result of a condition c of a sentence s.
    pub fn condition_result(&self, s: usize, c: usize) -> &'a [u8]
        requires { Owns (file_of self.now.bytes.now) s c }
        ensures { result.now ≡ condition_result_part (file_of self.now.bytes.now) s c }
    {
        let at = self.condition_result_at(s, c);
        self.records(at, self.condition_result_size(c))
    }

    // The pattern of a condition c of a sentence s.
    pub fn condition_pattern(&self, s: usize, c: usize) -> &'a [u8]
        requires { Owns (file_of self.now.bytes.now) s c }
        ensures { result.now ≡ condition_pattern_part (file_of self.now.bytes.now) s c }
    {
        let at = self.condition_result_at(s, c) + self.condition_result_size(c);
        self.records(at, self.condition_word(c, 4))
    }

    // The text section.
    pub fn text(&self) -> &'a [u8]
        ensures { result.now ≡ (file_of self.now.bytes.now).text.records }
    {
        let end = self.word(0) - 4;
        &self.bytes[4..end]
    }

    // A function's name, as the part of the text where it is spelled.
    pub fn function_name(&self, f: usize) -> &'a [u8]
        requires { (f < (file_of self.now.bytes.now).functions.count) × (fields_allowed (file_of self.now.bytes.now) ≡ true) }
        ensures { result.now ≡ (function_name (file_of self.now.bytes.now) f).spelled }
    {
        let start = self.function_word(f, 0);
        let len = self.function_word(f, 4);
        name_in(self.text(), start, len)
    }
}

impl<'a, 'i> AcceptedLaw<'a, 'i> {
    pub fn new(bytes: &'a [u8], index: &'i Index) -> AcceptedLaw<'a, 'i>
        requires { Indexed bytes.now index.now × Accepted bytes.now }
        ensures { (result.law.bytes.now ≡ bytes.now) × (result.law.index.now ≡ index.now) }
    {
        AcceptedLaw {
            law: Law { bytes, index },
        }
    }
}
