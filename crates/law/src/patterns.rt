// The variables of sentences' patterns (refusal 9).
ghost use Rattle.std.specs.Prelude.{◌≡◌, true, [], ◌∷◌, ◌+◌, ◌*◌, ◌-◌, ◌≤◌, ◌<◌, length, take, drop, leb};
ghost use Rattle.file.specs.Word.{word_at};
ghost use Rattle.file.specs.Head.{term_at};
ghost use Rattle.file.specs.Sections.{file_of};
ghost use Rattle.file.specs.Fields.{terms_allowed, fields_allowed};
ghost use Rattle.law.specs.Variables.{Variable, variable_of, variables_from, occurs, distinct, pattern_variables, patterns_allowed};

use crate::Law;
use file::word_at;
use names::{indices_equal, name_in};

// The records of a pattern, and the text where their names are spelled.
// Their number goes beside them, since the promises count records and a slice has a number of bytes.
#[derive(Clone, Copy)]
struct Pattern<'a> {
    text: &'a [u8],
    records: &'a [u8],
    count: usize,
    ghost whole: { 24 * count ≤ length records.now },
    ghost allowed: { terms_allowed text.now records.now count ≡ true },
}

impl<'a> Pattern<'a> {
    // The index of the variable record i: its bytes in the text.
    fn index_at(&self, i: usize) -> &'a [u8]
        requires { (i < self.now.count) × (3 ≤ word_at self.now.records.now (24 * i)) × (word_at self.now.records.now (24 * i) ≤ 5) }
        ensures { result.now ≡ take (word_at self.now.records.now (24 * i + 8)) (drop (word_at self.now.records.now (24 * i + 4)) self.now.text.now) }
    {
        let start = word_at(self.records, 24 * i + 4) as usize;
        let len = word_at(self.records, 24 * i + 8) as usize;
        name_in(self.text, start, len)
    }

    // Is the record j the variable that the record i is?
    fn is_same(&self, i: usize, j: usize) -> bool
        requires { (i < self.now.count) × (3 ≤ word_at self.now.records.now (24 * i)) × (word_at self.now.records.now (24 * i) ≤ 5) × (j < self.now.count) }
        ensures { (v : Variable) → variable_of self.now.text.now (term_at self.now.records.now (24 * i)) ≡ v ∷ []
            → result ≡ occurs v (variable_of self.now.text.now (term_at self.now.records.now (24 * j))) }
    {
        word_at(self.records, 24 * i) == word_at(self.records, 24 * j)
            && indices_equal(self.index_at(i), self.index_at(j))
    }

    // Does a later record repeat the variable that the record i is?
    fn is_repeated(&self, i: usize) -> bool
        requires { (i < self.now.count) × (3 ≤ word_at self.now.records.now (24 * i)) × (word_at self.now.records.now (24 * i) ≤ 5) }
        ensures { (v : Variable) → variable_of self.now.text.now (term_at self.now.records.now (24 * i)) ≡ v ∷ []
            → result ≡ occurs v (variables_from self.now.text.now self.now.records.now (self.now.count - (i + 1)) (i + 1)) }
    {
        (i + 1..self.count).any(|j| self.is_same(i, j))
    }

    // What the record i adds to the number of different variables: 1 where it is a variable that no later record repeats, else 0.
    fn counted(&self, i: usize) -> usize
        requires { i < self.now.count }
        ensures { (distinct (variables_from self.now.text.now self.now.records.now (self.now.count - i) i)
            ≡ result + distinct (variables_from self.now.text.now self.now.records.now (self.now.count - (i + 1)) (i + 1))) × (result ≤ 1) }
    {
        let kind = word_at(self.records, 24 * i);
        if kind < 3 || 5 < kind {
            return 0;
        }
        if self.is_repeated(i) { 0 } else { 1 }
    }

    // Are there at most 32 different variables?
    fn is_allowed(&self) -> bool
        ensures { result ≡ leb (distinct (variables_from self.now.text.now self.now.records.now self.now.count 0)) 32 }
    {
        // Each record is at most one variable, so a short pattern needs no comparison of names. Most patterns are short.
        if self.count <= 32 {
            return true;
        }
        let mut found = 0;
        for i in 0..self.count {
            found += self.counted(i);
            if 32 < found {
                return false;
            }
        }
        true
    }
}

impl Law<'_, '_> {
    // Does a sentence's pattern have at most 32 different variables?
    fn sentence_pattern(&self, s: usize) -> bool
        requires { (fields_allowed (file_of self.now.bytes.now) ≡ true) × (s < (file_of self.now.bytes.now).sentences.count) }
        ensures { result ≡ leb (distinct (pattern_variables (file_of self.now.bytes.now) s)) 32 }
    {
        let pattern = Pattern {
            text: self.text(),
            records: self.pattern(s),
            count: self.pattern_size(s),
        };
        pattern.is_allowed()
    }

    // Does each sentence's pattern have at most 32 different variables?
    // Allowed fields are asked for by a clause: an `AllowedLaw` would be made for one call of this, and reads no plainer.
    pub fn patterns_allowed(&self) -> bool
        requires { fields_allowed (file_of self.now.bytes.now) ≡ true }
        ensures { result ≡ patterns_allowed (file_of self.now.bytes.now) }
    {
        (0..self.sentences()).all(|s| self.sentence_pattern(s))
    }
}
