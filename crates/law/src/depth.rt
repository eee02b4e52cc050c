// How deep the terms of a law stand (refusal 8).
ghost use Rattle.std.specs.Prelude.{◌≡◌, ◌+◌, ◌≤◌, ◌<◌, leb, length};
ghost use Rattle.file.specs.Sections.{file_of};
ghost use Rattle.law.specs.Tree.{keep};
ghost use Rattle.law.specs.Code.Terms.{first_term, sentences_in};
ghost use Rattle.law.specs.Places.{conditions_of, first_condition};
ghost use Rattle.law.specs.Reading.{run_of, own, sentences_at, conditions_from, tree_of};
ghost use Rattle.law.specs.Depth.{deepest, deepest_sentences, deepest_conditions, depth_of};
ghost use Rattle.law.specs.Code.Index.{Readable, PartAt};
ghost use Rattle.std.proofs.Props.{props};

use crate::Law;
use crate::runs::end_of;
use file::{Term, term_at, word_at};

// A term's number of sentences, 0 where it is no block.
pub fn sentences_in(term: Term) -> usize
    ensures { result ≡ sentences_in term }
{
    if let Term::Block(n) = term {
        n as usize
    } else {
        0
    }
}

// A law that is in order up to its blocks, so that its tree can be walked.
#[derive(Clone, Copy)]
struct ReadableLaw<'a> {
    law: &'a Law<'a, 'a>,
    ghost readable: { Readable (file_of law.now.bytes.now) } by { Prim.hlevel props },
}

impl ReadableLaw<'_> {
    // Whether no term of a part of the term records has over 32 brackets, calls and blocks around it, of which `depth` are around the part.
    // The part's first record is number `at`. Symbols and variables hold no term, so that only records of kind 6 to 8 are entered. What
    // is left of the part is cut off for these alone, since a slice made for each record is kept in memory. A `while`, since the step is a term's size.
    #[cycle(depth)]
    fn run_depth(&self, part: &[u8], at: usize, depth: usize) -> bool
        requires { PartAt (file_of self.now.law.now.bytes.now) at part.now × (depth ≤ 33) }
        ensures { result ≡ leb (deepest (run_of (file_of self.now.law.now.bytes.now) (own (file_of self.now.law.now.bytes.now)) at part.now) depth) 32 }
    {
        if part.len() < 24 {
            return true;
        }
        if 32 < depth {
            return false;
        }
        let mut k = 0;
        while 24 * k < part.len() {
            if word_at(part, 24 * k) < 6 {
                k += 1;
            } else {
                let rest = &part[24 * k..];
                if !self.term_depth(rest, at + k, depth) {
                    return false;
                }
                k += 1 + word_at(rest, 12) as usize;
            }
        }
        true
    }

    // The same of a part's first term alone: what is inside it and, where it is a block, its sentences.
    #[cycle(depth)]
    fn term_depth(&self, part: &[u8], at: usize, depth: usize) -> bool
        requires { PartAt (file_of self.now.law.now.bytes.now) at part.now × (24 ≤ length part.now) × (depth ≤ 32) }
        ensures { result ≡ leb (deepest (first_term (run_of (file_of self.now.law.now.bytes.now) (own (file_of self.now.law.now.bytes.now)) at part.now)) depth) 32 }
    {
        let end = end_of(part);
        if !self.run_depth(&part[24..end], at + 1, depth + 1) {
            return false;
        }
        let count = sentences_in(term_at(part, 0));
        count == 0 || self.sentences_depth(self.law.block_first(at), count, depth + 1)
    }

    // The same of so many sentences from one on.
    #[cycle(depth)]
    fn sentences_depth(&self, first: usize, count: usize, depth: usize) -> bool
        requires { (first + count ≤ (file_of self.now.law.now.bytes.now).sentences.count) × (depth ≤ 33) }
        ensures { result ≡ leb (deepest_sentences (keep count (sentences_at (file_of self.now.law.now.bytes.now) first)) depth) 32 }
    {
        for i in 0..count {
            if !self.sentence_depth(first + i, depth) {
                return false;
            }
        }
        true
    }

    // The same of one sentence.
    #[cycle(depth)]
    fn sentence_depth(&self, s: usize, depth: usize) -> bool
        requires { (s < (file_of self.now.law.now.bytes.now).sentences.count) × (depth ≤ 33) }
        ensures { result ≡ leb (deepest_sentences (keep 1 (sentences_at (file_of self.now.law.now.bytes.now) s)) depth) 32 }
    {
        if !self.run_depth(self.law.pattern(s), self.law.pattern_at(s), depth) {
            return false;
        }
        if !self.conditions_depth(s, depth) {
            return false;
        }
        self.run_depth(self.law.result(s), self.law.result_at(s), depth)
    }

    // The same of a sentence's conditions.
    #[cycle(depth)]
    fn conditions_depth(&self, s: usize, depth: usize) -> bool
        requires { (s < (file_of self.now.law.now.bytes.now).sentences.count) × (depth ≤ 33) }
        ensures { result ≡ leb (deepest_conditions (conditions_from (file_of self.now.law.now.bytes.now) (own (file_of self.now.law.now.bytes.now)) s
            (conditions_of (file_of self.now.law.now.bytes.now) s) (first_condition (file_of self.now.law.now.bytes.now) s)) depth) 32 }
    {
        let first = self.law.first_condition(s);
        let count = self.law.first_condition(s + 1) - first;
        for i in 0..count {
            let c = first + i;
            let at = self.law.condition_result_at(s, c);
            if !self.run_depth(self.law.condition_result(s, c), at, depth) {
                return false;
            }
            let next = at + self.law.condition_result_size(c);
            if !self.run_depth(self.law.condition_pattern(s, c), next, depth) {
                return false;
            }
        }
        true
    }
}

impl Law<'_, '_> {
    // Whether no term of the law has over 32 brackets, calls and blocks around it.
    pub fn depth_allowed(&self) -> bool
        requires { Readable (file_of self.now.bytes.now) }
        ensures { result ≡ leb (depth_of (tree_of (file_of self.now.bytes.now))) 32 }
    {
        let readable = ReadableLaw { law: self };
        for f in 0..self.functions() {
            let first = self.first_sentence(f);
            let number = self.first_sentence(f + 1) - first;
            if !readable.sentences_depth(first, number, 0) {
                return false;
            }
        }
        true
    }
}
