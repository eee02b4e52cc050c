// The index of a file: where its functions, sentences, conditions, terms and blocks stand (specs/Code/Index.antt has the layout).
ghost use Rattle.std.specs.Prelude.{ℕ, ◌++◌, ◌≡◌, ◌&&◌, ◌+◌, ◌*◌, ◌≤◌, ◌<◌, length, drop, eqb};
ghost use Rattle.file.specs.Answer.{given};
ghost use Rattle.file.specs.Below.{total};
ghost use Rattle.file.specs.Sections.{sections_of, file_of};
ghost use Rattle.file.specs.Code.Counts.{counts_of, Limits, file_length};
ghost use Rattle.law.specs.Runs.{used_up};
ghost use Rattle.law.specs.Code.Filling.{Table, block_sum, as_word, TablesOf, header, Placed};

use crate::{BLOCKS, CONDITION_TERMS, FIRST_CONDITIONS, FIRST_SENTENCES, Index, SENTENCE_TERMS};
use file::{Sections, word_at};

// An array's length is known only where it is made, so the functions below ask for it and say it again.

// Writes the sums of a number of each record, from no record to all of them, and answers the last.
fn fill_sums<F: Fn(usize) -> usize>(
    index: &mut Index,
    from: usize,
    count: usize,
    number: F,
) -> usize
    requires callable { (i : ℕ) → i < count → F.pre number i }
    requires small { (i n : ℕ) → i < count → F.post number i n → n ≤ 8589934590 }
    requires room { (from + count < 972) × (length index.old ≡ 972) }
    ensures sums { (f : ℕ → ℕ) → ((i n : ℕ) → i < count → F.post number i n → n ≡ f i)
        → (result ≡ total count f) × Table index.old index.new from (count + 1) (λ n. as_word (total n f)) }
    ensures bound { (result ≤ 8589934590 * count) × (length index.new ≡ 972) }
{
    let mut sum: usize = 0;
    index[from] = 0;
    for i in 0..count {
        sum += number(i);
        index[from + (i + 1)] = (sum % 65536) as u16;
    }
    sum
}

// The sentences of the blocks up to a term record and at it, from those of the blocks before it. Most records are no block, and
// hand the sum on as it is.
fn add_block(terms: &[u8], t: usize, sum: usize) -> usize
    requires { (24 * t + 24 ≤ length terms.now) × (t < 972) × (sum ≡ block_sum terms.now t) × (sum ≤ 4294967295 * t) }
    ensures { (result ≡ block_sum terms.now (t + 1)) × (result ≤ 4294967295 * (t + 1)) }
{
    if word_at(terms, 24 * t) == 8 {
        sum + word_at(terms, 24 * t + 4) as usize
    } else {
        sum
    }
}

// Writes the first sentence of the block at each term record, where the first block's stands at `first`, and answers the sentences of all blocks.
// Not one with `fill_sums`: a sum is written before the record adds to it. `count` is of records, of which each has a place in the table.
fn fill_blocks(index: &mut Index, from: usize, terms: &[u8], count: usize, first: usize) -> usize
    requires { (24 * count ≤ length terms.now) × (from + count ≤ 972) × (first ≤ 549755813760) × (length index.old ≡ 972) }
    ensures { (result ≡ block_sum terms.now count) × (result ≤ 4294967295 * count) × (length index.new ≡ 972)
        × Table index.old index.new from count (λ t. as_word (first + block_sum terms.now t)) }
{
    let mut sum: usize = 0;
    for t in 0..count {
        index[from + t] = ((first + sum) % 65536) as u16;
        sum = add_block(terms, t, sum);
    }
    sum
}

// Whether the numbers of sentences, conditions and terms that records ask for are those that there are.
fn used_exactly(sentences: usize, conditions: usize, terms: usize, sections: Sections) -> bool
    ensures { result ≡ (eqb sentences sections.sentences && eqb conditions sections.conditions && eqb terms sections.terms) }
{
    sentences == sections.sentences && conditions == sections.conditions && terms == sections.terms
}

// Fills the tables, and answers whether sections 3 to 5 are used up exactly.
fn fill_tables(index: &mut Index, law: &[u8], sections: Sections) -> bool
    requires { (counts_of (file_of law.now) ≡ sections) × Limits sections × (length law.now ≡ file_length sections) × (length index.old ≡ 972) }
    ensures { (result ≡ used_up (file_of law.now)) × (length index.new ≡ 972) × TablesOf (file_of law.now) index.new }
{
    let functions = sections.functions;
    let sentences = sections.sentences;
    let conditions = sections.conditions;
    let terms = sections.terms;
    let functions_at = sections.functions_at();
    let sentences_at = sections.sentences_at();
    let conditions_at = sections.conditions_at();
    let terms_at = sections.terms_at();
    let function_records = &law[functions_at..functions_at + 20 * functions];
    let sentence_records = &law[sentences_at..sentences_at + 20 * sentences];
    let condition_records = &law[conditions_at..conditions_at + 16 * conditions];
    let term_records = &law[terms_at..terms_at + 24 * terms];
    let function_sentences = fill_sums(index, FIRST_SENTENCES, functions, |f| {
        word_at(function_records, 20 * f + 8) as usize
    });
    let sentence_conditions = fill_sums(index, FIRST_CONDITIONS, sentences, |s| {
        word_at(sentence_records, 20 * s + 4) as usize
    });
    let condition_terms = fill_sums(index, CONDITION_TERMS, conditions, |c| {
        word_at(condition_records, 16 * c) as usize
            + word_at(condition_records, 16 * c + 4) as usize
    });
    let sentence_terms = fill_sums(index, SENTENCE_TERMS, sentences, |s| {
        word_at(sentence_records, 20 * s) as usize + word_at(sentence_records, 20 * s + 8) as usize
    });
    let block_sentences = fill_blocks(index, BLOCKS, term_records, terms, function_sentences);
    used_exactly(
        function_sentences + block_sentences,
        sentence_conditions,
        sentence_terms + condition_terms,
        sections,
    )
}

// Writes the positions of the records of sections 2 to 5, and their numbers.
fn fill_header(index: &mut Index, sections: Sections)
    requires { Limits sections × (length index.old ≡ 972) }
    ensures { index.new ≡ header sections ++ drop 8 index.old }
{
    index[0] = sections.functions_at() as u16;
    index[1] = sections.sentences_at() as u16;
    index[2] = sections.conditions_at() as u16;
    index[3] = sections.terms_at() as u16;
    index[4] = sections.functions as u16;
    index[5] = sections.sentences as u16;
    index[6] = sections.conditions as u16;
    index[7] = sections.terms as u16;
}

// Fills the index of a file that is cut into its sections, and answers whether sections 3 to 5 are used up exactly.
// Sums past 65,535 are cut in the index, and then they are not. Where they are, it is the file's index (`placed_indexed` of proofs/Tables.antt).
pub fn place_records(law: &[u8], sections: Sections, index: &mut Index) -> bool
    requires { (sections_of law.now ≡ given (file_of law.now)) × (counts_of (file_of law.now) ≡ sections) × (length index.old ≡ 972) }
    ensures { (result ≡ used_up (file_of law.now)) × Placed (file_of law.now) index.new }
{
    let exact = fill_tables(index, law, sections);
    fill_header(index, sections);
    exact
}
