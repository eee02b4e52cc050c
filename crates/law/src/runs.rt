// Runs of term records (refusal 6).
ghost use Rattle.std.specs.Prelude.{◌≡◌, ◌+◌, ◌-◌, ◌≤◌, ◌<◌, length, take, drop};
ghost use Rattle.file.specs.Below.{every};
ghost use Rattle.file.specs.Sections.{file_of};
ghost use Rattle.law.specs.Places.{conditions_of, first_condition};
ghost use Rattle.law.specs.Runs.{end_of, run_fits, condition_fits, sentence_fits};
ghost use Rattle.law.specs.Code.Terms.{Owns};
ghost use Rattle.law.specs.Code.Levels.{level_fits};

use crate::Law;
use crate::whole::Terms;
use file::word_at;

// Where the contents of the run's first record end. Where it has none, the next record is known without a wait for its n.
pub fn end_of(part: &[u8]) -> usize
    requires { 24 ≤ length part.now }
    ensures { (result ≡ end_of part.now) × (24 ≤ result) × (result ≤ length part.now) }
{
    let n = word_at(part, 12) as usize;
    if n == 0 {
        return 24;
    }
    (24 + 24 * n).min(part.len())
}

// Whether no n of the records of one level passes its end. What is inside these records is passed over.
fn level_fits(level: &[u8]) -> bool
    ensures { result ≡ level_fits level.now }
{
    Terms(level).all(|left| 24 + 24 * word_at(left, 12) as usize <= left.len())
}

// Whether no record's n passes the run that the record stands in: the level inside each record fits. Every record is met, at whatever depth, so that
// nothing recurses: records that stand within one another may be as many as the law has.
fn run_fits(part: &[u8]) -> bool
    ensures { result ≡ run_fits part.now }
{
    for k in 0..part.len() / 24 {
        let i = 24 * k;
        let n = word_at(part, i + 12) as usize;
        if n != 0 {
            let size = 24 + 24 * n;
            if part.len() - i < size {
                return false;
            }
            if !level_fits(&part[i + 24..i + size]) {
                return false;
            }
        }
    }
    true
}

impl Law<'_, '_> {
    // Whether both runs of a condition c of a sentence s fit.
    fn condition_fits(&self, s: usize, c: usize) -> bool
        requires { Owns (file_of self.now.bytes.now) s c }
        ensures { result ≡ condition_fits (file_of self.now.bytes.now) s c }
    {
        run_fits(self.condition_result(s, c)) && run_fits(self.condition_pattern(s, c))
    }

    // Whether the runs of a sentence's conditions fit.
    fn conditions_fit(&self, s: usize) -> bool
        requires { s < (file_of self.now.bytes.now).sentences.count }
        ensures { result ≡ every (conditions_of (file_of self.now.bytes.now) s)
            (λ i. condition_fits (file_of self.now.bytes.now) s (first_condition (file_of self.now.bytes.now) s + i)) }
    {
        let first = self.first_condition(s);
        let end = self.first_condition(s + 1);
        (first..end).all(|c| self.condition_fits(s, c))
    }

    // Whether all runs of a sentence fit.
    fn sentence_fits(&self, s: usize) -> bool
        requires { s < (file_of self.now.bytes.now).sentences.count }
        ensures { result ≡ sentence_fits (file_of self.now.bytes.now) s }
    {
        run_fits(self.pattern(s)) && self.conditions_fit(s) && run_fits(self.result(s))
    }

    // Whether all runs of all sentences fit.
    pub fn runs_fit(&self) -> bool
        ensures { result ≡ every (file_of self.now.bytes.now).sentences.count (sentence_fits (file_of self.now.bytes.now)) }
    {
        (0..self.sentences()).all(|s| self.sentence_fits(s))
    }
}
