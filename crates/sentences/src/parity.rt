// Numbers of terms that show that there is no match: where each e. variable outside a pattern's brackets stands there an even number of times, a pattern and
// what it matches have both an odd number of terms or both an even one.
ghost use Rattle.std.specs.Prelude.{◌≡◌, Bool, true, [], ◌≤◌, length};
ghost use Rattle.file.specs.Head.{term_at};
ghost use Rattle.law.specs.Variables.{Variable};
ghost use Rattle.matching.specs.Pattern.{variable};
ghost use Rattle.matching.specs.Match.{none_bound};
ghost use Rattle.matching.specs.Code.Part.{row_of, atom_of};
ghost use Rattle.matching.specs.Code.Step.{found};
ghost use Rattle.sentences.specs.Code.Parity.{outside, odd_in, Evenly};

use crate::loose::terms_in;
use file::word_at;
use law::whole::Terms;
use matching::atoms::variables_same;

// Does a variable, the first record of a part, stand an odd number of times outside the brackets of a pattern?
fn odd_times(text: &[u8], first: &[u8], pattern: &[u8]) -> bool
    requires { 24 ≤ length first.now }
    ensures { (v : Variable) → atom_of text.now (term_at first.now 0) ≡ variable v → result ≡ odd_in v (outside (row_of text.now pattern.now)) }
{
    Terms(pattern)
        .filter(|part| variables_same(text, first, part))
        .count()
        % 2
        == 1
}

// Does each e. variable outside the brackets of a pattern stand there an even number of times?
fn evenly(text: &[u8], pattern: &[u8]) -> bool
    ensures { result ≡ true → Evenly (row_of text.now pattern.now) }
{
    Terms(pattern).all(|part| word_at(part, 0) != 5 || !odd_times(text, part, pattern))
}

// Do the numbers of terms show that there is no match?
pub fn uneven(text: &[u8], pattern: &[u8], row: &[u8]) -> bool
    ensures { result ≡ true → (back : Bool) → found back (row_of text.now pattern.now) (row_of text.now row.now) none_bound ≡ [] }
{
    terms_in(pattern) % 2 != terms_in(row) % 2 && evenly(text, pattern)
}
