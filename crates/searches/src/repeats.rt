// Variables that stand again elsewhere, or have a value already.
ghost use Rattle.std.specs.Prelude.{ℕ, ◌≡◌, true, false, ◌≤◌, ◌<◌, length};
ghost use Rattle.file.specs.Word.{word_at};
ghost use Rattle.file.specs.Head.{term_at};
ghost use Rattle.matching.specs.Pattern.{Atom};
ghost use Rattle.matching.specs.Match.{Values};
ghost use Rattle.matching.specs.Code.Part.{row_of, atom_of};
ghost use Rattle.matching.specs.Code.Bound.{place_at, Keyed, Kept};
ghost use Rattle.matching.specs.declared.Bindings.{Bindings};
ghost use Rattle.searches.specs.Code.Capacity.{variables_in};
ghost use Rattle.searches.specs.Code.Repeats.{Alone, AgreeUpTo, Disjoint};

use file::word_at;
use matching::atoms::variables_same;
use matching::{Bindings, Records};

// Of a search's places, how many keep their values as long as it remembers, and of how many more it is known that their variables stand neither in the pattern nor in
// what is around it; and whether what it remembers is of what is around the pattern here.
#[derive(Clone, Copy)]
pub struct Sure {
    pub fixed: usize,
    pub places: usize,
    pub here: bool,
}

impl Sure {
    // Nothing is known of the places, and what is remembered is not of the levels around here.
    pub fn none() -> Sure
        ensures { (result.fixed ≡ 0) × (result.places ≡ 0) × (result.here ≡ false) }
    {
        Sure {
            fixed: 0,
            places: 0,
            here: false,
        }
    }

    // So many places keep their values, and nothing is known of others.
    pub fn fixed(places: usize) -> Sure
        ensures { result ≡ record { fixed = places; places = places; here = true } }
    {
        Sure {
            fixed: places,
            places,
            here: true,
        }
    }
}

// Is the variable that stands first in one part a record of another, at any depth?
pub fn again(text: &[u8], first: &[u8], part: &[u8]) -> bool
    requires { 24 ≤ length first.now }
    ensures { 2 < word_at first.now 0 → (result ≡ false → Alone text.now (atom_of text.now (term_at first.now 0)) part.now)
        × (result ≡ true → Alone text.now (atom_of text.now (term_at first.now 0)) part.now → ⊥) }
{
    for record in part.chunks_exact(24) {
        if variables_same(text, first, record) {
            return true;
        }
    }
    false
}

// Have a part and one behind it no variable in common? What stands inside calls is looked at too.
fn disjoint_variables(text: &[u8], part: &[u8], behind: &[u8]) -> bool
    ensures { result ≡ true → Disjoint (variables_in (row_of text.now part.now)) (variables_in (row_of text.now behind.now)) }
{
    for record in part.chunks_exact(24) {
        if 2 < word_at(record, 0) && again(text, record, behind) {
            return false;
        }
    }
    true
}

// Is nothing around a part but what is behind it, with which it has no variable in common?
pub fn stands_apart(text: &[u8], part: &[u8], behind: &[u8], around: usize) -> bool
    ensures { result ≡ true → (around ≡ 0) × Disjoint (variables_in (row_of text.now part.now)) (variables_in (row_of text.now behind.now)) }
{
    around == 0 && disjoint_variables(text, part, behind)
}

// Has no variable of a pattern a value in the places from `sure` on? Only keys are looked at.
pub fn closed(records: &Records, pattern: &[u8], b: &Bindings, sure: usize) -> bool
    requires { (sure ≤ b.now.count) × Keyed records.now.terms.now b.now }
    ensures { result ≡ true → (c : Bindings) → c.count ≡ b.now.count → ((i : ℕ) → i < b.now.count → (place_at c.places i).key ≡ (place_at b.now.places i).key)
        → Kept records.now.text.now records.now.terms.now c → (vs : Values Atom)
        → AgreeUpTo records.now.text.now records.now.terms.now pattern.now c sure vs
        → AgreeUpTo records.now.text.now records.now.terms.now pattern.now c c.count vs }
{
    for i in sure..b.count {
        let key = usize::from(b.places[i].key);
        if again(records.text, &records.terms[key..], pattern) {
            return false;
        }
    }
    true
}
