// What the first record of a pattern leaves to do with a row.
ghost use Rattle.std.specs.Prelude.{◌≡◌, List, ℕ, ◌+◌, ◌≤◌, length};
ghost use Rattle.std.proofs.Math.Option.{none, some};
ghost use Rattle.file.specs.Head.{term_at};
ghost use Rattle.file.specs.declared.Symbol.{Symbol};
ghost use Rattle.file.specs.declared.Term.TheVariants.{Symbol as Symbolic, Bracket};
ghost use Rattle.law.specs.Variables.{Variable};
ghost use Rattle.matching.specs.Pattern.{Atom, variable};
ghost use Rattle.matching.specs.Match.{Values, value_in};
ghost use Rattle.matching.specs.Code.Part.{atom_of};
ghost use Rattle.matching.specs.Code.Bound.{row_at, values_of, Kept, HasPlace};
ghost use Rattle.matching.specs.Code.Step.{open_term, Leaves};

use crate::atoms::{atoms_same, is_bracket, variables_same};
use crate::terms::may_stand;
use crate::values::begins;
use crate::{Bindings, First, Records, Stop};
use file::{Term, term_at, word_at};
use law::runs::end_of;

// Is this term an e. variable?
fn is_open(term: Term) -> bool
    ensures { result ≡ open_term term }
{
    matches!(term, Term::EVariable(_, _))
}

impl Bindings {
    // The place of the variable that the pattern's first record is.
    fn place_of(&self, records: &Records, pattern: &[u8]) -> Option<usize>
        requires { Kept records.now.text.now records.now.terms.now self.now × (24 ≤ length pattern.now) }
        ensures { HasPlace records.now.text.now records.now.terms.now pattern.now self.now result }
    {
        for i in (0..self.count).rev() {
            let key = usize::from(self.places[i].key);
            if variables_same(records.text, &records.terms[key..], pattern) {
                return Some(i);
            }
        }
        None
    }
}

// Symbols, as many as the pattern begins with: the row begins with the same. By positions in both, since a step is as long as a term and both positions are
// answered.
fn symbols_first(text: &[u8], pattern: &[u8], row: &[u8]) -> First
    requires { 24 ≤ length pattern.now }
    ensures { (x : Symbol) (vs : Values Atom) → term_at pattern.now 0 ≡ Symbolic x → Leaves text.now pattern.now row.now vs result }
{
    let mut i = 0;
    let mut j = 0;
    loop {
        let left = &pattern[i..];
        let right = &row[j..];
        if left.len() < 24 || 2 < word_at(left, 0) {
            break First::Goes(i, j);
        }
        if right.len() < 24 || !atoms_same(text, left, right) {
            break First::Fails;
        }
        i += end_of(left);
        j += end_of(right);
    }
}

// A bracket: the row begins with a bracket.
fn bracket_first(row: &[u8]) -> First
    ensures { (text pattern : List ℕ) (vs : Values Atom) → 24 ≤ length pattern → term_at pattern 0 ≡ Bracket → Leaves text pattern row.now vs result }
{
    if 24 <= row.len() && is_bracket(row) {
        First::Stops(Stop::Inside)
    } else {
        First::Fails
    }
}

// A variable that has a value, at a position and of a size: the row begins with it.
fn value_first(records: &Records, pattern: &[u8], row: &[u8], start: usize, size: usize) -> First
    requires { (start + size ≤ length records.now.terms.now) × (24 ≤ length pattern.now) }
    ensures { (v : Variable) (vs : Values Atom) → atom_of records.now.text.now (term_at pattern.now 0) ≡ variable v
        → some (row_at records.now.text.now records.now.terms.now start size) ≡ value_in vs v → Leaves records.now.text.now pattern.now row.now vs result }
{
    let end = start + size;
    match begins(records.text, &records.terms[start..end], row) {
        Some(n) => First::Goes(end_of(pattern), n),
        None => First::Fails,
    }
}

// A variable that has no value: an e. variable tries every length, another takes the first term if it may stand for it.
fn free_first(pattern: &[u8], row: &[u8]) -> First
    requires { 24 ≤ length pattern.now }
    ensures { (text : List ℕ) (v : Variable) (vs : Values Atom) → atom_of text (term_at pattern.now 0) ≡ variable v → value_in vs v ≡ none
        → Leaves text pattern.now row.now vs result }
{
    let variable = term_at(pattern, 0);
    if is_open(variable) {
        return First::Stops(Stop::Tries);
    }
    if row.len() < 24 || !may_stand(variable, term_at(row, 0)) {
        return First::Fails;
    }
    First::Stops(Stop::Binds(end_of(row)))
}

// A variable.
fn variable_first(records: &Records, pattern: &[u8], row: &[u8], b: &Bindings) -> First
    requires { Kept records.now.text.now records.now.terms.now b.now × (24 ≤ length pattern.now) }
    ensures { (v : Variable) → atom_of records.now.text.now (term_at pattern.now 0) ≡ variable v
        → Leaves records.now.text.now pattern.now row.now (values_of records.now.text.now records.now.terms.now b.now) result }
{
    match b.place_of(records, pattern) {
        Some(i) => {
            let place = b.places[i];
            let start = usize::from(place.start);
            let size = usize::from(place.size);
            value_first(records, pattern, row, start, size)
        }
        None => free_first(pattern, row),
    }
}

// What the first record of a pattern leaves to do with a row.
pub fn first_of(records: &Records, pattern: &[u8], row: &[u8], b: &Bindings) -> First
    requires { Kept records.now.text.now records.now.terms.now b.now × (24 ≤ length pattern.now) }
    ensures { Leaves records.now.text.now pattern.now row.now (values_of records.now.text.now records.now.terms.now b.now) result }
{
    match term_at(pattern, 0) {
        Term::Symbol(_) => symbols_first(records.text, pattern, row),
        Term::SVariable(_, _) | Term::TVariable(_, _) | Term::EVariable(_, _) => {
            variable_first(records, pattern, row, b)
        }
        Term::Bracket => bracket_first(row),
        Term::Call(_, _) | Term::Block(_) => First::Fails,
    }
}
