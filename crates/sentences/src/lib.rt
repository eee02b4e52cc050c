// Matching within a law: the patterns of its sentences with each other and with the arguments of its calls. The loose test comes first; what it leaves open is
// searched.
#![tactic(auto)]

ghost use Rattle.std.specs.Prelude.{◌≡◌, true, ◌≤◌, ◌<◌, IfSome};
ghost use Rattle.file.specs.Answer.{given};
ghost use Rattle.file.specs.Sections.{file_of};
ghost use Rattle.law.specs.Places.{pattern_part};
ghost use Rattle.law.specs.Variables.{distinct};
ghost use Rattle.matching.specs.Shadow.{shadows};
ghost use Rattle.matching.specs.Literal.{literal_matches};
ghost use Rattle.matching.specs.Code.Part.{row_of, literal_part, symbols_of};
ghost use Rattle.searches.specs.Code.Capacity.{variables_in};
ghost use Rattle.searches.specs.Code.Asked.{nesting};
ghost use Rattle.sentences.specs.Entry.{argument_part, literal_call, shadow_in, recognise_in, shadow_outcome, recognise_outcome, shadow_answer, recognise_answer};
ghost use Rattle.sentences.specs.Code.Ahead.{Matches};

pub use crate::errors::{MatchError, ShadowError};
use crate::loose::{loose, once, parted};
use crate::parity::uneven;
use law::{AcceptedLaw, Index, read_law};
use matching::Records;
use searches::literal::{is_literal, search_literal};
use searches::pair::Pair;
use searches::shadow::search_shadow;

mod errors;
mod loose;
mod parity;

// Whether a pattern has a match with a row, where that is known without a search.
fn known(pair: &Pair) -> Option<bool>
    ensures { IfSome result (Matches pair.now.records.text.now pair.now.pattern.now pair.now.row.now) }
{
    let text = pair.records.text;
    if !loose(text, pair.pattern, pair.row) {
        return Some(false);
    }
    if once(text, pair.pattern) {
        return Some(true);
    }
    if uneven(text, pair.pattern, pair.row) {
        return Some(false);
    }
    None
}

// Does an earlier pattern shadow a later one?
fn shadow(pair: &Pair) -> bool
    requires { distinct (variables_in (row_of pair.now.records.text.now pair.now.pattern.now)) ≤ 32 }
    ensures { result ≡ shadows (row_of pair.now.records.text.now pair.now.pattern.now) (row_of pair.now.records.text.now pair.now.row.now) }
{
    match known(pair) {
        Some(answer) => answer,
        None => search_shadow(pair),
    }
}

// Does a pattern match a literal part?
// Not one with `shadow`: docs/ARCHITECTURE.md names the contracts of both, and this one asks for more.
fn literal(pair: &Pair) -> bool
    requires { (distinct (variables_in (row_of pair.now.records.text.now pair.now.pattern.now)) ≤ 32)
        × (nesting (row_of pair.now.records.text.now pair.now.pattern.now) ≤ 33) × (literal_part pair.now.row.now ≡ true) }
    ensures { result ≡ literal_matches (row_of pair.now.records.text.now pair.now.pattern.now) (symbols_of pair.now.records.text.now pair.now.row.now) }
{
    match known(pair) {
        Some(answer) => answer,
        None => search_literal(pair),
    }
}

// The text of a law and all its term records.
fn all_records<'a>(accepted: &AcceptedLaw<'a, '_>) -> Records<'a>
    ensures { (result.text.now ≡ (file_of accepted.now.law.bytes.now).text.records) × (result.terms.now ≡ (file_of accepted.now.law.bytes.now).terms.records) }
{
    let law = &accepted.law;
    Records {
        text: law.text(),
        terms: law.records(0, law.terms()),
    }
}

// Does an earlier sentence's pattern shadow a later one's? Most pairs are parted: nothing is put together for these.
pub fn sentence_shadows(accepted: &AcceptedLaw, earlier: usize, later: usize) -> bool
    requires { (earlier < (file_of accepted.now.law.bytes.now).sentences.count) × (later < (file_of accepted.now.law.bytes.now).sentences.count) }
    ensures { result ≡ shadows (row_of (file_of accepted.now.law.bytes.now).text.records (pattern_part (file_of accepted.now.law.bytes.now) earlier))
        (row_of (file_of accepted.now.law.bytes.now).text.records (pattern_part (file_of accepted.now.law.bytes.now) later)) }
{
    let law = &accepted.law;
    let pattern = law.pattern(earlier);
    let row = law.pattern(later);
    if parted(law.text(), pattern, row) {
        return false;
    }
    shadow(&Pair {
        records: all_records(accepted),
        pattern,
        at: 24 * law.pattern_at(earlier),
        row,
        start: 24 * law.pattern_at(later),
    })
}

// The records inside a term record: a call's argument.
pub fn argument_of<'a>(accepted: &AcceptedLaw<'a, '_>, term: usize) -> &'a [u8]
    requires { term < (file_of accepted.now.law.bytes.now).terms.count }
    ensures { result.now ≡ argument_part (file_of accepted.now.law.bytes.now) term }
{
    let law = &accepted.law;
    let n = law.term_word(term, 12);
    law.records(term + 1, n)
}

// Does a sentence's pattern match a call's argument that is literal? Here too `parted` comes before a pair is put together.
pub fn sentence_matches(accepted: &AcceptedLaw, sentence: usize, term: usize) -> bool
    requires { (sentence < (file_of accepted.now.law.bytes.now).sentences.count) × (term < (file_of accepted.now.law.bytes.now).terms.count)
        × (literal_part (argument_part (file_of accepted.now.law.bytes.now) term) ≡ true) }
    ensures { result ≡ literal_matches (row_of (file_of accepted.now.law.bytes.now).text.records (pattern_part (file_of accepted.now.law.bytes.now) sentence))
        (symbols_of (file_of accepted.now.law.bytes.now).text.records (argument_part (file_of accepted.now.law.bytes.now) term)) }
{
    let law = &accepted.law;
    let pattern = law.pattern(sentence);
    let row = argument_of(accepted, term);
    if parted(law.text(), pattern, row) {
        return false;
    }
    literal(&Pair {
        records: all_records(accepted),
        pattern,
        at: 24 * law.pattern_at(sentence),
        row,
        start: 24 * (term + 1),
    })
}

// Is a term record a call whose argument is literal?
fn is_literal_call(accepted: &AcceptedLaw, term: usize) -> bool
    ensures { result ≡ literal_call (file_of accepted.now.law.bytes.now) term }
{
    let law = &accepted.law;
    term < law.terms() && law.term_word(term, 0) == 7 && is_literal(argument_of(accepted, term))
}

// Whether a sentence of an accepted law shadows another.
fn shadow_accepted(
    accepted: &AcceptedLaw,
    earlier: usize,
    later: usize,
) -> Result<bool, ShadowError>
    ensures { shadow_answer result ≡ given (shadow_in (file_of accepted.now.law.bytes.now) earlier later) }
{
    let count = accepted.law.sentences();
    if count <= earlier || count <= later {
        return Err(ShadowError::NoSentence);
    }
    Ok(sentence_shadows(accepted, earlier, later))
}

// Whether a sentence's pattern matches a call's argument, in an accepted law.
fn recognise_accepted(
    accepted: &AcceptedLaw,
    sentence: usize,
    term: usize,
) -> Result<bool, MatchError>
    ensures { recognise_answer result ≡ given (recognise_in (file_of accepted.now.law.bytes.now) sentence term) }
{
    if accepted.law.sentences() <= sentence {
        return Err(MatchError::NoSentence);
    }
    if !is_literal_call(accepted, term) {
        return Err(MatchError::NotLiteral);
    }
    Ok(sentence_matches(accepted, sentence, term))
}

// Whether a sentence shadows another, of any bytes.
pub fn shadows_in(law: &[u8], earlier: usize, later: usize) -> Result<bool, ShadowError>
    ensures { shadow_answer result ≡ shadow_outcome law.now earlier later }
{
    let mut index: Index = [0; 972];
    read_law(law, &mut index)?;
    shadow_accepted(&AcceptedLaw::new(law, &index), earlier, later)
}

// Whether a sentence's pattern matches a call's argument, of any bytes.
// Not one with `shadows_in`: docs/ARCHITECTURE.md names the contracts of both, and the refusals differ.
pub fn matches_in(law: &[u8], sentence: usize, term: usize) -> Result<bool, MatchError>
    ensures { recognise_answer result ≡ recognise_outcome law.now sentence term }
{
    let mut index: Index = [0; 972];
    read_law(law, &mut index)?;
    recognise_accepted(&AcceptedLaw::new(law, &index), sentence, term)
}
