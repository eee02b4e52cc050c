// Lint 2: calls that no sentence of their function can match.
ghost use Rattle.std.specs.Prelude.{◌≡◌, true, ◌*◌, ◌≤◌, ◌<◌, length};
ghost use Rattle.std.proofs.Math.Option.{some};
ghost use Rattle.file.specs.Word.{word_at};
ghost use Rattle.file.specs.Sections.{file_of};
ghost use Rattle.law.specs.Reading.{tree_of};
ghost use Rattle.formats.specs.Code.Slots.{position, call_folded, file_names};
ghost use Rattle.matching.specs.Literal.{is_literal, literal_terms};
ghost use Rattle.sentences.specs.Entry.{argument_in};
ghost use Rattle.lints.specs.Recognition.{some_matches, compared_with};
ghost use Rattle.lints.specs.Code.Records.{formats_in, call_at};
ghost use Rattle.lints.specs.Code.Verdicts.{reason_number, verdict_of, last_placed, function_sentences, comparison};

use formats::TooWide;
use formats::held::Formats;
use formats::slots::Slots;
use law::AcceptedLaw;
use searches::literal::is_literal;
use sentences::{argument_of, sentence_matches};
use shapes::disjoint_formats;

// By what no sentence matches a call: its argument's format, or its argument itself, which is literal.
#[derive(Clone, Copy, PartialEq, Eq, Debug)]
pub enum Reason {
    Formats,
    Literals,
}

// The word a of a finding of lint 2.
impl From<Reason> for u32 {
    ghost from_gives = { λ reason number. number ≡ reason_number reason };

    fn from(reason: Reason) -> u32 {
        match reason {
            Reason::Formats => 1,
            Reason::Literals => 2,
        }
    }
}

// The last of so many functions whose name has this place.
fn last_placed(slots: &Slots, count: usize, place: usize) -> Option<usize>
    requires { count ≤ 64 }
    ensures { result ≡ last_placed slots.now place count }
{
    for f in (0..count).rev() {
        if usize::from(slots.functions[f]) == place {
            return Some(f);
        }
    }
    None
}

// Does some sentence of the function f match the argument of the call at a term record, which is literal?
fn some_matches(accepted: &AcceptedLaw, f: usize, t: usize) -> bool
    requires f_bound { (f < (file_of accepted.now.law.bytes.now).functions.count) × (t < (file_of accepted.now.law.bytes.now).terms.count)
        × (is_literal (argument_in (file_of accepted.now.law.bytes.now) t) ≡ true) }
    ensures { result ≡ some_matches (function_sentences (file_of accepted.now.law.bytes.now) f) (literal_terms (argument_in (file_of accepted.now.law.bytes.now) t)) }
{
    let law = &accepted.law;
    for s in law.first_sentence(f)..law.first_sentence(f + 1) {
        if sentence_matches(accepted, s, t) {
            return true;
        }
    }
    false
}

// Is the argument of the call at a term record, with the function f, compared by formats?
fn is_compared(accepted: &AcceptedLaw, f: usize, t: usize, literal: bool) -> bool
    requires f_bound { (f < (file_of accepted.now.law.bytes.now).functions.count) × (t < (file_of accepted.now.law.bytes.now).terms.count)
        × (literal ≡ is_literal (argument_in (file_of accepted.now.law.bytes.now) t)) }
    ensures { result ≡ compared_with (some (function_sentences (file_of accepted.now.law.bytes.now) f)) (argument_in (file_of accepted.now.law.bytes.now) t) }
{
    !(literal && some_matches(accepted, f, t))
}

// What is said of the call at a term record, where it is compared: why no sentence matches it, if that is certain. Its name has this place.
fn compare_call(
    formats: &Formats,
    t: usize,
    place: usize,
    literal: bool,
) -> Result<Option<Reason>, TooWide>
    requires term { (t < (file_of formats.now.law.law.bytes.now).terms.count) × (literal ≡ is_literal (argument_in (file_of formats.now.law.law.bytes.now) t)) }
    requires place_value { (place ≡ position (file_names (file_of formats.now.law.law.bytes.now)) (call_folded (file_of formats.now.law.law.bytes.now) t))
        × (place < length (file_names (file_of formats.now.law.law.bytes.now))) }
    ensures { result ≡ comparison formats.now.limit (formats_in (file_of formats.now.law.law.bytes.now) formats.now.limit formats.now.store.now)
        (call_at (file_of formats.now.law.law.bytes.now) t) }
{
    let mut row = [0u32; 65];
    let end = formats.limit + 1;
    let part = argument_of(&formats.law, t);
    formats.row_format(part, t + 1, &mut row[..end])?;
    if disjoint_formats(&row[..end], formats.argument(place)) {
        return Ok(Some(Reason::Formats));
    }
    if literal {
        return Ok(Some(Reason::Literals));
    }
    Ok(None)
}

// What is said of the call at a term record: why no sentence of its function matches it, if that is certain.
pub fn judge_call(formats: &Formats, t: usize) -> Result<Option<Reason>, TooWide>
    requires { (t < (file_of formats.now.law.law.bytes.now).terms.count) × (word_at (file_of formats.now.law.law.bytes.now).terms.records (24 * t) ≡ 7) }
    ensures { result ≡ verdict_of formats.now.limit (tree_of (file_of formats.now.law.law.bytes.now))
        (formats_in (file_of formats.now.law.law.bytes.now) formats.now.limit formats.now.store.now) (call_at (file_of formats.now.law.law.bytes.now) t) }
{
    let law = &formats.law.law;
    let place = usize::from(formats.slots.calls[t]);
    let Some(f) = last_placed(formats.slots, law.functions(), place) else {
        return Ok(None);
    };
    let literal = is_literal(argument_of(&formats.law, t));
    if !is_compared(&formats.law, f, t, literal) {
        return Ok(None);
    }
    compare_call(formats, t, place, literal)
}
