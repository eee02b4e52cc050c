// Says of each law on standard input which sentences shadow which, and which sentences match its literal calls.
//
// The crate `test_cases` says what a case is. The answer is a line: the label, a space, and `refused` and document 01's number,
// or `accepted`. For each sentence record a line follows for each earlier one: whether the earlier shadows the later. For
// each call whose argument is literal, by its term record, a line follows for each sentence: whether it matches. Sentences
// of all functions and blocks are asked about, so that a case may spread its patterns over several.
#![tactic(auto)]

use file::{Refusal, Sections, sections_of};
use law::check_law;
use sentences::{MatchError, ShadowError, matches_in, shadows_in};
use std::io;
use std::io::{Read, Write};
use test_cases::{LABEL, LAW, answer_cases, read_law};

#[cfg(test)]
mod tests;

// Writes whether a sentence shadows another.
fn print_shadowed<W: Write>(
    output: &mut W,
    earlier: usize,
    later: usize,
    answer: Result<bool, ShadowError>,
) -> io::Result<()> {
    match answer {
        Ok(true) => writeln!(output, "  {earlier} shadows {later}"),
        Ok(false) => writeln!(output, "  {earlier} does not shadow {later}"),
        Err(ShadowError::Refused(_)) => writeln!(output, "  {earlier} is refused beside {later}"),
        Err(ShadowError::NoSentence) => writeln!(output, "  {earlier} has no sentence {later}"),
    }
}

// Writes whether a sentence matches the argument of a call, and nothing where that is not literal.
fn print_recognised<W: Write>(
    output: &mut W,
    sentence: usize,
    term: usize,
    answer: Result<bool, MatchError>,
) -> io::Result<()> {
    match answer {
        Ok(true) => writeln!(output, "  {sentence} matches the call at {term}"),
        Ok(false) => writeln!(output, "  {sentence} does not match the call at {term}"),
        Err(MatchError::Refused(_)) => {
            writeln!(output, "  {sentence} is refused beside the call at {term}")
        }
        Err(MatchError::NoSentence) => {
            writeln!(output, "  {sentence} is no sentence for the call at {term}")
        }
        Err(MatchError::NotLiteral) => Ok(()),
    }
}

// Asks about a sentence and each one before it.
fn print_earlier<W: Write>(output: &mut W, law: &[u8], later: usize) -> io::Result<()> {
    for earlier in 0..later {
        print_shadowed(output, earlier, later, shadows_in(law, earlier, later))?;
    }
    Ok(())
}

// Asks about a term record and each of so many sentences.
// Not one loop with `print_earlier`: a closure that asks and writes would be no shorter than the loop.
fn print_call<W: Write>(output: &mut W, law: &[u8], count: usize, term: usize) -> io::Result<()> {
    for sentence in 0..count {
        print_recognised(output, sentence, term, matches_in(law, sentence, term))?;
    }
    Ok(())
}

// Asks about each two sentences, and about each term record and each sentence.
fn print_pairs<W: Write>(output: &mut W, law: &[u8], sections: Sections) -> io::Result<()> {
    for later in 0..sections.sentences {
        print_earlier(output, law, later)?;
    }
    for term in 0..sections.terms {
        print_call(output, law, sections.sentences, term)?;
    }
    Ok(())
}

// The counts of a law.
fn counts(law: &[u8]) -> Result<Sections, Refusal> {
    check_law(law)?;
    sections_of(law)
}

// Writes the end of a case's line, and the lines after it.
fn print_answers<W: Write>(output: &mut W, law: &[u8]) -> io::Result<()> {
    match counts(law) {
        Ok(sections) => {
            output.write_all(b" accepted\n")?;
            print_pairs(output, law, sections)
        }
        Err(why) => {
            let number = u32::from(why);
            writeln!(output, " refused {number}")
        }
    }
}

// Reads a law and answers it, and says whether there may be another case. A law that does not fit or is cut short is left without
// an answer.
fn answer_law<R: Read, W: Write>(
    input: &mut R,
    output: &mut W,
    space: &mut [u8],
) -> io::Result<bool> {
    let Some(bytes) = read_law(input, space)? else {
        return Ok(false);
    };
    print_answers(output, &space[..bytes])?;
    Ok(true)
}

// What a case is, or what is lent for it, differs between the test programs. `answer_cases` has what they share.
fn main(rt: HostRuntime) -> io::Result<()> {
    let mut label = [0u8; LABEL];
    let mut space = [0u8; LAW];
    answer_cases(
        rt.alloc(),
        rt.stdin(),
        rt.stdout(),
        &mut label,
        b"",
        |input, output, _| answer_law(input, output, &mut space),
    )
}
