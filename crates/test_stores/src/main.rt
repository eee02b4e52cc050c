// Says of each law on standard input which formats are inferred for it, or why it is refused.
//
// The crate `test_cases` says what a case is. A label that starts with `short` lends a store that is one word short. The answer
// is a line: the label, a space, and `refused` and document 01's number, or the rounds that ran and whether they settled.
// After an inference a line follows for each format of the store up to the last that is not all zeros: its number, its
// text and its words.
//
// All cases share a store, so that words which a call should have set to 0 show what the case before left there.
#![tactic(auto)]

ghost use Rattle.std.specs.Prelude.{◌≤◌, length};

use formats::{Inferred, Unformed, infer_formats};
use listing::Turned;
use shapes::display::display_format;
use std::io;
use std::io::{Read, Write};
use test_cases::{LABEL, LAW, answer_cases, read_law};

#[cfg(test)]
mod tests;

// The words of a store: 128 formats.
const STORE: usize = 8320;

// The words of a format.
const FORMAT: usize = 65;

// The bytes that are lent for a format's text.
const TEXT: usize = 4096;

// The number of words up to the last that is not 0.
fn used_words(words: &[u32]) -> usize
    ensures { result ≤ length words.now }
{
    match words.iter().rposition(|&word| word != 0) {
        Some(last) => last + 1,
        None => 0,
    }
}

// Writes a format's text.
fn print_text<W: Write>(output: &mut W, format: &[u32]) -> io::Result<()> {
    let mut text = [0u8; TEXT];
    match display_format(format, &mut text, 0) {
        Some(end) if end <= TEXT => output.write_all(&text[..end]),
        Some(_) => Ok(()),
        None => output.write_all(b"no room"),
    }
}

// Writes a format's line.
fn print_format<W: Write>(output: &mut W, k: usize, format: &[u32]) -> io::Result<()> {
    write!(output, "  {k} ")?;
    print_text(output, format)?;
    for word in &format[..used_words(format)] {
        write!(output, " {word}")?;
    }
    output.write_all(b"\n")
}

// Writes the formats of a store up to the last that is not all zeros.
fn print_store<W: Write>(output: &mut W, store: &[u32]) -> io::Result<()> {
    let formats = used_words(store).div_ceil(FORMAT);
    for (k, format) in store.chunks_exact(FORMAT).take(formats).enumerate() {
        print_format(output, k, format)?;
    }
    Ok(())
}

// Why no formats are inferred, as the calls of a listing have it.
fn turned_by(why: Unformed) -> Turned {
    match why {
        Unformed::Refused(refusal) => Turned::File(refusal),
        Unformed::TooWide => Turned::Shapes,
        Unformed::StoreShort => Turned::Store,
    }
}

// Writes the end of a case's line, and the formats.
fn print_answer<W: Write>(
    output: &mut W,
    answer: Result<Inferred, Unformed>,
    store: &[u32],
) -> io::Result<()> {
    match answer {
        Ok(inferred) => {
            let rounds = inferred.rounds;
            let settled = if inferred.settled {
                "settled"
            } else {
                "unsettled"
            };
            writeln!(output, " {rounds} rounds {settled}")?;
            print_store(output, store)
        }
        Err(why) => {
            let number = u32::from(turned_by(why));
            writeln!(output, " refused {number}")
        }
    }
}

// Reads a law and answers it, and says whether there may be another case. A law that does not fit or is cut short is left without
// an answer.
fn answer_law<R: Read, W: Write>(
    input: &mut R,
    output: &mut W,
    space: &mut [u8],
    store: &mut [u32],
) -> io::Result<bool> {
    let Some(bytes) = read_law(input, space)? else {
        return Ok(false);
    };
    let answer = infer_formats(&space[..bytes], store);
    print_answer(output, answer, store)?;
    Ok(true)
}

// How many words of a store to lend for a label: one less where it asks for a short store.
fn lent_words(label: &[u8]) -> usize
    ensures { result ≤ 8320 }
{
    if label.starts_with(b"short") {
        STORE - 1
    } else {
        STORE
    }
}

// Reads one case and answers it, and says whether there may be another.
fn answer_case<R: Read, W: Write>(
    input: &mut R,
    output: &mut W,
    label: &[u8],
    space: &mut [u8],
    store: &mut [u32; STORE],
) -> io::Result<bool> {
    let words = lent_words(label);
    answer_law(input, output, space, &mut store[..words])
}

fn main(rt: HostRuntime) -> io::Result<()> {
    let mut label = [0u8; LABEL];
    let mut space = [0u8; LAW];
    let mut store = [0u32; STORE];
    answer_cases(
        rt.alloc(),
        rt.stdin(),
        rt.stdout(),
        &mut label,
        b"",
        |input, output, label| answer_case(input, output, label, &mut space, &mut store),
    )
}
