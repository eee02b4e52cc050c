// Puts laws through the exported calls, as a loader and an editor make them, and writes what they return and what is lent after them.
//
// A case is a label as the crate `test_cases` reads it; these words: the mode, the number of overrides, the overrides; and a law as `test_cases` reads it.
//
// Before a call every word and byte has a value that no call writes. After it come the answer, all words of findings or all bytes of text, and the first
// and the last words of the store. Texts are asked for from position 0 on, until one is refused; each is asked for again with one byte too few.
#![tactic(auto)]

ghost use Rattle.std.specs.Prelude.{◌≤◌, IfOk};

use loader::{load, show};
use std::io;
use std::io::{Read, Write};
use test_cases::{LABEL, LAW, Settings, answer_cases, read_law, read_settings};

// Four words more than a store has; the words of seven findings; more bytes than a text of these laws has.
const STORE: usize = 8324;

const WORDS: usize = 56;

const TEXT: usize = 144;

const OVERRIDES: usize = 8;

// More positions than these laws have findings.
const POSITIONS: usize = 9;

// What words, answers and bytes are before a call.
const WORD: u32 = 99999;

const ANSWER: u64 = 99999;

const BYTE: u8 = b'#';

// Writes words, eight on a line.
fn print_words<W: Write>(output: &mut W, words: &[u32]) -> io::Result<()> {
    for (i, word) in words.iter().enumerate() {
        if i % 8 == 0 {
            output.write_all(b"\n   ")?;
        }
        write!(output, " {word}")?;
    }
    Ok(())
}

// Writes the first eight words of a store, its last eight, and those after them.
fn print_store<W: Write>(output: &mut W, store: &[u32; STORE]) -> io::Result<()> {
    output.write_all(b"\n  store")?;
    print_words(output, &store[..8])?;
    print_words(output, &store[8312..])?;
    output.write_all(b"\n")
}

// Makes the findings call.
fn load_law<W: Write>(output: &mut W, settings: &Settings, law: &[u8]) -> io::Result<()> {
    let mut store = [WORD; STORE];
    let mut words = [WORD; WORDS];
    let mut answer = [ANSWER; 3];
    let number = load(
        settings.mode,
        settings.overrides,
        law,
        &mut store,
        &mut words,
        &mut answer,
    );
    let [count, rounds, settled] = answer;
    write!(
        output,
        "  findings call: {number}; {count} {rounds} {settled}"
    )?;
    print_words(output, &words)?;
    print_store(output, &store)
}

// Makes the text call, and answers how many bytes it wrote: none where the answer is as before the call.
fn show_text<W: Write>(
    output: &mut W,
    settings: &Settings,
    law: &[u8],
    position: usize,
    text: &mut [u8],
) -> io::Result<usize>
    ensures { IfOk result (λ bytes. bytes ≤ 144) }
{
    let mut store = [WORD; STORE];
    let mut answer = ANSWER;
    let number = show(
        settings.mode,
        settings.overrides,
        law,
        &mut store,
        position,
        text,
        &mut answer,
    );
    write!(output, "  text call: {number}; {answer}\n    ")?;
    output.write_all(text)?;
    print_store(output, &store)?;
    Ok(if answer <= TEXT as u64 {
        answer as usize
    } else {
        0
    })
}

// Makes the text call, then with one byte too few, and says whether there is a text.
fn show_twice<W: Write>(
    output: &mut W,
    settings: &Settings,
    law: &[u8],
    position: usize,
) -> io::Result<bool> {
    let mut text = [BYTE; TEXT];
    let bytes = show_text(output, settings, law, position, &mut text)?;
    if bytes == 0 {
        return Ok(false);
    }
    let mut short = [BYTE; TEXT];
    show_text(output, settings, law, position, &mut short[..bytes - 1])?;
    Ok(true)
}

// Makes the text calls for each position, until one is refused.
fn show_all<W: Write>(output: &mut W, settings: &Settings, law: &[u8]) -> io::Result<()> {
    for position in 0..POSITIONS {
        if !show_twice(output, settings, law, position)? {
            break;
        }
    }
    Ok(())
}

// Reads one case and answers it, and says whether there may be another. A law that does not fit or is cut short is left without an answer.
fn answer_case<R: Read, W: Write>(input: &mut R, output: &mut W) -> io::Result<bool> {
    let mut overrides = [0u32; OVERRIDES];
    let settings = read_settings(input, &mut overrides)?;
    let mut space = [0u8; LAW];
    let Some(bytes) = read_law(input, &mut space)? else {
        return Ok(false);
    };
    load_law(output, &settings, &space[..bytes])?;
    show_all(output, &settings, &space[..bytes])?;
    Ok(true)
}

// What a case is, or what is lent for it, differs between the test programs. `answer_cases` has what they share.
fn main(rt: HostRuntime) -> io::Result<()> {
    let mut label = [0u8; LABEL];
    answer_cases(
        rt.alloc(),
        rt.stdin(),
        rt.stdout(),
        &mut label,
        b"\n",
        |input, output, _| answer_case(input, output),
    )
}
