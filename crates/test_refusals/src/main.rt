// Puts cases through the findings call and the text call, and says what they answer and what every lent word holds then.
//
// A case is a label as the crate `test_cases` reads it; these words: the mode, the number of overrides, the overrides, the words
// of a store, the words of findings and the bytes of text that are lent, a finding's position; and a law as `test_cases` reads it.
//
// Before each call every lent word and byte is given a value of its own, which no call writes. After the answer come all
// words in order, as numbers and as `kept` where a word has its value still, with `*` and a number for so many in a row.
#![tactic(auto)]

use listing::{Listed, Turned, findings, text};
use std::io;
use std::io::{Read, Write};
use test_cases::lent::{Run, changed_bytes, fill_bytes, fill_words, print_run, print_words};
use test_cases::{
    LABEL, LAW, Settings, answer_cases, read_at_most, read_law, read_settings, read_word,
};

// The most that can be lent: more words than a store has, more than 512 findings have, more bytes than a text has.
const STORE: usize = 8400;

const WORDS: usize = 4200;

const TEXT: usize = 2048;

const OVERRIDES: usize = 16;

// The first values that are given to words before a call; each later word has the next one.
const STORE_FIRST: u32 = 0xa5a50000;

const WORDS_FIRST: u32 = 0x5a5a0000;

// What can be lent to the calls.
#[derive(Drop)]
struct Lent<'a> {
    store: &'a mut [u32],
    words: &'a mut [u32],
    bytes: &'a mut [u8],
}

// Writes the bytes up to the last that was changed, and how many are kept after it.
fn print_text<W: Write>(output: &mut W, bytes: &[u8]) -> io::Result<()> {
    let end = changed_bytes(bytes);
    if end > 0 {
        output.write_all(b" ")?;
        output.write_all(&bytes[..end])?;
    }
    let kept = Run {
        value: None,
        count: (bytes.len() - end) as u64,
    };
    print_run(output, kept)?;
    output.write_all(b"\n")
}

// Writes the number of a refusal.
fn print_refused<W: Write>(output: &mut W, why: Turned) -> io::Result<()> {
    let number = u32::from(why);
    writeln!(output, "refused {number}")
}

// Writes the answer of the findings call: how many findings there are, how many rounds ran, and whether the last of these changed
// nothing.
fn print_found<W: Write>(output: &mut W, answer: Result<Listed, Turned>) -> io::Result<()> {
    output.write_all(b"  findings ")?;
    match answer {
        Ok(
            Listed {
                count,
                rounds,
                settled,
            },
        ) => {
            let settled = u8::from(settled);
            writeln!(output, "{count} {rounds} {settled}")
        }
        Err(why) => print_refused(output, why),
    }
}

// Writes the answer of the text call.
fn print_told<W: Write>(output: &mut W, answer: Result<usize, Turned>) -> io::Result<()> {
    output.write_all(b"  text ")?;
    match answer {
        Ok(bytes) => writeln!(output, "{bytes}"),
        Err(why) => print_refused(output, why),
    }
}

// Makes the findings call.
fn call_findings<W: Write>(
    output: &mut W,
    settings: &Settings,
    law: &[u8],
    store: &mut [u32],
    words: &mut [u32],
) -> io::Result<()> {
    fill_words(store, STORE_FIRST);
    fill_words(words, WORDS_FIRST);
    let answer = findings(settings.mode, settings.overrides, law, store, words);
    print_found(output, answer)?;
    output.write_all(b"    store")?;
    print_words(output, store, STORE_FIRST)?;
    output.write_all(b"    words")?;
    print_words(output, words, WORDS_FIRST)
}

// Makes the text call.
fn call_text<W: Write>(
    output: &mut W,
    settings: &Settings,
    law: &[u8],
    store: &mut [u32],
    position: usize,
    bytes: &mut [u8],
) -> io::Result<()> {
    fill_words(store, STORE_FIRST);
    fill_bytes(bytes);
    let answer = text(
        settings.mode,
        settings.overrides,
        law,
        store,
        position,
        bytes,
    );
    print_told(output, answer)?;
    output.write_all(b"    store")?;
    print_words(output, store, STORE_FIRST)?;
    output.write_all(b"    bytes")?;
    print_text(output, bytes)
}

// Makes both calls with parts of what can be lent, as a case asks, and says whether there may be another case. A law that does not
// fit or is cut short is left without an answer.
fn answer_law<R: Read, W: Write>(
    input: &mut R,
    output: &mut W,
    settings: &Settings,
    space: &mut [u8],
    lent: &mut Lent,
) -> io::Result<bool> {
    let store = read_at_most(input, lent.store.len())?;
    let words = read_at_most(input, lent.words.len())?;
    let bytes = read_at_most(input, lent.bytes.len())?;
    let position = read_word(input)? as usize;
    let Some(end) = read_law(input, space)? else {
        return Ok(false);
    };
    let law = &space[..end];
    let store = &mut lent.store[..store];
    call_findings(output, settings, law, store, &mut lent.words[..words])?;
    let bytes = &mut lent.bytes[..bytes];
    call_text(output, settings, law, store, position, bytes)?;
    Ok(true)
}

// Reads one case and answers it, and says whether there may be another.
fn answer_case<R: Read, W: Write>(
    input: &mut R,
    output: &mut W,
    space: &mut [u8],
    lent: &mut Lent,
) -> io::Result<bool> {
    let mut overrides = [0u32; OVERRIDES];
    let settings = read_settings(input, &mut overrides)?;
    answer_law(input, output, &settings, space, lent)
}

fn main(rt: HostRuntime) -> io::Result<()> {
    let mut label = [0u8; LABEL];
    let mut space = [0u8; LAW];
    let mut lent = Lent {
        store: &mut [0u32; STORE],
        words: &mut [0u32; WORDS],
        bytes: &mut [0u8; TEXT],
    };
    answer_cases(
        rt.alloc(),
        rt.stdin(),
        rt.stdout(),
        &mut label,
        b"\n",
        |input, output, _| answer_case(input, output, &mut space, &mut lent),
    )
}
