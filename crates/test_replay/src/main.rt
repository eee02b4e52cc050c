// Lists stored laws and writes each finding with its text. The stored output is what the Rust lists of these laws, but for
// the named differences, at which the label tells the Rust's line. `oracle sample` writes both.
//
// A case is a label as the crate `test_cases` reads it, but of up to 1,023 bytes; these words: the mode, the number of overrides,
// the overrides; and a law as `test_cases` reads it.
//
// The label is written again. A line follows for each finding: lint, severity, span, a, b, and the text. Function position
// and subject, which the Rust has no counterpart of, are left out.
#![tactic(auto)]

use listing::{Turned, findings, text};
use std::io;
use std::io::{Read, Write};
use test_cases::{LAW, Settings, answer_cases, read_law, read_settings};

// A label's most bytes, with its line feed. It may quote what the Rust lists.
const LABEL: usize = 1024;

// The words of a store: 128 formats.
const STORE: usize = 8320;

// The words of 256 findings.
const WORDS: usize = 2048;

// The words of a finding that are written.
const WRITTEN: usize = 6;

// More bytes than a text has.
const TEXT: usize = 2048;

const OVERRIDES: usize = 8;

// Writes `refused` and the number.
fn print_refused<W: Write>(output: &mut W, why: Turned) -> io::Result<()> {
    let number = u32::from(why);
    write!(output, "refused {number}")
}

// Writes the text that the text call put into a buffer, or its refusal.
fn print_told<W: Write>(
    output: &mut W,
    answer: Result<usize, Turned>,
    bytes: &[u8],
) -> io::Result<()> {
    match answer {
        Ok(written) => output.write_all(&bytes[..written.min(bytes.len())]),
        Err(why) => print_refused(output, why),
    }
}

// Writes the line of the finding at a position.
fn print_finding<W: Write>(
    output: &mut W,
    settings: &Settings,
    law: &[u8],
    store: &mut [u32],
    words: &[u32],
    position: usize,
) -> io::Result<()> {
    let mut bytes = [0u8; TEXT];
    output.write_all(b"  ")?;
    for word in words.iter().take(WRITTEN) {
        write!(output, "{word} ")?;
    }
    let told = text(
        settings.mode,
        settings.overrides,
        law,
        store,
        position,
        &mut bytes,
    );
    print_told(output, told, &bytes)?;
    output.write_all(b"\n")
}

// Writes a line for each of so many findings.
// All words go with the number of findings: `take` asks for no proof that there are so many.
fn print_findings<W: Write>(
    output: &mut W,
    settings: &Settings,
    law: &[u8],
    store: &mut [u32],
    words: &[u32],
    count: usize,
) -> io::Result<()> {
    for (i, finding) in words.chunks_exact(8).take(count).enumerate() {
        print_finding(output, settings, law, store, finding, i)?;
    }
    Ok(())
}

// Lists the findings of a law with their texts.
fn list<W: Write>(output: &mut W, settings: &Settings, law: &[u8]) -> io::Result<()> {
    let mut store = [0u32; STORE];
    let mut words = [0u32; WORDS];
    let answer = findings(
        settings.mode,
        settings.overrides,
        law,
        &mut store,
        &mut words,
    );
    match answer {
        Ok(listed) => print_findings(output, settings, law, &mut store, &words, listed.count),
        Err(why) => {
            output.write_all(b"  ")?;
            print_refused(output, why)?;
            output.write_all(b"\n")
        }
    }
}

// Reads one case and lists its law, and says whether there may be another. A law that does not fit or is cut short is left
// without a listing.
fn list_case<R: Read, W: Write>(input: &mut R, output: &mut W) -> io::Result<bool> {
    let mut overrides = [0u32; OVERRIDES];
    let settings = read_settings(input, &mut overrides)?;
    let mut space = [0u8; LAW];
    let Some(bytes) = read_law(input, &mut space)? else {
        return Ok(false);
    };
    list(output, &settings, &space[..bytes])?;
    Ok(true)
}

// What a case is, or what is lent for it, differs between the test programs. `answer_cases` has what they share.
fn main(rt: HostRuntime) -> io::Result<()> {
    let mut label = [0u8; LABEL];
    answer_cases(
        rt.alloc(),
        rt.stdin(),
        rt.stdout(),
        &mut label,
        b"\n",
        |input, output, _| list_case(input, output),
    )
}
