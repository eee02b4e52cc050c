// Hands bytes over one by one, as an editor does while a number is typed, and writes the answer to each and the state after the last.
//
// A case is a label as the crate `test_cases` reads it; the state before the first byte, as two words of which the lower comes first; and the bytes as
// `test_cases` reads a law.
#![tactic(auto)]

use loader::mark;
use std::io;
use std::io::{Read, Write};
use test_cases::{LABEL, LAW, answer_cases, read_law, read_word};

// Reads a state.
fn read_state<R: Read>(input: &mut R) -> io::Result<u64> {
    let low = u64::from(read_word(input)?);
    let high = u64::from(read_word(input)?);
    Ok(high * 4294967296 + low)
}

// Hands all bytes over.
fn mark_all<W: Write>(output: &mut W, start: u64, bytes: &[u8]) -> io::Result<()> {
    let mut state = start;
    output.write_all(b"  ")?;
    for &byte in bytes {
        let answer = mark(&mut state, byte);
        write!(output, "{answer}")?;
    }
    writeln!(output, " {state}")
}

// Reads one case and answers it, and says whether there may be another. Bytes that do not fit or are cut short are left without an answer.
fn answer_case<R: Read, W: Write>(
    input: &mut R,
    output: &mut W,
    space: &mut [u8],
) -> io::Result<bool> {
    let start = read_state(input)?;
    let Some(bytes) = read_law(input, space)? else {
        return Ok(false);
    };
    mark_all(output, start, &space[..bytes])?;
    Ok(true)
}

// What a case is, or what is lent for it, differs between the test programs. `answer_cases` has what they share.
fn main(rt: HostRuntime) -> io::Result<()> {
    let mut label = [0u8; LABEL];
    let mut space = [0u8; LAW];
    answer_cases(
        rt.alloc(),
        rt.stdin(),
        rt.stdout(),
        &mut label,
        b"\n",
        |input, output, _| answer_case(input, output, &mut space),
    )
}
