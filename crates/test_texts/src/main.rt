// Puts texts through the exported reading call, as an editor makes it, and says what it answers and what every lent byte holds then.
//
// A case is a label as the crate `test_cases` reads it; a word, the bytes of the buffer that is lent; and a text, which stands
// there as a law does.
//
// Before each call every lent byte is given a value. After the answer come all bytes in order, as numbers and as `kept` where a
// byte has its value still, with `*` and a number for so many in a row.
#![tactic(auto)]

use loader::read;
use std::io;
use std::io::{Read, Write};
use test_cases::lent::{ANSWER, fill_bytes, print_bytes, print_returned};
use test_cases::{LABEL, LAW, answer_cases, read_at_most, read_law};

// Makes the call.
fn call_read<W: Write>(output: &mut W, text: &[u8], law: &mut [u8]) -> io::Result<()> {
    let mut answer = ANSWER;
    fill_bytes(law);
    let number = read(text, law, &mut answer);
    print_returned(output, number, answer)?;
    output.write_all(b"    bytes")?;
    print_bytes(output, law)
}

// Makes the call with a part of the buffer, as a case asks, and says whether there may be another case. A text that does not fit
// or is cut short is left without an answer.
fn answer_text<R: Read, W: Write>(
    input: &mut R,
    output: &mut W,
    space: &mut [u8],
    law: &mut [u8],
) -> io::Result<bool> {
    let lent = read_at_most(input, law.len())?;
    let Some(bytes) = read_law(input, space)? else {
        return Ok(false);
    };
    call_read(output, &space[..bytes], &mut law[..lent])?;
    Ok(true)
}

fn main(rt: HostRuntime) -> io::Result<()> {
    let mut label = [0u8; LABEL];
    let mut space = [0u8; LAW];
    let mut law = [0u8; LAW];
    answer_cases(
        rt.alloc(),
        rt.stdin(),
        rt.stdout(),
        &mut label,
        b"\n",
        |input, output, _| answer_text(input, output, &mut space, &mut law),
    )
}
