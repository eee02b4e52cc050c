// Says of each law on standard input whether it is accepted or why it is refused.
//
// The crate `test_cases` says what a case is. The answer is a line: the label, a space, and `accepted` or `refused` and
// document 01's number.
#![tactic(auto)]

use file::Refusal;
use law::check_law;
use std::io;
use std::io::{Read, Write};
use test_cases::{LABEL, LAW, answer_cases, read_law};

// Writes the end of a case's line.
fn print_answer<W: Write>(output: &mut W, answer: Result<(), Refusal>) -> io::Result<()> {
    match answer {
        Ok(()) => writeln!(output, " accepted"),
        Err(why) => {
            let number = u32::from(why);
            writeln!(output, " refused {number}")
        }
    }
}

// Reads a law and answers it, and says whether there may be another case. A law that does not fit or is cut short is left without
// an answer.
fn answer_law<R: Read, W: Write>(
    input: &mut R,
    output: &mut W,
    space: &mut [u8],
) -> io::Result<bool> {
    let Some(bytes) = read_law(input, space)? else {
        return Ok(false);
    };
    print_answer(output, check_law(&space[..bytes]))?;
    Ok(true)
}

// What a case is, or what is lent for it, differs between the test programs. `answer_cases` has what they share.
fn main(rt: HostRuntime) -> io::Result<()> {
    let mut label = [0u8; LABEL];
    let mut space = [0u8; LAW];
    answer_cases(
        rt.alloc(),
        rt.stdin(),
        rt.stdout(),
        &mut label,
        b"",
        |input, output, _| answer_law(input, output, &mut space),
    )
}
