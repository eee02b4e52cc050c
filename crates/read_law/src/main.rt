// Reads the law that standard input has as text, and writes its law file.
//
// A text that is refused gives one line in its place: `refused` and document 02's number.
#![tactic(auto)]

use input::read_full;
use reader::read;
use std::io;
use std::io::Write;

// One byte more than a text may have, so that a longer input is seen to be too long, and no more of it is read.
const TEXT: usize = 4097;

// The bytes of a law file, at most.
const LAW: usize = 16384;

// Reads a text into a buffer, and writes its law file, or `refused` and the number.
fn write_law<W: Write>(output: &mut W, text: &[u8], law: &mut [u8]) -> io::Result<()> {
    match read(text, law) {
        Ok(bytes) => output.write_all(&law[..bytes]),
        Err(why) => {
            let number = u32::from(why);
            writeln!(output, "refused {number}")
        }
    }
}

// An input that can't be read ends there, and nothing tells that the output can't be written.
fn main(rt: HostRuntime) {
    let mut text = [0u8; TEXT];
    let mut law = [0u8; LAW];
    let (bytes, _) = read_full(&mut rt.stdin(), &mut text);
    let _ = write_law(&mut rt.stdout(), &text[..bytes], &mut law);
}
