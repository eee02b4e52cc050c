// Writes the listing of the law file on standard input as a page, in strict mode and with no override of a lint's level.
//
// A law that is refused gives one line in its place: `refused` and document 01's number.
#![tactic(auto)]

use input::read_full;
use listing::page;
use std::io;
use std::io::Write;

// One byte more than a law file may have, so that a longer input is seen to be too long, and no more of it is read.
const LAW: usize = 16385;

// The words of a store: 128 formats.
const STORE: usize = 8320;

// The bytes of the longest page: 256 findings under five headings, 73 bytes each, so that no page is refused as too long.
const PAGE: usize = 19053;

const STRICT: u32 = 1;

// Makes the page of a law in a buffer, and writes it, or `refused` and the number.
fn write_page<W: Write>(
    output: &mut W,
    law: &[u8],
    store: &mut [u32],
    out: &mut [u8],
) -> io::Result<()> {
    match page(STRICT, &[], law, store, out) {
        Ok(bytes) => output.write_all(&out[..bytes]),
        Err(why) => {
            let number = u32::from(why);
            writeln!(output, "refused {number}")
        }
    }
}

// An input that can't be read ends there, and nothing tells that the output can't be written.
fn main(rt: HostRuntime) {
    let mut law = [0u8; LAW];
    let mut store = [0u32; STORE];
    let mut out = [0u8; PAGE];
    let (bytes, _) = read_full(&mut rt.stdin(), &mut law);
    let _ = write_page(&mut rt.stdout(), &law[..bytes], &mut store, &mut out);
}
