// Lists the findings of the law file on standard input, in strict mode and with no override of a lint's level.
//
// It writes a line with the number of findings, the rounds that ran, and 1 where the last of them changed nothing, else 0.
// A line with its eight words follows for each finding. A law that is refused gives one line: `refused` and document 01's
// number.
#![tactic(auto)]

use input::read_full;
use listing::{Listed, findings};
use std::io;
use std::io::{BufWriter, Write};

// One byte more than a law file may have, so that a longer input is seen to be too long, and no more of it is read.
const LAW: usize = 16385;

// The words of a store: 128 formats.
const STORE: usize = 8320;

// The words of 256 findings.
const WORDS: usize = 2048;

const STRICT: u32 = 1;

// Writes a finding's words on a line.
fn print_finding<W: Write>(output: &mut W, finding: &[u32]) -> io::Result<()> {
    for (i, word) in finding.iter().enumerate() {
        let gap = if i == 0 { "" } else { " " };
        write!(output, "{gap}{word}")?;
    }
    output.write_all(b"\n")
}

// Writes how many findings there are, how many rounds ran, and 1 where the last of these changed nothing; then the findings.
fn print_listed<W: Write>(output: &mut W, listed: Listed, words: &[u32]) -> io::Result<()> {
    let Listed {
        count,
        rounds,
        settled,
    } = listed;
    let settled = u8::from(settled);
    writeln!(output, "{count} {rounds} {settled}")?;
    for finding in words.chunks_exact(8).take(count) {
        print_finding(output, finding)?;
    }
    Ok(())
}

// Lists the findings of a law, or writes `refused` and the number.
fn list<W: Write>(output: &mut W, law: &[u8]) -> io::Result<()> {
    let mut store = [0u32; STORE];
    let mut words = [0u32; WORDS];
    match findings(STRICT, &[], law, &mut store, &mut words) {
        Ok(listed) => print_listed(output, listed, &words),
        Err(why) => {
            let number = u32::from(why);
            writeln!(output, "refused {number}")
        }
    }
}

// Lists the findings of a law, by way of a buffer.
fn list_buffered(rt: &HostRuntime, law: &[u8]) -> io::Result<()> {
    let mut output = BufWriter::new(rt.alloc(), rt.stdout())?;
    list(&mut output, law)?;
    output.flush()
}

// An input that can't be read ends there, and nothing tells that the output can't be written.
fn main(rt: HostRuntime) {
    let mut law = [0u8; LAW];
    let (bytes, _) = read_full(&mut rt.stdin(), &mut law);
    let _ = list_buffered(&rt, &law[..bytes]);
}
