// What the test programs lend to a call: each word and byte is given a value before it, which the calls do not write, and all are
// written after it, with `kept` in place of those that have their value still.
ghost use Rattle.std.specs.Prelude.{◌≤◌, length};

use std::io;
use std::io::Write;

// The first value that is given to bytes, and the last, after which the first comes again. No finding's text and no
// page has such bytes.
pub const BYTE_FIRST: u8 = 128;

const BYTE_LAST: u8 = 250;

// What the answer's word holds before a call.
pub const ANSWER: u64 = 99999;

// A value, or none for one that was given and is kept, and how often it was met in a row.
#[derive(Clone, Copy)]
pub struct Run {
    pub value: Option<u64>,
    pub count: u64,
}

// The value of the word after one with this value.
fn next_word(value: u32) -> u32 {
    value.wrapping_add(1)
}

// The value of the byte after one with this value.
pub fn next_byte(value: u8) -> u8 {
    if value < BYTE_LAST {
        value + 1
    } else {
        BYTE_FIRST
    }
}

// Gives each word or byte a value: the first one, and each later one the next.
fn fill<T: Copy, N: Fn(T) -> T>(values: &mut [T], first: T, next: N)
    requires { N.IsAlwaysCallable next }
{
    let mut value = first;
    for place in values.iter_mut() {
        *place = value;
        value = next(value);
    }
}

// Gives each word a value of its own.
pub fn fill_words(words: &mut [u32], first: u32) {
    fill(words, first, next_word);
}

// Gives each byte a value.
pub fn fill_bytes(bytes: &mut [u8]) {
    fill(bytes, BYTE_FIRST, next_byte);
}

// Writes a value after a space, and, where it was met more than once, `*` and how often.
pub fn print_run<W: Write>(output: &mut W, run: Run) -> io::Result<()> {
    if run.count == 0 {
        return Ok(());
    }
    match run.value {
        Some(value) => write!(output, " {value}")?,
        None => output.write_all(b" kept")?,
    }
    if run.count > 1 {
        let count = run.count;
        write!(output, "*{count}")?;
    }
    Ok(())
}

// The values in a row with one more. A row that has ended is written.
pub fn with_value<W: Write>(output: &mut W, run: Run, value: Option<u64>) -> io::Result<Run> {
    if run.value == value {
        return Ok(Run {
            value,
            count: run.count.wrapping_add(1),
        });
    }
    print_run(output, run)?;
    Ok(Run { value, count: 1 })
}

// Writes what words or bytes are now that were given a first value and the next ones, in order, and ends the line.
fn print_values<W: Write, T: Copy + PartialEq + Into<u64>, N: Fn(T) -> T>(
    output: &mut W,
    values: &[T],
    first: T,
    next: N,
) -> io::Result<()>
    requires { N.IsAlwaysCallable next }
{
    let mut run = Run {
        value: None,
        count: 0,
    };
    let mut given = first;
    for &value in values {
        let now = if value == given {
            None
        } else {
            Some(value.into())
        };
        run = with_value(output, run, now)?;
        given = next(given);
    }
    print_run(output, run)?;
    output.write_all(b"\n")
}

// Writes what all words are now, in order, and ends the line.
pub fn print_words<W: Write>(output: &mut W, words: &[u32], first: u32) -> io::Result<()> {
    print_values(output, words, first, next_word)
}

// Writes what all bytes are now, in order, and ends the line.
pub fn print_bytes<W: Write>(output: &mut W, bytes: &[u8]) -> io::Result<()> {
    print_values(output, bytes, BYTE_FIRST, next_byte)
}

// The number of bytes up to the last that has another value than it was given.
pub fn changed_bytes(bytes: &[u8]) -> usize
    ensures { result ≤ length bytes.now }
{
    let mut given = BYTE_FIRST;
    let mut end = 0;
    for (i, &byte) in bytes.iter().enumerate() {
        if byte != given {
            end = i + 1;
        }
        given = next_byte(given);
    }
    end
}

// Writes a word and a number.
pub fn print_said<W: Write>(output: &mut W, said: &[u8], number: u64) -> io::Result<()> {
    output.write_all(said)?;
    writeln!(output, "{number}")
}

// Writes the number that the call returned, or its answer. After a refusal the answer's word is written only where it changed.
pub fn print_returned<W: Write>(output: &mut W, number: u32, answer: u64) -> io::Result<()> {
    if number == 0 {
        return print_said(output, b"  written ", answer);
    }
    print_said(output, b"  refused ", u64::from(number))?;
    if answer != ANSWER {
        print_said(output, b"  answer ", answer)?;
    }
    Ok(())
}
