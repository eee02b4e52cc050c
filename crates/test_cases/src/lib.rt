// Reads the cases of the test programs from their input, and hands them over. What they lend to a call is filled and written by
// the module `lent`.
//
// A case is a label, one line of at most 80 bytes; the law's length, a 32-bit word with its least byte first; and the
// law. Where a program asks for more, such as settings, their words stand after the label. The input ends where a label is
// empty.
#![tactic(auto)]

ghost use Rattle.std.specs.Prelude.{◌≡◌, ◌<◌, ◌≤◌, IfOk, IfSome, length};
ghost use Rattle.std.specs.Io.{ReadsAtMost};

use std::alloc::Global;
use std::io;
use std::io::{BufWriter, Read, Write};

pub mod lent;

// A label's most bytes, with its line feed.
pub const LABEL: usize = 81;

// A law's most bytes: a few more than the 16,384 that a law file may have.
pub const LAW: usize = 16400;

// Reads until the buffer is full or the input ends, and answers how many bytes stand at the buffer's start then.
pub fn read_full<R: Read>(input: &mut R, buffer: &mut [u8]) -> io::Result<usize>
    ensures { ReadsAtMost result buffer.new }
{
    let (done, read) = input::read_full(input, buffer);
    read?;
    Ok(done)
}

// The next byte of the input, or a line feed where it has ended.
fn next_byte<R: Read>(input: &mut R) -> io::Result<u8> {
    let mut byte = [b'\n'];
    read_full(input, &mut byte)?;
    Ok(byte[0])
}

// Reads a label and its line feed, and answers how many bytes the label has: none where the input has ended.
pub fn read_label<R: Read>(input: &mut R, label: &mut [u8]) -> io::Result<usize>
    ensures { ReadsAtMost result label.new }
{
    for n in 0..label.len() {
        let byte = next_byte(input)?;
        if byte == b'\n' {
            return Ok(n);
        }
        label[n] = byte;
    }
    Ok(label.len())
}

// The next word of the input, with zeros for the bytes that are missing.
pub fn read_word<R: Read>(input: &mut R) -> io::Result<u32>
    ensures { IfOk result (λ word. word < 4294967296) }
{
    let mut word = [0u8; 4];
    read_full(input, &mut word)?;
    Ok(u32::from_le_bytes(word))
}

// Reads a number, at most so many.
pub fn read_at_most<R: Read>(input: &mut R, most: usize) -> io::Result<usize>
    ensures { IfOk result (λ number. number ≤ most) }
{
    let asked = read_word(input)? as usize;
    Ok(asked.min(most))
}

// The settings of a call.
#[derive(Clone, Copy)]
pub struct Settings<'a> {
    pub mode: u32,
    pub overrides: &'a [u32],
}

// Reads the number of overrides and the overrides, and answers how many there are.
pub fn read_overrides<R: Read>(input: &mut R, overrides: &mut [u32]) -> io::Result<usize>
    ensures { IfOk result (λ count. count ≤ length overrides.new) }
{
    let count = read_at_most(input, overrides.len())?;
    for word in overrides[..count].iter_mut() {
        *word = read_word(input)?;
    }
    Ok(count)
}

// Reads the mode and the overrides.
pub fn read_settings<'a, R: Read>(
    input: &mut R,
    overrides: &'a mut [u32],
) -> io::Result<Settings<'a>> {
    let mode = read_word(input)?;
    let count = read_overrides(input, overrides)?;
    Ok(Settings {
        mode,
        overrides: &overrides[..count],
    })
}

// Reads a law's length and the law, and answers the length, or none where the law has no room or is cut short.
pub fn read_law<R: Read>(input: &mut R, space: &mut [u8]) -> io::Result<Option<usize>>
    ensures { IfOk result (λ found. IfSome found (λ bytes. bytes ≤ length space.old)) }
{
    let bytes = read_word(input)? as usize;
    if space.len() < bytes {
        return Ok(None);
    }
    let got = read_full(input, &mut space[..bytes])?;
    Ok(if got < bytes { None } else { Some(bytes) })
}

// Answers every case: reads its label into the bytes that are lent for it, writes the label and what is to stand after that, and
// hands the case to `answer`, which says whether there may be another. Nothing says that the input ends, so the loop counts up to
// a number that no run reaches.
pub fn answer_cases<
    R: Read + Drop,
    W: Write + Drop,
    F: Drop + FnMut(&mut R, &mut BufWriter<W>, &[u8]) -> io::Result<bool>,
>(
    alloc: Global,
    mut input: R,
    output: W,
    label: &mut [u8],
    after_label: &[u8],
    mut answer: F,
) -> io::Result<()>
    requires { F.IsAlwaysCallable answer }
{
    let mut output = BufWriter::new(alloc, output)?;
    for _ in 0..u64::MAX {
        let n = read_label(&mut input, label)?;
        if n == 0 {
            break;
        }
        output.write_all(&label[..n])?;
        output.write_all(after_label)?;
        if !answer(&mut input, &mut output, &label[..n])? {
            break;
        }
    }
    output.flush()
}
