// Reads an input into a lent buffer.
#![tactic(auto)]

ghost use Rattle.std.specs.Prelude.{◌≤◌, length};

use std::io;
use std::io::Read;

// Reads until the buffer is full, the input ends or it can't be read, and answers how many bytes stand at the buffer's start
// then, and whether it could be read so far.
// A `while`, since each read brings as many bytes as it likes. `read_exact` does not say how many came.
pub fn read_full<R: Read>(input: &mut R, buffer: &mut [u8]) -> (usize, io::Result<()>)
    ensures { result.0 ≤ length buffer.new }
{
    let mut done = 0;
    while done < buffer.len() {
        match input.read(&mut buffer[done..]) {
            Ok(0) => break,
            Ok(bytes) => done += bytes,
            Err(why) => return (done, Err(why)),
        }
    }
    (done, Ok(()))
}
