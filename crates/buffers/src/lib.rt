// What is written into lent buffers: words copied and cleared, and text put at a position.
//
// What puts text does so as far as there is room, and gives the position after all of it in any case, so that with an empty buffer
// it measures.
#![tactic(auto)]

ghost use Rattle.std.specs.Prelude.{◌≡◌, [], ◌∷◌, ◌+◌, ◌≤◌, length, replicate};
ghost use Rattle.buffers.specs.Code.Put.{Put, largest};
ghost use Rattle.buffers.specs.Decimal.{decimal};

pub use crate::text::Text;

mod text;

// Every word of the one list into the other.
pub fn copy_words(from: &[u32], to: &mut [u32])
    requires { length from.now ≡ length to.old }
    ensures { to.new ≡ from.now }
{
    for i in 0..from.len() {
        to[i] = from[i];
    }
}

// Every word is 0.
pub fn clear_words(words: &mut [u32])
    ensures { words.new ≡ replicate (length words.old) 0 }
{
    words.fill(0);
}

// Bytes put at a position, as far as there is room. The position after all of them in any case.
// This and the next two take a buffer and a position: `Text` is made of them, and records of a law file are put at places of their own.
pub fn put(piece: &[u8], out: &mut [u8], at: usize) -> usize
    requires { at + length piece.now ≤ largest }
    ensures { Put out.old at piece.now result out.new }
{
    let fits = piece.len().min(out.len().saturating_sub(at));
    for i in 0..fits {
        out[at + i] = piece[i];
    }
    at + piece.len()
}

// The same of one byte.
pub fn put_byte(byte: u8, out: &mut [u8], at: usize) -> usize
    requires { at + 1 ≤ largest }
    ensures { Put out.old at (byte ∷ []) result out.new }
{
    let next = at + 1;
    if at < out.len() {
        out[at] = byte;
    }
    next
}

// A number in decimal digits.
// Not by `write!`, which a full buffer ends with an error: here the position after all digits is answered in any case.
pub fn put_decimal(n: usize, out: &mut [u8], at: usize) -> usize
    requires { at + 20 ≤ largest }
    ensures { (result ≤ at + 20) × Put out.old at (decimal n) result out.new }
{
    if n < 10 {
        return put_byte(b'0' + n as u8, out, at);
    }
    let next = put_decimal(n / 10, out, at);
    put_byte(b'0' + (n % 10) as u8, out, next)
}
