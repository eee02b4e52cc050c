// Text that is put into a lent buffer, one piece after another.
ghost use Rattle.std.specs.Prelude.{[], ◌∷◌, ◌+◌, ◌≤◌, length};
ghost use Rattle.buffers.specs.Code.Put.{largest};
ghost use Rattle.buffers.specs.Code.Text.{Puts};
ghost use Rattle.buffers.specs.Decimal.{decimal};

use crate::{put, put_byte, put_decimal};

// A lent buffer, and the position after all that was put there so far, whether or not there was room for it.
#[derive(Drop)]
pub struct Text<'a> {
    pub out: &'a mut [u8],
    pub at: usize,
}

impl Text<'_> {
    // Puts bytes.
    pub fn put(&mut self, piece: &[u8])
        requires { self.old.at + length piece.now ≤ largest }
        ensures { Puts self.old self.new piece.now }
    {
        self.at = put(piece, self.out, self.at);
    }

    // Puts one byte.
    pub fn put_byte(&mut self, byte: u8)
        requires { self.old.at + 1 ≤ largest }
        ensures { Puts self.old self.new (byte ∷ []) }
    {
        self.at = put_byte(byte, self.out, self.at);
    }

    // Puts a number in decimal digits.
    pub fn put_decimal(&mut self, n: usize)
        requires { self.old.at + 20 ≤ largest }
        ensures { (self.new.at ≤ self.old.at + 20) × Puts self.old self.new (decimal n) }
    {
        self.at = put_decimal(n, self.out, self.at);
    }
}
