// The tokens of a law typed as text.
#![tactic(auto)]

ghost use Rattle.std.specs.Prelude.{◌≤◌, ◌≡◌, length};
ghost use Rattle.tokens.specs.Code.Arrays.{LexedAs};

use crate::kinds::Kind;
use crate::pieces::{Found, next_piece};

mod atoms;
pub mod characters;
pub mod kinds;
mod pieces;

// A token of a text: its kind, and the bytes where it starts and ends.
#[derive(Clone, Copy, PartialEq, Eq, Debug)]
pub struct Lexeme {
    pub kind: Kind,
    pub start: u16,
    pub end: u16,
}

// The number of a text's tokens, which stand in the first places of the array; none where the text is not made of pieces.
pub fn lex_text(text: &[u8], tokens: &mut [Lexeme; 4096]) -> Option<usize>
    requires { (length text.now ≤ 4096) × (length tokens.old ≡ 4096) }
    ensures { (length tokens.new ≡ 4096) × LexedAs text.now result tokens.new }
{
    let mut at = 0;
    let mut n = 0;
    // The sizes of pieces differ, so no `for` goes over the bytes.
    while at < text.len() {
        match next_piece(text, at)? {
            Found::Between(end) => {
                at = end;
            }
            Found::Token(kind, end) => {
                tokens[n] = Lexeme {
                    kind,
                    start: at as u16,
                    end: end as u16,
                };
                n += 1;
                at = end;
            }
        }
    }
    Some(n)
}
