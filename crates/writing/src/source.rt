// A text and its tokens: what stands at a place, and what is found from a place on.
ghost use Rattle.std.specs.Prelude.{◌≤◌, length};

use tokens::Lexeme;
use tokens::kinds::Kind;

// A text and its tokens.
#[derive(Clone, Copy)]
pub struct Source<'a> {
    pub text: &'a [u8],
    pub tokens: &'a [Lexeme],
    pub ghost short: { length text.now ≤ 4096 },
    pub ghost few: { length tokens.now ≤ 4096 },
}

impl<'a> Source<'a> {
    ghost use Rattle.std.specs.Prelude.{◌<◌, ◌≡◌, eqb, drop, get_or};
    ghost use Rattle.tokens.specs.Code.TokenKind.{kind_code};
    ghost use Rattle.tokens.specs.Code.Arrays.{kinds_in, starts_in, ends_in};
    ghost use Rattle.writing.specs.Code.Found.{place_of, count_kinds};

    // Is the token at a place of this kind?
    pub(crate) fn is_at(&self, kind: Kind, i: usize) -> bool
        ensures { result ≡ eqb (get_or (kinds_in self.now.tokens.now) i 0) (kind_code kind) }
    {
        i < self.tokens.len() && self.tokens[i].kind == kind
    }

    // Where a token starts in the text; 0 past the last.
    // 0 and no `Option`, as the definitions have it where no token is (`first_start` and `end_of_kind` of the crate `encoding`).
    pub(crate) fn start_at(&self, i: usize) -> u32
        ensures { (result ≡ get_or (starts_in self.now.tokens.now) i 0) × (result < 65536) }
    {
        self.tokens.get(i).map_or(0, |token| u32::from(token.start))
    }

    // Where it ends; 0 past the last.
    // Not one with `start_at`: over a closure for the field it is no shorter.
    pub(crate) fn end_at(&self, i: usize) -> u32
        ensures { (result ≡ get_or (ends_in self.now.tokens.now) i 0) × (result < 65536) }
    {
        self.tokens.get(i).map_or(0, |token| u32::from(token.end))
    }

    // The place of the first token of a kind from a place on; past the last where there is none.
    pub(crate) fn place_of(&self, kind: Kind, from: usize) -> usize
        requires { from ≤ length self.now.tokens.now }
        ensures { (result ≡ place_of (kind_code kind) from (kinds_in self.now.tokens.now)) × (result ≤ length self.now.tokens.now) }
    {
        for i in from..self.tokens.len() {
            if self.is_at(kind, i) {
                return i;
            }
        }
        self.tokens.len()
    }

    // The number of tokens of a kind before the first of another, from a place on.
    pub(crate) fn count(&self, kind: Kind, stop: Kind, from: usize) -> u32
        requires { from ≤ length self.now.tokens.now }
        ensures { result ≡ count_kinds (kind_code kind) (kind_code stop) (drop from (kinds_in self.now.tokens.now)) }
    {
        let mut n = 0;
        for i in from..self.tokens.len() {
            if self.is_at(stop, i) {
                return n;
            }
            if self.is_at(kind, i) {
                n += 1;
            }
        }
        n
    }
}
