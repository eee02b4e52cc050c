// A run of terms between separators: the number of its records, and where it ends.
ghost use Rattle.std.specs.Prelude.{◌-◌, ◌≤◌, ◌≡◌, List, not, length, take, drop};
ghost use Rattle.names.specs.Name.{between};
ghost use Rattle.tokens.specs.Token.{Placed};
ghost use Rattle.tokens.specs.Code.TokenKind.{kind_code};
ghost use Rattle.encoding.specs.Code.FlatTerms.{inside as where_inside, kind_at, end_at, weight};
ghost use Rattle.encoding.specs.Code.FlatFile.{part_records, part_end};
ghost use Rattle.writing.specs.Code.Held.{HeldIn, Stands, Stand};
ghost use Rattle.writing.specs.Code.Found.{count_starts, run_state};

use crate::kinds::parts_terms;
use crate::source::Source;
use tokens::Lexeme;
use tokens::kinds::Kind;

// Does a byte begin a character? Else it goes on with one.
fn begins_character(b: u8) -> bool
    ensures { result ≡ not (between 128 191 b) }
{
    !matches!(b, 128..=191)
}

impl<'a> Source<'a> {
    // The number of characters in the bytes from a place to another.
    fn character_count(&self, from: usize, to: usize) -> u32
        ensures { (result ≡ count_starts (take (to - from) (drop from self.now.text.now))) × (result ≤ 4096) }
    {
        let mut n = 0;
        for i in from..to.min(self.text.len()) {
            if begins_character(self.text[i]) {
                n += 1;
            }
        }
        n
    }

    // The number of records that begin with a token inside braces; the name of a call has none.
    pub(crate) fn weight(&self, token: Lexeme, calling: bool) -> u32
        ensures { (result ≤ 4096)
            × ((p : Placed) → kind_code token.kind ≡ kind_at p → token.start ≡ p.start → token.end ≡ end_at p → Stands self.now.text.now p
            → result ≡ weight (run_state calling) p) }
    {
        match token.kind {
            Kind::LeftBracket | Kind::LeftAngle => 1,
            _ if calling => 0,
            Kind::Quoted => {
                let end = usize::from(token.end).saturating_sub(1);
                self.character_count(usize::from(token.start) + 1, end)
            }
            Kind::Identifier | Kind::Number => 1,
            Kind::SymbolVariable | Kind::TermVariable | Kind::ExpressionVariable => 1,
            _ => 0,
        }
    }

    // The number of records of the run from a place on.
    pub(crate) fn part_records(&self, from: usize) -> u32
        requires { from ≤ 4097 }
        ensures { (ts : List Placed) → HeldIn self.now.tokens.now ts → Stand self.now.text.now ts
            → result ≡ part_records where_inside (drop from ts) }
    {
        let mut n = 0;
        let mut calling = false;
        for i in from..self.tokens.len() {
            let token = self.tokens[i];
            if parts_terms(token.kind) {
                return n;
            }
            n += self.weight(token, calling);
            calling = self.is_at(Kind::LeftAngle, i);
        }
        n
    }

    // Where the last token of the run from a place on ends; another place where it has none.
    pub(crate) fn part_end(&self, other: u32, from: usize) -> u32
        ensures { (ts : List Placed) → HeldIn self.now.tokens.now ts → result ≡ part_end other (drop from ts) }
    {
        let mut end = other;
        for i in from..self.tokens.len() {
            let token = self.tokens[i];
            if parts_terms(token.kind) {
                return end;
            }
            end = u32::from(token.end);
        }
        end
    }
}
