// The records of an identifier, a number, a variable, and the characters between quotes.
ghost use Rattle.std.specs.Prelude.{ℕ, ◌+◌, ◌<◌, ◌≤◌, ◌≡◌, List};
ghost use Rattle.buffers.specs.Code.Put.{Put};
ghost use Rattle.tokens.specs.Token.{Placed};
ghost use Rattle.tokens.specs.Code.TokenKind.{kind_code};
ghost use Rattle.encoding.specs.Encode.{records_bytes, character_records};
ghost use Rattle.encoding.specs.Code.FlatTerms.{inside as where_inside, own, kind_at, end_at};
ghost use Rattle.writing.specs.Code.Held.{Stands, Spans};
ghost use Rattle.writing.specs.Code.Found.{record_kind};

use crate::records::put_record;
use crate::source::Source;
use tokens::Lexeme;
use tokens::characters::Characters;
use tokens::kinds::Kind;

// The number in a term record of a token that has one record of its own.
// A function and no `From`: `Kind` is of the crate `tokens`, and these numbers are of the law file.
fn record_kind(kind: Kind) -> Option<u32>
    ensures { result ≡ record_kind kind }
{
    match kind {
        Kind::Identifier => Some(1),
        Kind::Number => Some(2),
        Kind::SymbolVariable => Some(3),
        Kind::TermVariable => Some(4),
        Kind::ExpressionVariable => Some(5),
        _ => None,
    }
}

// The records of the characters from a place to another.
fn put_characters(text: &[u8], from: usize, to: usize, out: &mut [u8], at: usize) -> usize
    requires { (at ≤ 1000000000000000) × (from ≤ 65536) × (to ≤ 4096) }
    ensures { (at ≤ result) × (result ≤ at + 1680000)
        × ((cs : List ℕ) → Spans text.now from to cs → Put out.old at (records_bytes (character_records from cs)) result out.new) }
{
    let mut next = at;
    for (i, c) in (Characters { text, at: from }) {
        if i >= to {
            return next;
        }
        let end = i + c.len_utf8();
        next = put_record(&[0, c as u32, 0, 0, i as u32, end as u32], out, next);
    }
    next
}

impl<'a> Source<'a> {
    // The records of a token that is no bracket and no name of a call.
    pub(crate) fn put_atom(&self, token: Lexeme, out: &mut [u8], at: usize) -> usize
        requires { at ≤ 1000000000000000 }
        ensures { (at ≤ result) × (result ≤ at + 1680000)
            × ((p : Placed) → kind_code token.kind ≡ kind_at p → token.start ≡ p.start → token.end ≡ end_at p → Stands self.now.text.now p
            → Put out.old at (records_bytes (own where_inside p)) result out.new) }
    {
        let start = u32::from(token.start);
        let end = u32::from(token.end);
        if let Kind::Quoted = token.kind {
            if end > 4096 {
                return at;
            }
            let to = end.saturating_sub(1);
            return put_characters(self.text, start as usize + 1, to as usize, out, at);
        }
        let Some(kind) = record_kind(token.kind) else {
            return at;
        };
        let size = end.saturating_sub(start);
        if kind < 3 {
            return put_record(&[kind, start, size, 0, start, end], out, at);
        }
        let name = size.saturating_sub(2);
        put_record(&[kind, start + 2, name, 0, start, end], out, at)
    }
}
