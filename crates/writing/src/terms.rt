// The section of terms.
ghost use Rattle.std.specs.Prelude.{◌+◌, ◌<◌, ◌≤◌, List, ◌≡◌, length, drop, get_or};
ghost use Rattle.buffers.specs.Code.Put.{Put};
ghost use Rattle.tokens.specs.Token.{Placed};
ghost use Rattle.tokens.specs.Code.TokenKind.{kind_code};
ghost use Rattle.tokens.specs.Code.Arrays.{kinds_in};
ghost use Rattle.encoding.specs.Encode.{records_bytes, section_bytes};
ghost use Rattle.encoding.specs.Code.FlatTerms.{outside as where_outside, where_after, terms_at, flat_terms};
ghost use Rattle.writing.specs.Code.Held.{HeldIn, Stand, at_first};
ghost use Rattle.writing.specs.Code.Closers.{Nested};
ghost use Rattle.writing.specs.Code.Found.{bracket_at, call_at};
ghost use Rattle.writing.specs.Code.Place.{where_of};

use crate::brackets::Ahead;
use crate::records::{put_count, put_record};
use crate::source::Source;
use tokens::kinds::Kind;

// Where a token stands: outside braces, inside, or inside after `<`.
#[derive(Clone, Copy, PartialEq, Eq, Debug)]
enum Place {
    Outside,
    Inside,
    Calling,
}

impl Place {
    // Where the token after one of this kind stands.
    fn after(self, kind: Kind) -> Place
        ensures { where_of result ≡ where_after (where_of self) (kind_code kind) }
    {
        match (self, kind) {
            (_, Kind::LeftBrace) => Place::Inside,
            (_, Kind::RightBrace) | (Place::Outside, _) => Place::Outside,
            (_, Kind::LeftAngle) => Place::Calling,
            _ => Place::Inside,
        }
    }
}

impl<'a> Source<'a> {
    // The record of the bracket that a token opens.
    fn put_bracket(&self, ahead: &[Ahead], i: usize, out: &mut [u8], at: usize) -> usize
        requires { (at ≤ 1000000000000000) × (length self.now.tokens.now ≤ length ahead.now) × (i < length self.now.tokens.now)
            × (get_or (kinds_in self.now.tokens.now) i 0 ≡ 40) }
        ensures { (result ≡ at + 24)
            × ((ts : List Placed) → Nested self.now.tokens.now ahead.now ts
            → Put out.old at (records_bytes (at_first bracket_at (drop i ts))) result out.new) }
    {
        let inner = i + 1;
        let records = self.inner_records(ahead, inner);
        let end = self.inner_end(ahead, inner);
        put_record(&[6, 0, 0, records, self.start_at(i), end], out, at)
    }

    // The record of the call that a token opens.
    // Not one with `put_bracket`: a bracket has no name, and 0 in its place.
    fn put_call(&self, ahead: &[Ahead], i: usize, out: &mut [u8], at: usize) -> usize
        requires { (at ≤ 1000000000000000) × (length self.now.tokens.now ≤ length ahead.now) × (i < length self.now.tokens.now)
            × (get_or (kinds_in self.now.tokens.now) i 0 ≡ 60) }
        ensures { (result ≡ at + 24)
            × ((ts : List Placed) → Nested self.now.tokens.now ahead.now ts
            → Put out.old at (records_bytes (at_first call_at (drop i ts))) result out.new) }
    {
        let inner = i + 1;
        let name = self.start_at(inner);
        let size = self.end_at(inner).saturating_sub(name);
        let records = self.inner_records(ahead, inner);
        let end = self.inner_end(ahead, inner);
        put_record(&[7, name, size, records, self.start_at(i), end], out, at)
    }

    // The records that begin with a token.
    fn put_term(&self, ahead: &[Ahead], place: Place, i: usize, out: &mut [u8], at: usize) -> usize
        requires { (at ≤ 1000000000000000) × (length self.now.tokens.now ≤ length ahead.now) × (i < length self.now.tokens.now) }
        ensures { (at ≤ result) × (result ≤ at + 1680000)
            × ((ts : List Placed) → Nested self.now.tokens.now ahead.now ts → Stand self.now.text.now ts
            → Put out.old at (records_bytes (at_first (terms_at (where_of place)) (drop i ts))) result out.new) }
    {
        let token = self.tokens[i];
        match token.kind {
            Kind::LeftBracket => self.put_bracket(ahead, i, out, at),
            Kind::LeftAngle => self.put_call(ahead, i, out, at),
            _ => match place {
                Place::Inside => self.put_atom(token, out, at),
                Place::Outside | Place::Calling => at,
            },
        }
    }

    // The section of terms: the records, and their number before them.
    pub(crate) fn term_section(&self, ahead: &mut [Ahead], out: &mut [u8], at: usize) -> usize
        requires { (at ≤ 900000000000) × (length self.now.tokens.now ≤ length ahead.old) }
        ensures { (result ≤ at + 6881280004)
            × ((ts : List Placed) → HeldIn self.now.tokens.now ts → Stand self.now.text.now ts
            → Put out.old at (section_bytes (flat_terms where_outside ts)) result out.new) }
    {
        self.look_ahead(ahead);
        let mut next = at + 4;
        let mut place = Place::Outside;
        for i in 0..self.tokens.len() {
            next = self.put_term(ahead, place, i, out, next);
            place = place.after(self.tokens[i].kind);
        }
        put_count(24, out, at, next)
    }
}
