// Reads a law typed as text: the law file of a text, in a lent buffer.
#![tactic(auto)]

ghost use Rattle.std.specs.Prelude.{◌≤◌, List, ◌≡◌, length};
ghost use Rattle.file.specs.Answer.{given};
ghost use Rattle.tokens.specs.Token.{Placed};
ghost use Rattle.tokens.specs.Code.Arrays.{Lexes};
ghost use Rattle.grammar.specs.Read.{phrase_of};
ghost use Rattle.encoding.specs.Code.FlatFile.{flat_file};
ghost use Rattle.writing.specs.Code.Held.{HeldIn, Stand};
ghost use Rattle.reader.specs.Outcome.{law_file, phrase_file, read_by, read_outcome, unread_number, read_after};
ghost use Rattle.reader.specs.declared.Unread.TheVariants.{Law};

use buffers::put;
use file::Refusal;
use grammar::accepts;
use law::check_law;
use tokens::kinds::Kind;
use tokens::{Lexeme, lex_text};
use writing::{Ahead, Source};

// Why a text is not read.
#[derive(Clone, Copy, PartialEq, Eq, Debug)]
pub enum Unread {
    TextOver,
    Outside,
    Law(Refusal),
    Short,
}

impl From<Refusal> for Unread {
    ghost from_gives = { λ why unread. unread ≡ Law why };

    fn from(why: Refusal) -> Unread {
        Unread::Law(why)
    }
}

// Document 02's number of a refusal.
impl From<Unread> for u32 {
    ghost from_gives = { λ why number. number ≡ unread_number why };

    fn from(why: Unread) -> u32 {
        match why {
            Unread::TextOver => 4,
            Unread::Outside => 16,
            Unread::Law(of_law) => u32::from(of_law),
            Unread::Short => 17,
        }
    }
}

// Puts a file at the start of a buffer; refused where the buffer is too short. The number of bytes written.
fn deliver(file: &[u8], law: &mut [u8]) -> Result<usize, Unread>
    requires { length file.now ≤ 16384 }
    ensures { read_after result law.new ≡ read_by law.old (given file.now) }
{
    if law.len() < file.len() {
        return Err(Unread::Short);
    }
    let end = put(file, law, 0);
    Ok(end)
}

// The same, once the file is found to be a law.
fn deliver_law(file: &[u8], law: &mut [u8]) -> Result<usize, Unread>
    requires { length file.now ≤ 16384 }
    ensures { read_after result law.new ≡ read_by law.old (law_file file.now) }
{
    check_law(file)?;
    deliver(file, law)
}

// The same of the file that tokens say.
fn deliver_tokens(
    source: &Source,
    ahead: &mut [Ahead],
    file: &mut [u8],
    law: &mut [u8],
) -> Result<usize, Unread>
    requires { (length source.now.tokens.now ≤ length ahead.old) × (length file.old ≡ 16384) }
    ensures { (ts : List Placed) → HeldIn source.now.tokens.now ts → Stand source.now.text.now ts
        → read_after result law.new ≡ read_by law.old (law_file (flat_file source.now.text.now ts)) }
{
    let end = source.put_file(ahead, file);
    if 16384 < end {
        return Err(Unread::Law(Refusal::FileOver));
    }
    deliver_law(&file[..end], law)
}

// The same of the text's tokens, where they spell a text.
fn deliver_text(
    text: &[u8],
    tokens: &[Lexeme],
    ahead: &mut [Ahead],
    file: &mut [u8],
    law: &mut [u8],
) -> Result<usize, Unread>
    requires { (length text.now ≤ 4096) × (length ahead.old ≡ 4096) × (length file.old ≡ 16384)
        × Lexes text.now (length tokens.now) tokens.now }
    ensures { read_after result law.new ≡ read_by law.old (phrase_file text.now (phrase_of text.now)) }
{
    if !accepts(tokens) {
        return Err(Unread::Outside);
    }
    deliver_tokens(&Source { text, tokens }, ahead, file, law)
}

// Reads a text of at most 4,096 bytes, with arrays lent for its tokens, for what is ahead of each, and for its file.
fn read_lent(
    text: &[u8],
    tokens: &mut [Lexeme; 4096],
    ahead: &mut [Ahead; 4096],
    file: &mut [u8],
    law: &mut [u8],
) -> Result<usize, Unread>
    requires { (length text.now ≤ 4096) × (length tokens.old ≡ 4096) × (length ahead.old ≡ 4096) × (length file.old ≡ 16384) }
    ensures { read_after result law.new ≡ read_by law.old (phrase_file text.now (phrase_of text.now)) }
{
    let n = lex_text(text, tokens).ok_or(Unread::Outside)?;
    deliver_text(text, &tokens[..n], ahead, file, law)
}

// Reads a text into a law file. The number of bytes written.
pub fn read(text: &[u8], law: &mut [u8]) -> Result<usize, Unread>
    ensures { read_after result law.new ≡ read_outcome text.now law.old }
{
    if 4096 < text.len() {
        return Err(Unread::TextOver);
    }
    let none = Lexeme {
        kind: Kind::Identifier,
        start: 0,
        end: 0,
    };
    let mut tokens = [none; 4096];
    let mut ahead = [Ahead {
        closer: 0,
        records: 0,
    }; 4096];
    let mut file = [0u8; 16384];
    read_lent(text, &mut tokens, &mut ahead, &mut file, law)
}
