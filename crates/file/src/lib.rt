// A law file: its sections, the words of its records, and the fields that refusal 5 looks at.
#![tactic(auto)]

ghost use Rattle.std.specs.Prelude.{ℕ, ◌≡◌, true, ◌&&◌, ◌+◌, ◌*◌, ◌≤◌, ◌<◌, length, drop, leb};
ghost use Rattle.file.specs.Word.{word_at};
ghost use Rattle.file.specs.Answer.{given, map_answer};
ghost use Rattle.file.specs.Sections.{section, number_of, answer_of, sections_of, file_of};
ghost use Rattle.file.specs.Code.Counts.{counts_of, counted_of};
ghost use Rattle.file.specs.Code.Text.{Named};
ghost use Rattle.file.specs.Head.{term_from, term_at};
ghost use Rattle.file.specs.Fields.{spelled, scalar_allowed, term_allowed, function_fields_at, term_fields_at, functions_allowed, terms_allowed, fields_allowed};
ghost use Rattle.names.specs.Name.{name_allowed, number_allowed};

use names::{is_name, is_number, length_allowed, name_bytes, name_in};

// Why a file is no law. `number_of` of specs/Sections.antt gives each its number in document 01's table.
#[derive(Clone, Copy, PartialEq, Eq, Debug)]
pub enum Refusal {
    FileOver,
    CutOff,
    LeftOver,
    CountOver,
    Fields,
    Runs,
    Blocks,
    Depth,
    Patterns,
}

// The counts of the five sections.
#[derive(Clone, Copy)]
pub struct Sections {
    pub text: usize,
    pub functions: usize,
    pub sentences: usize,
    pub conditions: usize,
    pub terms: usize,
}

// Where the records of sections 2 to 5 begin in a law.
// The limits are asked for and stand in no ghost field, since `counts_of` of specs/Code/Counts.antt has such counts of any file.
impl Sections {
    pub fn functions_at(self) -> usize
        requires { self.text ≤ 4096 }
        ensures { result ≡ 8 + self.text }
    {
        8 + self.text
    }

    pub fn sentences_at(self) -> usize
        requires { (self.text ≤ 4096) × (self.functions ≤ 64) }
        ensures { result ≡ 12 + self.text + 20 * self.functions }
    {
        self.functions_at() + 20 * self.functions + 4
    }

    pub fn conditions_at(self) -> usize
        requires { (self.text ≤ 4096) × (self.functions ≤ 64) × (self.sentences ≤ 128) }
        ensures { result ≡ 16 + self.text + 20 * self.functions + 20 * self.sentences }
    {
        self.sentences_at() + 20 * self.sentences + 4
    }

    pub fn terms_at(self) -> usize
        requires { (self.text ≤ 4096) × (self.functions ≤ 64) × (self.sentences ≤ 128) × (self.conditions ≤ 128) }
        ensures { result ≡ 20 + self.text + 20 * self.functions + 20 * self.sentences + 16 * self.conditions }
    {
        self.conditions_at() + 16 * self.conditions + 4
    }
}

// A section's count, and the position after its records.
#[derive(Clone, Copy)]
struct Counted {
    count: usize,
    end: usize,
}

// The three symbol kinds: a scalar value, or the start and length of a spelling in the text.
#[derive(Clone, Copy)]
pub enum Symbol {
    Character(u32),
    Identifier(u32, u32),
    Number(u32, u32),
}

// A term record. Names and indices are a start and a length in the text; a block has a number of sentences.
#[derive(Clone, Copy)]
pub enum Term {
    Symbol(Symbol),
    SVariable(u32, u32),
    TVariable(u32, u32),
    EVariable(u32, u32),
    Bracket,
    Call(u32, u32),
    Block(u32),
}

// Document 01's number of a file's refusal.
impl From<Refusal> for u32 {
    ghost from_gives = { λ why number. number ≡ number_of why };

    fn from(why: Refusal) -> u32 {
        match why {
            Refusal::FileOver => 1,
            Refusal::CutOff => 2,
            Refusal::LeftOver => 3,
            Refusal::CountOver => 4,
            Refusal::Fields => 5,
            Refusal::Runs => 6,
            Refusal::Blocks => 7,
            Refusal::Depth => 8,
            Refusal::Patterns => 9,
        }
    }
}

// The word at a byte position, least byte first.
pub fn word_at(s: &[u8], at: usize) -> u32
    requires { at + 4 ≤ length s.now }
    ensures { result ≡ word_at s.now at }
{
    u32::from_le_bytes([s[at], s[at + 1], s[at + 2], s[at + 3]])
}

// The term that a kind and the words a and b say.
// The words of a record go one by one, here and in the tests of fields, as the definitions of specs/Head.antt and specs/Fields.antt take them.
fn term_from(kind: u32, a: u32, b: u32) -> Term
    ensures { result ≡ term_from kind a b }
{
    match kind {
        0 => Term::Symbol(Symbol::Character(a)),
        1 => Term::Symbol(Symbol::Identifier(a, b)),
        2 => Term::Symbol(Symbol::Number(a, b)),
        3 => Term::SVariable(a, b),
        4 => Term::TVariable(a, b),
        5 => Term::EVariable(a, b),
        6 => Term::Bracket,
        7 => Term::Call(a, b),
        _ => Term::Block(a),
    }
}

// The term record at a byte position.
pub fn term_at(s: &[u8], at: usize) -> Term
    requires { at + 24 ≤ length s.now }
    ensures { result ≡ term_at s.now at }
{
    term_from(word_at(s, at), word_at(s, at + 4), word_at(s, at + 8))
}

// The section at a byte position. The count is held to its limit before it is multiplied, so that the product cannot wrap.
fn section_at(law: &[u8], at: usize, limit: usize, size: usize) -> Result<Counted, Refusal>
    requires { (at ≤ length law.now) × (limit ≤ 4096) × (size ≤ 24) }
    ensures { answer_of result ≡ map_answer (counted_of law.now) (section limit size (drop at law.now)) }
{
    let left = law.len() - at;
    if left < 4 {
        return Err(Refusal::CutOff);
    }
    let count = word_at(law, at) as usize;
    if limit < count {
        return Err(Refusal::CountOver);
    }
    if left - 4 < size * count {
        return Err(Refusal::CutOff);
    }
    let end = at + 4 + size * count;
    Ok(Counted { count, end })
}

// The counts of the five sections, or why the file cannot be cut into them.
pub fn sections_of(law: &[u8]) -> Result<Sections, Refusal>
    ensures { answer_of result ≡ map_answer counts_of (sections_of law.now) }
{
    if 16384 < law.len() {
        return Err(Refusal::FileOver);
    }
    let text = section_at(law, 0, 4096, 1)?;
    let functions = section_at(law, text.end, 64, 20)?;
    let sentences = section_at(law, functions.end, 128, 20)?;
    let conditions = section_at(law, sentences.end, 128, 16)?;
    let terms = section_at(law, conditions.end, 512, 24)?;
    if terms.end < law.len() {
        return Err(Refusal::LeftOver);
    }
    Ok(Sections {
        text: text.count,
        functions: functions.count,
        sentences: sentences.count,
        conditions: conditions.count,
        terms: terms.count,
    })
}

// The text of a law, and whether it is known that all its bytes are those of names.
#[derive(Clone, Copy)]
struct Text<'a> {
    bytes: &'a [u8],
    named: bool,
    ghost named_means: { Named named bytes.now },
}

impl<'a> Text<'a> {
    // The text of a law of so many term records. A text that is long for so many records is not read, since most of it may be in no record.
    fn new(bytes: &'a [u8], records: usize) -> Self
        ensures { result.bytes.now ≡ bytes.now }
    {
        let named = bytes.len() / 8 <= records && name_bytes(bytes);
        Text { bytes, named }
    }

    // Does a part of the text end inside it? The sum is taken as a `usize`, since that of two words may pass 2^32.
    fn holds(&self, start: u32, len: u32) -> bool
        ensures { result ≡ leb (start + len) (length self.now.bytes.now) }
    {
        start as usize + len as usize <= self.bytes.len()
    }

    // Does a name stand there, inside the text? Where all bytes of the text are those of names its length decides, so that a spelling that
    // many records share is not read for each of them.
    fn has_name(&self, start: u32, len: u32) -> bool
        ensures { result ≡ spelled name_allowed self.now.bytes.now start len }
    {
        if !self.holds(start, len) {
            return false;
        }
        if self.named {
            return length_allowed(len as usize);
        }
        is_name(name_in(self.bytes, start as usize, len as usize))
    }

    // Does a number stand there, inside the text?
    fn has_number(&self, start: u32, len: u32) -> bool
        ensures { result ≡ spelled number_allowed self.now.bytes.now start len }
    {
        self.holds(start, len) && is_number(name_in(self.bytes, start as usize, len as usize))
    }
}

// A Unicode scalar value.
pub fn scalar_allowed(a: u32) -> bool
    ensures { result ≡ scalar_allowed a }
{
    a <= 0x10FFFF && !matches!(a, 0xD800..=0xDFFF)
}

// Is it a character below the surrogates, and no more? The three words that are then 0 are added as `usize`, since one test is
// quicker than three.
fn is_plain(kind: u32, a: u32, b: u32, n: u32) -> bool
    ensures { result ≡ true → (kind ≡ 0) × (a < 55296) × (b ≡ 0) × (n ≡ 0) }
{
    kind as usize + b as usize + n as usize == 0 && a < 0xD800
}

// Are these the fields of a term record that a law may have? A plain character is asked first, since most terms of a long law are
// characters, and a jump by the kind takes longer.
fn term_allowed(text: &Text, kind: u32, a: u32, b: u32, n: u32) -> bool
    ensures { result ≡ term_allowed text.now.bytes.now kind a b n }
{
    if is_plain(kind, a, b, n) {
        return true;
    }
    match kind {
        0 => scalar_allowed(a) && b == 0 && n == 0,
        1 | 3 | 4 | 5 => text.has_name(a, b) && n == 0,
        2 => text.has_number(a, b) && n == 0,
        6 => a == 0 && b == 0,
        7 => text.has_name(a, b),
        8 => b == 0,
        _ => false,
    }
}

// Does a function record say a name?
fn function_allowed(text: &Text, fields: &[u8]) -> bool
    requires { length fields.now ≡ 20 }
    ensures { result ≡ function_fields_at text.now.bytes.now fields.now 0 }
{
    text.has_name(word_at(fields, 0), word_at(fields, 4))
}

// Does each function record say a name?
// Not one loop with `terms_allowed` over a size and a test: its contract would ask for what the test says of each record, and reads no plainer.
fn functions_allowed(text: &Text, functions: &[u8]) -> bool
    ensures { (count : ℕ) → length functions.now ≡ 20 * count → result ≡ functions_allowed text.now.bytes.now functions.now count }
{
    for fields in functions.chunks_exact(20) {
        if !function_allowed(text, fields) {
            return false;
        }
    }
    true
}

// Does a term record have fields that a law may have?
fn record_allowed(text: &Text, fields: &[u8]) -> bool
    requires { length fields.now ≡ 24 }
    ensures { result ≡ term_fields_at text.now.bytes.now fields.now 0 }
{
    term_allowed(
        text,
        word_at(fields, 0),
        word_at(fields, 4),
        word_at(fields, 8),
        word_at(fields, 12),
    )
}

// Does each term record have fields that a law may have?
fn terms_allowed(text: &Text, terms: &[u8]) -> bool
    ensures { (count : ℕ) → length terms.now ≡ 24 * count → result ≡ terms_allowed text.now.bytes.now terms.now count }
{
    for fields in terms.chunks_exact(24) {
        if !record_allowed(text, fields) {
            return false;
        }
    }
    true
}

// Whether every field of the functions and terms is allowed (refusal 5).
pub fn fields_allowed(law: &[u8], sections: Sections) -> bool
    requires { (sections_of law.now ≡ given (file_of law.now)) × (counts_of (file_of law.now) ≡ sections) }
    ensures { result ≡ fields_allowed (file_of law.now) }
{
    let text = Text::new(&law[4..4 + sections.text], sections.terms);
    let functions_at = sections.functions_at();
    let functions = &law[functions_at..functions_at + 20 * sections.functions];
    functions_allowed(&text, functions) && terms_allowed(&text, &law[sections.terms_at()..])
}
