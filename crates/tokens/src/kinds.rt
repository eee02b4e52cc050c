// The kinds of tokens.
ghost use Rattle.std.specs.Prelude.{◌≡◌, MatchResult};
ghost use Rattle.tokens.specs.Code.TokenKind.{kind_code, NoKind, sign_of, variable_of};

// What a token is: a name, a number, a variable, a quoted run, or a sign.
#[derive(Clone, Copy, PartialEq, Eq, Debug)]
pub enum Kind {
    Identifier,
    Number,
    SymbolVariable,
    TermVariable,
    ExpressionVariable,
    Quoted,
    LeftBrace,
    RightBrace,
    LeftBracket,
    RightBracket,
    LeftAngle,
    RightAngle,
    Comma,
    Colon,
    Equals,
    Semicolon,
    Entry,
    Extern,
}

// A number that no kind has.
#[derive(Clone, Copy, PartialEq, Eq, Debug)]
pub struct UnknownCode(pub u8);

// The kind of a number. `kind_code` of specs/Code/TokenKind.antt numbers them.
impl TryFrom<u8> for Kind {
    type Error = UnknownCode;

    ghost try_from_gives = { λ code r. MatchResult r (λ kind. kind_code kind ≡ code) (λ e. (e.0 ≡ code) × NoKind code) };

    fn try_from(code: u8) -> Result<Kind, UnknownCode> {
        match code {
            1 => Ok(Kind::Identifier),
            2 => Ok(Kind::Number),
            3 => Ok(Kind::SymbolVariable),
            4 => Ok(Kind::TermVariable),
            5 => Ok(Kind::ExpressionVariable),
            6 => Ok(Kind::Quoted),
            b'{' => Ok(Kind::LeftBrace),
            b'}' => Ok(Kind::RightBrace),
            b'(' => Ok(Kind::LeftBracket),
            b')' => Ok(Kind::RightBracket),
            b'<' => Ok(Kind::LeftAngle),
            b'>' => Ok(Kind::RightAngle),
            b',' => Ok(Kind::Comma),
            b':' => Ok(Kind::Colon),
            b'=' => Ok(Kind::Equals),
            b';' => Ok(Kind::Semicolon),
            b'E' => Ok(Kind::Entry),
            b'X' => Ok(Kind::Extern),
            _ => Err(UnknownCode(code)),
        }
    }
}

impl Kind {
    // The kind of variable that a letter begins, if one does.
    pub(crate) fn of_letter(letter: u8) -> Option<Kind>
        ensures { result ≡ variable_of letter }
    {
        match letter {
            b's' => Some(Kind::SymbolVariable),
            b't' => Some(Kind::TermVariable),
            b'e' => Some(Kind::ExpressionVariable),
            _ => None,
        }
    }

    // The sign of one byte, if the byte is one.
    pub(crate) fn of_sign(byte: u8) -> Option<Kind>
        ensures { result ≡ sign_of byte }
    {
        match byte {
            b'{' => Some(Kind::LeftBrace),
            b'}' => Some(Kind::RightBrace),
            b'(' => Some(Kind::LeftBracket),
            b')' => Some(Kind::RightBracket),
            b'<' => Some(Kind::LeftAngle),
            b'>' => Some(Kind::RightAngle),
            b',' => Some(Kind::Comma),
            b':' => Some(Kind::Colon),
            b'=' => Some(Kind::Equals),
            b';' => Some(Kind::Semicolon),
            _ => None,
        }
    }
}
