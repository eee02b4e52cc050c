// Kinds of tokens told apart.
ghost use Rattle.std.specs.Prelude.{◌≡◌};
ghost use Rattle.tokens.specs.Code.TokenKind.{kind_code};
ghost use Rattle.encoding.specs.Code.FlatTerms.{opens, closes};
ghost use Rattle.encoding.specs.Code.FlatFile.{parts, within};

use tokens::kinds::Kind;

// `(` or `<`.
pub fn opens_term(kind: Kind) -> bool
    ensures { result ≡ opens (kind_code kind) }
{
    matches!(kind, Kind::LeftBracket | Kind::LeftAngle)
}

// `)` or `>`.
pub fn closes_term(kind: Kind) -> bool
    ensures { result ≡ closes (kind_code kind) }
{
    matches!(kind, Kind::RightBracket | Kind::RightAngle)
}

// Does a token of this kind end a run of terms?
pub fn parts_terms(kind: Kind) -> bool
    ensures { result ≡ parts (kind_code kind) }
{
    matches!(
        kind,
        Kind::Comma | Kind::Colon | Kind::Equals | Kind::Semicolon | Kind::RightBrace
    )
}

// Is it inside braces after a token?
pub fn within_after(inside: bool, kind: Kind) -> bool
    ensures { result ≡ within inside (kind_code kind) }
{
    match kind {
        Kind::LeftBrace => true,
        Kind::RightBrace => false,
        _ => inside,
    }
}
