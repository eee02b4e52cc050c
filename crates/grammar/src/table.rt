// The machine's table: for each kind of token what it does in each mode (specs/Accept.antt).
ghost use Rattle.std.specs.Prelude.{◌≡◌};
ghost use Rattle.tokens.specs.Token.{comma, left_bracket, right_bracket, left_angle, right_angle, left_brace, right_brace, colon, equals, semicolon, dollar_entry, dollar_extern};
ghost use Rattle.tokens.specs.Code.TokenKind.{kind_code};
ghost use Rattle.grammar.specs.Accept.{sign_move, identifier_move, other_move};
ghost use Rattle.grammar.specs.Code.Machine.{kind_move, mode_ends};

use crate::stack::Pair;
use tokens::kinds::Kind;

// Where the machine stands in a text.
#[derive(Clone, Copy, PartialEq, Eq, Debug)]
pub enum Mode {
    AtText,
    AfterEntry,
    AfterName,
    AtExtern,
    InExtern,
    InPattern,
    InCondition,
    InResult,
    AfterSemicolon,
    ConditionCall,
    ResultCall,
}

// What a token does: it is refused; on to a mode; on to a mode where nothing is open; it opens or closes a bracket or a call.
// To refuse is a move of the table like others (specs/Accept.antt), so it is no `None`.
#[derive(Clone, Copy, PartialEq, Eq, Debug)]
pub enum Move {
    Refuse,
    Stay(Mode),
    Leave(Mode),
    Open(Pair, Mode),
    Close(Pair, Mode),
}

// One method for each kind of token, as the table of specs/Accept.antt has a row for each: each promises its row.
impl Mode {
    // The move of a comma.
    fn comma_move(self) -> Move
        ensures { result ≡ sign_move comma self }
    {
        match self {
            Mode::InExtern => Move::Leave(Mode::AtExtern),
            Mode::InPattern | Mode::AfterSemicolon => Move::Leave(Mode::InCondition),
            _ => Move::Refuse,
        }
    }

    // The move of `(`.
    fn left_bracket_move(self) -> Move
        ensures { result ≡ sign_move left_bracket self }
    {
        match self {
            Mode::InPattern | Mode::AfterSemicolon => Move::Open(Pair::Bracket, Mode::InPattern),
            Mode::InCondition | Mode::InResult => Move::Open(Pair::Bracket, self),
            _ => Move::Refuse,
        }
    }

    // The move of `)`.
    fn right_bracket_move(self) -> Move
        ensures { result ≡ sign_move right_bracket self }
    {
        match self {
            Mode::InPattern | Mode::InCondition | Mode::InResult => Move::Close(
                Pair::Bracket,
                self,
            ),
            _ => Move::Refuse,
        }
    }

    // The move of `<`.
    fn left_angle_move(self) -> Move
        ensures { result ≡ sign_move left_angle self }
    {
        match self {
            Mode::InCondition => Move::Open(Pair::Call, Mode::ConditionCall),
            Mode::InResult => Move::Open(Pair::Call, Mode::ResultCall),
            _ => Move::Refuse,
        }
    }

    // The move of `>`.
    fn right_angle_move(self) -> Move
        ensures { result ≡ sign_move right_angle self }
    {
        match self {
            Mode::InCondition | Mode::InResult => Move::Close(Pair::Call, self),
            _ => Move::Refuse,
        }
    }

    // The move of `{`.
    fn left_brace_move(self) -> Move
        ensures { result ≡ sign_move left_brace self }
    {
        match self {
            Mode::AfterName => Move::Leave(Mode::InPattern),
            _ => Move::Refuse,
        }
    }

    // The move of `}`.
    fn right_brace_move(self) -> Move
        ensures { result ≡ sign_move right_brace self }
    {
        match self {
            Mode::InResult | Mode::AfterSemicolon => Move::Leave(Mode::AtText),
            _ => Move::Refuse,
        }
    }

    // The move of a colon.
    fn colon_move(self) -> Move
        ensures { result ≡ sign_move colon self }
    {
        match self {
            Mode::InCondition => Move::Leave(Mode::InPattern),
            _ => Move::Refuse,
        }
    }

    // The move of `=`.
    fn equals_move(self) -> Move
        ensures { result ≡ sign_move equals self }
    {
        match self {
            Mode::InPattern | Mode::AfterSemicolon => Move::Leave(Mode::InResult),
            _ => Move::Refuse,
        }
    }

    // The move of a semicolon.
    fn semicolon_move(self) -> Move
        ensures { result ≡ sign_move semicolon self }
    {
        match self {
            Mode::InExtern => Move::Leave(Mode::AtText),
            Mode::InResult => Move::Leave(Mode::AfterSemicolon),
            _ => Move::Refuse,
        }
    }

    // The move of `$ENTRY`.
    fn entry_move(self) -> Move
        ensures { result ≡ sign_move dollar_entry self }
    {
        match self {
            Mode::AtText => Move::Leave(Mode::AfterEntry),
            _ => Move::Refuse,
        }
    }

    // The move of `$EXTERN`.
    fn extern_move(self) -> Move
        ensures { result ≡ sign_move dollar_extern self }
    {
        match self {
            Mode::AtText => Move::Leave(Mode::AtExtern),
            _ => Move::Refuse,
        }
    }

    // The move of an identifier.
    fn identifier_move(self) -> Move
        ensures { result ≡ identifier_move self }
    {
        match self {
            Mode::AtText | Mode::AfterEntry => Move::Leave(Mode::AfterName),
            Mode::AtExtern => Move::Leave(Mode::InExtern),
            Mode::InPattern | Mode::AfterSemicolon => Move::Stay(Mode::InPattern),
            Mode::InCondition | Mode::ConditionCall => Move::Stay(Mode::InCondition),
            Mode::InResult | Mode::ResultCall => Move::Stay(Mode::InResult),
            Mode::AfterName | Mode::InExtern => Move::Refuse,
        }
    }

    // The move of a number, a variable or a quoted run.
    fn other_move(self) -> Move
        ensures { result ≡ other_move self }
    {
        match self {
            Mode::InPattern | Mode::AfterSemicolon => Move::Stay(Mode::InPattern),
            Mode::InCondition | Mode::InResult => Move::Stay(self),
            _ => Move::Refuse,
        }
    }
}

// The move of a token of this kind.
pub fn move_of(kind: Kind, mode: Mode) -> Move
    ensures { result ≡ kind_move (kind_code kind) mode }
{
    match kind {
        Kind::Identifier => mode.identifier_move(),
        Kind::LeftBracket => mode.left_bracket_move(),
        Kind::RightBracket => mode.right_bracket_move(),
        Kind::LeftAngle => mode.left_angle_move(),
        Kind::RightAngle => mode.right_angle_move(),
        Kind::Comma => mode.comma_move(),
        Kind::Colon => mode.colon_move(),
        Kind::Equals => mode.equals_move(),
        Kind::Semicolon => mode.semicolon_move(),
        Kind::LeftBrace => mode.left_brace_move(),
        Kind::RightBrace => mode.right_brace_move(),
        Kind::Entry => mode.entry_move(),
        Kind::Extern => mode.extern_move(),
        _ => mode.other_move(),
    }
}

// The move of a token whose kind has this number. A number that no kind has moves as an atom that is no name.
pub fn move_of_code(code: u8, mode: Mode) -> Move
    ensures { result ≡ kind_move code mode }
{
    match Kind::try_from(code) {
        Ok(kind) => move_of(kind, mode),
        Err(_) => mode.other_move(),
    }
}

// May a text end here?
pub fn may_end(mode: Mode) -> bool
    ensures { result ≡ mode_ends mode }
{
    matches!(mode, Mode::AtText)
}
