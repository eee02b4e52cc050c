// Why it is not answered whether a sentence shadows another or matches a call's argument. `shadow_answer` and `recognise_answer` of specs/Entry.antt give
// document 01's number for each refusal.
ghost use Rattle.std.specs.Prelude.{◌≡◌};

use file::Refusal;

#[derive(Clone, Copy, PartialEq, Eq, Debug)]
pub enum ShadowError {
    Refused(Refusal),
    NoSentence,
}

// `NotLiteral` where the record is no call or its argument is not literal.
#[derive(Clone, Copy, PartialEq, Eq, Debug)]
pub enum MatchError {
    Refused(Refusal),
    NoSentence,
    NotLiteral,
}

impl From<Refusal> for ShadowError {
    ghost use Rattle.sentences.specs.declared.errors.ShadowError.{ShadowError};

    ghost from_gives = { λ why error. error ≡ ShadowError.Refused why };

    fn from(why: Refusal) -> ShadowError {
        ShadowError::Refused(why)
    }
}

impl From<Refusal> for MatchError {
    ghost use Rattle.sentences.specs.declared.errors.MatchError.{MatchError};

    ghost from_gives = { λ why error. error ≡ MatchError.Refused why };

    fn from(why: Refusal) -> MatchError {
        MatchError::Refused(why)
    }
}
