// What is wrong with a frame or its line, by document 01's numbers, or that it cannot be written.

ghost use Rattle.std.specs.Prelude.{◌≡◌};
ghost use Rattle.lines.specs.Errors.{number_of};
ghost use Rattle.lines.specs.declared.error.FrameError.TheVariants.{DoesNotFit};

use std::error::Error;
use std::fmt;
use std::num::TryFromIntError;

// Document 01's 20 to 27, in its order.
#[derive(Clone, Copy, Debug, PartialEq, Eq)]
pub enum FrameError {
    NotALine,
    WrongLength,
    WrongCheck,
    WrongKind,
    OutOfTurn,
    WrongPayload,
    TooManyLetters,
    DoesNotFit,
}

impl FrameError {
    // Document 01's number.
    pub fn number(self) -> u64
        ensures { result ≡ number_of self }
    {
        match self {
            FrameError::NotALine => 20,
            FrameError::WrongLength => 21,
            FrameError::WrongCheck => 22,
            FrameError::WrongKind => 23,
            FrameError::OutOfTurn => 24,
            FrameError::WrongPayload => 25,
            FrameError::TooManyLetters => 26,
            FrameError::DoesNotFit => 27,
        }
    }
}

impl fmt::Display for FrameError {
    ghost use Rattle.std.specs.Prelude.{Some};
    ghost use Rattle.lines.specs.Errors.{words_of};

    ghost output = { λ error. Some (words_of error) };

    fn fmt<W: fmt::Write>(&self, f: &mut fmt::Formatter<W>) -> fmt::Result {
        f.write_str(match self {
            FrameError::NotALine => "not a line of hexadecimal",
            FrameError::WrongLength => "the length byte is wrong",
            FrameError::WrongCheck => "the check is wrong",
            FrameError::WrongKind => "another kind",
            FrameError::OutOfTurn => "out of turn",
            FrameError::WrongPayload => "the payload is wrong for its kind",
            FrameError::TooManyLetters => "the sequence has too many letters",
            FrameError::DoesNotFit => "a value does not fit its field, or the line its slice",
        })
    }
}

impl Error for FrameError {}

// A number that its type does not hold fits no field.
impl From<TryFromIntError> for FrameError {
    ghost from_gives = { λ _ e. e ≡ DoesNotFit };

    fn from(_e: TryFromIntError) -> Self {
        Self::DoesNotFit
    }
}
