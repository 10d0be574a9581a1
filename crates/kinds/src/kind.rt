// The table of kinds.

ghost use Rattle.std.specs.Prelude.{◌≡◌};
ghost use Rattle.kinds.specs.Kind.{kind_byte, IsKind};

use lines::FrameError;

// Document 01's kinds, and CR 1's reverse entry.
#[derive(Clone, Copy, Debug, PartialEq, Eq)]
pub enum Kind {
    Job,
    FirstPiece,
    SecondPiece,
    End,
    Entry,
    Done,
    ReverseEntry,
    Refused,
}

impl Kind {
    // The first byte of a frame.
    pub fn byte(self) -> u8
        ensures { result ≡ kind_byte self }
    {
        match self {
            Kind::Job => 0x01,
            Kind::FirstPiece => 0x02,
            Kind::SecondPiece => 0x03,
            Kind::End => 0x04,
            Kind::Entry => 0x10,
            Kind::Done => 0x11,
            Kind::ReverseEntry => 0x12,
            Kind::Refused => 0x1F,
        }
    }
}

impl TryFrom<u32> for Kind {
    type Error = FrameError;

    ghost try_from_gives = { IsKind };

    fn try_from(number: u32) -> Result<Self, FrameError> {
        match number {
            0x01 => Ok(Kind::Job),
            0x02 => Ok(Kind::FirstPiece),
            0x03 => Ok(Kind::SecondPiece),
            0x04 => Ok(Kind::End),
            0x10 => Ok(Kind::Entry),
            0x11 => Ok(Kind::Done),
            0x12 => Ok(Kind::ReverseEntry),
            0x1F => Ok(Kind::Refused),
            _ => Err(FrameError::WrongKind),
        }
    }
}

impl TryFrom<u8> for Kind {
    type Error = FrameError;

    ghost try_from_gives = { IsKind };

    fn try_from(byte: u8) -> Result<Self, FrameError> {
        Kind::try_from(u32::from(byte))
    }
}
