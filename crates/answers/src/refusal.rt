// Why a job or an index is refused, by the table of document 01.
ghost use Rattle.std.specs.Prelude.{◌≡◌};
ghost use Rattle.answers.specs.Outcomes.{sequence_number, numbers_of};

use std::error::Error;
use std::fmt;

// One of the two sequences of a job.
#[derive(Clone, Copy, Debug, PartialEq, Eq)]
pub enum Sequence {
    First,
    Second,
}

impl From<Sequence> for u64 {
    ghost from_gives = { λ sequence n. n ≡ sequence_number sequence };

    fn from(sequence: Sequence) -> u64 {
        match sequence {
            Sequence::First => 1,
            Sequence::Second => 2,
        }
    }
}

impl fmt::Display for Sequence {
    ghost use Rattle.std.specs.Prelude.{Some};
    ghost use Rattle.answers.specs.Words.{sequence_words};

    ghost output = { λ sequence. Some (sequence_words sequence) };

    fn fmt<W: fmt::Write>(&self, f: &mut fmt::Formatter<W>) -> fmt::Result {
        f.write_str(match self {
            Sequence::First => "first",
            Sequence::Second => "second",
        })
    }
}

// A refusal with its sequence and its detail, where it has them.
#[derive(Clone, Copy, Debug, PartialEq, Eq)]
pub enum Refusal {
    // 1 to 4: k, b, a or m outside the table
    KmerLength,
    GapBound,
    RepeatCap,
    LeastSpan,
    // 5
    TooLong(Sequence),
    // 6, with the first such place
    BadLetter(Sequence, usize),
    // 7, with W
    WorkRoom(usize),
    // 8, with the number of entries
    ListRoom(usize),
    // 9
    Strand,
    // 10
    Mask,
    // 11, with the number of places that have a k-mer
    IndexRoom(usize),
    // 12
    WrongIndex,
    // 19, with the number of rows
    NoRow(usize),
}

impl Refusal {
    // Its number, its sequence and its detail, 0 where it has none.
    pub fn numbers(self) -> (u64, u64, u64)
        ensures { result ≡ numbers_of self }
    {
        match self {
            Refusal::KmerLength => (1, 0, 0),
            Refusal::GapBound => (2, 0, 0),
            Refusal::RepeatCap => (3, 0, 0),
            Refusal::LeastSpan => (4, 0, 0),
            Refusal::TooLong(sequence) => (5, sequence.into(), 0),
            Refusal::BadLetter(sequence, place) => (6, sequence.into(), place as u64),
            Refusal::WorkRoom(widest) => (7, 0, widest as u64),
            Refusal::ListRoom(listed) => (8, 0, listed as u64),
            Refusal::Strand => (9, 0, 0),
            Refusal::Mask => (10, 0, 0),
            Refusal::IndexRoom(places) => (11, 0, places as u64),
            Refusal::WrongIndex => (12, 0, 0),
            Refusal::NoRow(rows) => (19, 0, rows as u64),
        }
    }
}

impl fmt::Display for Refusal {
    ghost use Rattle.std.specs.Prelude.{Some};
    ghost use Rattle.answers.specs.Words.{refusal_words};

    ghost output = { λ refusal. Some (refusal_words refusal) };

    fn fmt<W: fmt::Write>(&self, f: &mut fmt::Formatter<W>) -> fmt::Result {
        match self {
            Refusal::KmerLength => f.write_str("k is not from 1 to 31"),
            Refusal::GapBound => f.write_str("b is not from 1 to 1024"),
            Refusal::RepeatCap => f.write_str("a is not from 1 to 1024"),
            Refusal::LeastSpan => f.write_str("m is not from 0 to 16384"),
            Refusal::TooLong(sequence) => write!(f, "the {sequence} sequence is too long"),
            Refusal::BadLetter(sequence, place) => {
                write!(f, "no letter at place {place} of the {sequence} sequence")
            }
            Refusal::WorkRoom(widest) => write!(f, "work room for fewer than {widest} records"),
            Refusal::ListRoom(listed) => write!(f, "list room for fewer than {listed} entries"),
            Refusal::Strand => f.write_str("the strand is not 0 or 1"),
            Refusal::Mask => f.write_str("the mask setting is not 0 or 1"),
            Refusal::IndexRoom(places) => write!(f, "index room for fewer than {places} places"),
            Refusal::WrongIndex => f.write_str("the index is not that of the second sequence"),
            Refusal::NoRow(rows) => write!(f, "there are no more than {rows} rows"),
        }
    }
}

impl Error for Refusal {}
