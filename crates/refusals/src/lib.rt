// The checks that need no room, in pieces: each passes, or gives the refusal that applies.
#![tactic(auto)]

ghost use Rattle.std.specs.Prelude.{◌≡◌, ℕ, [], ◌∷◌, length};
ghost use Rattle.rules.specs.Answers.{on, outside, settings_checks, length_check, letter_check, given, checked};
ghost use Rattle.answers.specs.Outcomes.{sequence_number, refusal_of, check_of};
ghost use Rattle.refusals.specs.Answered.{length_answer, letters_answer};

use answers::{Refusal, Sequence};
use rules::Settings;

// Whether a setting is outside its range.
pub fn is_outside(low: u32, high: u32, n: u32) -> bool
    ensures { result ≡ outside low high n }
{
    !(low..=high).contains(&n)
}

// The refusal of a setting that is outside its range.
pub fn check_setting(low: u32, high: u32, n: u32, refusal: Refusal) -> Result<(), Refusal>
    ensures { check_of result ≡ given (on (outside low high n) (refusal_of refusal) ∷ []) }
{
    if is_outside(low, high, n) {
        Err(refusal)
    } else {
        Ok(())
    }
}

// 1 to 4, then 9 and 10.
pub fn check_settings(c: Settings) -> Result<(), Refusal>
    ensures { check_of result ≡ given (settings_checks c) }
{
    check_setting(1, 31, c.k, Refusal::KmerLength)?;
    check_setting(1, 1024, c.b, Refusal::GapBound)?;
    check_setting(1, 1024, c.a, Refusal::RepeatCap)?;
    check_setting(0, 16384, c.m, Refusal::LeastSpan)?;
    check_setting(0, 1, c.strand, Refusal::Strand)?;
    check_setting(0, 1, c.mask, Refusal::Mask)
}

// A sequence has more than 16,384 letters.
#[derive(Clone, Copy, Debug, PartialEq, Eq)]
pub struct TooLong;

// The first place of a sequence, counted from 1, whose letter is none of the fifteen.
#[derive(Clone, Copy, Debug, PartialEq, Eq)]
pub struct BadLetter {
    pub place: usize,
}

// 5, of a sequence under any number that it may have.
pub fn check_length(letters: usize) -> Result<(), TooLong>
    ensures { (sequence : ℕ) → length_answer sequence result ≡ given (length_check sequence letters ∷ []) }
{
    if 16384 < letters {
        Err(TooLong)
    } else {
        Ok(())
    }
}

// 6, of a sequence under any number that it may have. One step a letter.
pub fn check_letters(s: &[u8]) -> Result<(), BadLetter>
    ensures { (sequence : ℕ) → letters_answer sequence result ≡ given (letter_check sequence s.now ∷ []) }
{
    match letters::bad_place(s) {
        Some(place) => Err(BadLetter { place }),
        None => Ok(()),
    }
}

// 5, of one of the two.
fn length_of(sequence: Sequence, letters: usize) -> Result<(), Refusal>
    ensures { check_of result ≡ given (length_check (sequence_number sequence) letters ∷ []) }
{
    match check_length(letters) {
        Err(TooLong) => Err(Refusal::TooLong(sequence)),
        Ok(()) => Ok(()),
    }
}

// 6, of one of the two.
fn letters_of(sequence: Sequence, s: &[u8]) -> Result<(), Refusal>
    ensures { check_of result ≡ given (letter_check (sequence_number sequence) s.now ∷ []) }
{
    match check_letters(s) {
        Err(bad) => Err(Refusal::BadLetter(sequence, bad.place)),
        Ok(()) => Ok(()),
    }
}

// 5, then 6, of one sequence.
pub fn check_sequence(sequence: Sequence, s: &[u8]) -> Result<(), Refusal>
    ensures { check_of result ≡ given (length_check (sequence_number sequence) (length s.now) ∷ letter_check (sequence_number sequence) s.now ∷ []) }
{
    length_of(sequence, s.len())?;
    letters_of(sequence, s)
}

// 1 to 6, with 9 and 10 after 4: the first that applies.
pub fn check(c: Settings, first: &[u8], second: &[u8]) -> Result<(), Refusal>
    ensures { check_of result ≡ checked c first.now second.now }
{
    check_settings(c)?;
    length_of(Sequence::First, first.len())?;
    length_of(Sequence::Second, second.len())?;
    letters_of(Sequence::First, first)?;
    letters_of(Sequence::Second, second)
}
