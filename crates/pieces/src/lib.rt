// A piece of a sequence as a payload carries it, two letters' codes a byte: whether it is one, and its letters put behind those that the sequence has.
#![tactic(auto)]

ghost use Rattle.std.specs.Prelude.{◌≡◌, true, [], ◌∷◌, ◌+◌, ◌≤◌, length};
ghost use Rattle.std.proofs.lemmas.List.Edits.{sets};
ghost use Rattle.payloads.specs.Pieces.{all_codes, codes_in};
ghost use Rattle.pieces.specs.Letters.{is_piece, letters_in};
ghost use Rattle.pieces.specs.Taking.{taken_of, piece_taken, piece_left};

use lines::FrameError;

// "26: the sequence would pass 16,384 letters."
const MOST_LETTERS: usize = 16384;

// Whether a payload is a piece: 1 to 64 bytes, and no half of them 0 but the last.
fn is_piece(payload: &[u8]) -> bool
    ensures { result ≡ is_piece payload.now }
{
    if !(1..=64).contains(&payload.len()) {
        return false;
    }
    for (i, byte) in payload.iter().enumerate() {
        let halves = lines::split(*byte);
        if halves.high == 0 {
            return false;
        }
        if halves.low == 0 {
            return i + 1 == payload.len();
        }
    }
    true
}

// How many codes a piece has: two a byte, or one less.
#[tactic(auto, using(crate::proofs::Unpacking::count_odd, crate::proofs::Unpacking::count_even))]
fn code_count(payload: &[u8]) -> usize
    requires in_bounds { 1 ≤ length payload.now }
    requires payload_len_bound { length payload.now ≤ 64 }
    ensures { result ≡ length (codes_in payload.now) }
{
    let last = lines::split(payload[payload.len() - 1]);
    if last.low == 0 {
        2 * payload.len() - 1
    } else {
        2 * payload.len()
    }
}

// The letters of a byte's codes, from a place on, and the place behind them.
fn put_byte(byte: u8, letters: &mut [u8], at: usize) -> usize
    requires { at + length (codes_in (byte ∷ [])) ≤ length letters.old }
    ensures value { result ≡ at + length (codes_in (byte ∷ [])) }
    ensures letters_after { letters.new ≡ sets letters.old at (letters_in (byte ∷ [])) }
{
    let halves = lines::split(byte);
    letters[at] = letters::letter(halves.high);
    if halves.low == 0 {
        at + 1
    } else {
        letters[at + 1] = letters::letter(halves.low);
        at + 2
    }
}

// The letters of a piece, from a place on.
fn put_letters(payload: &[u8], letters: &mut [u8], at: usize)
    requires payload_value { all_codes (codes_in payload.now) ≡ true }
    requires payload_in_bounds { at + length (codes_in payload.now) ≤ length letters.old }
    ensures { letters.new ≡ sets letters.old at (letters_in payload.now) }
{
    let mut place = at;
    for byte in payload {
        place = put_byte(*byte, letters, place);
    }
}

// A piece goes behind the letters that its sequence has. Gives how many the sequence has then.
// kept: a lent room and how many letters it has, as docs/MAP.md names this function: a type of both would ask more of callers.
pub fn take_piece(payload: &[u8], letters: &mut [u8], count: usize) -> Result<usize, FrameError>
    requires count_bound { count ≤ 16384 }
    requires in_bounds { 16384 ≤ length letters.old }
    ensures value { taken_of count result ≡ piece_taken payload.now count }
    ensures letters_after { letters.new ≡ piece_left payload.now count letters.old }
{
    if !is_piece(payload) {
        return Err(FrameError::WrongPayload);
    }
    let more = code_count(payload);
    if count + more <= MOST_LETTERS {
        put_letters(payload, letters, count);
        Ok(count + more)
    } else {
        Err(FrameError::TooManyLetters)
    }
}
