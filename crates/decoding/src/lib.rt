// A frame read from its line of hexadecimal, or what is wrong with the line.
#![tactic(auto)]

ghost use Rattle.std.specs.Prelude.{◌≡◌, ◌+◌, ◌*◌, ◌%◌, ◌<◌, ◌≤◌, ◌&&◌, ◌==◌, true, length, nat_le, nat_lt, unwrap_or, IfSome};
ghost use Rattle.std.proofs.lemmas.List.Edits.{sets};
ghost use Rattle.lines.specs.Writing.{byte_sum};
ghost use Rattle.decoding.specs.Digits.{nibble_of, closed, is_line, bytes_in};
ghost use Rattle.decoding.specs.Reading.{numbered_frame, frame_in, bytes_left};

use lines::FrameError;

// The half of a capital digit, where the byte is one.
#[tactic(auto, using(std::proofs::lemmas::Bool::Decides::nat_tests), unfolding(crate::specs::Digits::nibble_of))]
fn nibble(digit: u8) -> Option<u8>
    ensures value { unwrap_or result 16 ≡ nibble_of digit }
    ensures half { IfSome result (λ n. n < 16) }
{
    match digit {
        b'0'..=b'9' => Some(digit - b'0'),
        b'A'..=b'F' => Some(digit - b'A' + 10),
        _ => None,
    }
}

// Whether a byte is a capital digit.
fn is_digit(byte: u8) -> bool
    ensures { result ≡ nat_lt (nibble_of byte) 16 }
{
    nibble(byte).is_some()
}

// Whether a line has so many digits: an even count of 6 to 134.
fn is_count(digits: usize) -> bool
    ensures { result ≡ nat_le 6 digits && nat_le digits 134 && digits % 2 == 0 }
{
    (6 <= digits) & (digits <= 134) & (digits % 2 == 0)
}

// Whether a line is an even count of 6 to 134 capital digits closed by a line feed.
fn is_line(line: &[u8]) -> bool
    ensures { result ≡ is_line line.now }
{
    match line {
        [digits @ .., b'\n'] if is_count(digits.len()) => {
            digits.iter().all(|digit| is_digit(*digit))
        }
        _ => false,
    }
}

// The count of a line's bytes, and their sum, which wraps at 256.
#[derive(Clone, Copy, Debug, PartialEq, Eq)]
struct Decoded {
    count: usize,
    sum: u8,
}

// The bytes of a line's digits, with their running sum.
fn decode(line: &[u8], bytes: &mut [u8]) -> Decoded
    requires line_value { closed line.now ≡ true }
    requires line_len_bound { length line.now ≤ 2 * length bytes.old + 1 }
    ensures count_value { (result.count ≡ length (bytes_in line.now)) × (result.sum ≡ byte_sum (bytes_in line.now) % 256) }
    ensures bytes_after { bytes.new ≡ sets bytes.old 0 (bytes_in line.now) }
{
    let count = line.len() / 2;
    let mut sum: u8 = 0;
    for i in 0..count {
        let high = nibble(line[2 * i]).unwrap();
        let low = nibble(line[2 * i + 1]).unwrap();
        let byte = lines::join(high, low);
        bytes[i] = byte;
        sum = sum.wrapping_add(byte);
    }
    Decoded { count, sum }
}

// What a line holds: its kind, which is any byte until 23 has been looked for, and how many bytes of payload.
#[derive(Clone, Copy, Debug, PartialEq, Eq)]
pub struct Frame {
    pub kind: u8,
    pub size: usize,
}

// Reads one line. Its bytes stand in front of the lent ones: kind, length, payload, check.
// kept: any slice of 67 bytes or more, as docs/MAP.md names this function: a [u8; 67] would ask more of callers.
pub fn read_line(line: &[u8], bytes: &mut [u8]) -> Result<Frame, FrameError>
    requires { 67 ≤ length bytes.old }
    ensures value { numbered_frame result ≡ frame_in line.now }
    ensures bytes_after { bytes.new ≡ bytes_left line.now bytes.old }
{
    if !is_line(line) {
        return Err(FrameError::NotALine);
    }
    let found = decode(line, bytes);
    let size = usize::from(bytes[1]);
    if size + 3 != found.count {
        return Err(FrameError::WrongLength);
    }
    if found.sum != 0 {
        return Err(FrameError::WrongCheck);
    }
    Ok(Frame {
        kind: bytes[0],
        size,
    })
}
