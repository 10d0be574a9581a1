// What stands in a frame: numbers, highest byte first, letter codes, two a byte, and the line of a kind with so many bytes of payload.
#![tactic(auto)]

ghost use Rattle.std.specs.Prelude.{◌≡◌, true, ◌+◌, ◌*◌, ◌%◌, ◌^◌, ◌<◌, ◌≤◌, length, get_or};
ghost use Rattle.std.proofs.lemmas.List.Edits.{sets};
ghost use Rattle.decoding.specs.Reading.{bytes_left};
ghost use Rattle.payloads.specs.Numbers.{number_bytes, number_at};
ghost use Rattle.payloads.specs.Pieces.{all_codes, code_bytes};
ghost use Rattle.payloads.specs.Lines.{kind_number};
ghost use Rattle.lines.specs.Errors.{number_in};

use lines::FrameError;

// A number's lowest byte.
fn low_byte(x: u64) -> u8
    ensures { result ≡ x % 256 }
{
    (x & 255) as u8
}

// A number in so many bytes, highest first, at a place of the payload.
pub fn put_number(payload: &mut [u8], at: usize, width: usize, x: u64)
    requires { at + width ≤ length payload.old }
    ensures { payload.new ≡ sets payload.old at (number_bytes width x) }
{
    let mut rest = x;
    for i in (0..width).rev() {
        payload[at + i] = low_byte(rest);
        rest >>= 8;
    }
}

// The number in so many bytes, highest first, at a place of a frame.
pub fn number_at(bytes: &[u8], at: usize, width: usize) -> u64
    requires width_in_bounds { at + width ≤ length bytes.now }
    requires width_bound { width ≤ 8 }
    ensures { (result ≡ number_at bytes.now at width) × (result < 256 ^ width) }
{
    let mut x: u64 = 0;
    for i in 0..width {
        x = x * 256 + u64::from(bytes[at + i]);
    }
    x
}

// The code at a place of the letters, 0 behind them. A piece's odd last letter leaves the low half 0.
fn code_at(codes: &[u8], i: usize) -> u8
    ensures { result ≡ get_or codes.now i 0 }
{
    codes.get(i).copied().unwrap_or(0)
}

// Whether all codes are from 1 to 15.
pub fn are_codes(codes: &[u8]) -> bool
    ensures { result ≡ all_codes codes.now }
{
    codes.iter().all(|code| (1..=15).contains(code))
}

// Two codes a byte, high half first, and how many bytes that makes.
pub fn pack(codes: &[u8], payload: &mut [u8]) -> usize
    requires codes_value { all_codes codes.now ≡ true }
    requires codes_len_bound { length codes.now ≤ 2 * length payload.old }
    ensures value { result ≡ length (code_bytes codes.now) }
    ensures payload_after { payload.new ≡ sets payload.old 0 (code_bytes codes.now) }
{
    let count = codes.len().div_ceil(2);
    for n in 0..count {
        payload[n] = lines::join(codes[2 * n], code_at(codes, 2 * n + 1));
    }
    count
}

// Reads a line that is to have a kind and so many bytes of payload.
// kept: any slice of 67 bytes or more and any byte as kind, as docs/MAP.md names this function: a [u8; 67] or a Kind would ask more of callers.
pub fn read_kind(line: &[u8], kind: u8, size: usize, bytes: &mut [u8]) -> Result<(), FrameError>
    requires { 67 ≤ length bytes.old }
    ensures value { number_in result ≡ kind_number kind size line.now }
    ensures bytes_after { bytes.new ≡ bytes_left line.now bytes.old }
{
    let frame = decoding::read_line(line, bytes)?;
    if frame.kind != kind {
        return Err(FrameError::WrongKind);
    }
    if frame.size != size {
        return Err(FrameError::WrongPayload);
    }
    Ok(())
}
