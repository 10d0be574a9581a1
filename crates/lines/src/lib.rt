// A frame written as a line of hexadecimal: capital digits, then a line feed.
#![tactic(auto)]

ghost use Rattle.std.specs.Prelude.{◌≡◌, ◌+◌, ◌*◌, ◌/◌, ◌%◌, ◌<◌, ◌≤◌, [], ◌∷◌, length, nat_le};
ghost use Rattle.std.proofs.lemmas.List.Edits.{sets};
ghost use Rattle.lines.specs.Digits.{digit_of, digits_of};
ghost use Rattle.lines.specs.Writing.{byte_sum, check_of, line_of, written, written_of, leaves};

mod error;

pub use error::FrameError;

// A byte as its two four-bit halves.
#[derive(Clone, Copy, Debug, PartialEq, Eq)]
pub struct Halves {
    pub high: u8,
    pub low: u8,
}

pub fn split(byte: u8) -> Halves
    ensures { (result.high ≡ byte / 16) × (result.low ≡ byte % 16) }
{
    Halves {
        high: byte >> 4,
        low: byte & 15,
    }
}

pub fn join(high: u8, low: u8) -> u8
    requires high_bound { high < 16 }
    requires low_bound { low < 16 }
    ensures { result ≡ high * 16 + low }
{
    (high << 4) | low
}

// The capital digit of a half.
#[tactic(auto, using(std::proofs::lemmas::Bool::Decides::nat_tests), unfolding(crate::specs::Digits::digit_of))]
fn digit(half: u8) -> u8
    requires { half < 16 }
    ensures { result ≡ digit_of half }
{
    if half < 10 {
        b'0' + half
    } else {
        b'A' - 10 + half
    }
}

// The sum of the bytes, which wraps at 256.
fn sum(bytes: &[u8]) -> u8
    ensures { result ≡ byte_sum bytes.now % 256 }
{
    bytes.iter().fold(0, |acc, byte| acc.wrapping_add(*byte))
}

// The check byte: it brings the sum of the line's bytes to zero.
#[tactic(auto, using(crate::proofs::Sums::check_made))]
fn check(kind: u8, size: u8, payload: &[u8]) -> u8
    ensures { result ≡ check_of (kind ∷ size ∷ payload.now) }
{
    let head = kind.wrapping_add(size);
    0u8.wrapping_sub(head.wrapping_add(sum(payload)))
}

// A byte's two digits, high first, at a place of the slice.
#[tactic(auto, using(crate::proofs::Storing::byte_stored))]
fn put_byte(byte: u8, out: &mut [u8], at: usize)
    requires { at + 1 < length out.old }
    ensures { out.new ≡ sets out.old at (digits_of (byte ∷ [])) }
{
    let halves = split(byte);
    out[at] = digit(halves.high);
    out[at + 1] = digit(halves.low);
}

// The digits of all bytes, from a place of the slice on.
#[tactic(auto, using(crate::proofs::Storing::putting_next, crate::proofs::Storing::putting_end))]
fn put_bytes(bytes: &[u8], out: &mut [u8], at: usize)
    requires { at + 2 * length bytes.now ≤ length out.old }
    ensures { out.new ≡ sets out.old at (digits_of bytes.now) }
{
    for (i, byte) in bytes.iter().enumerate() {
        put_byte(*byte, out, at + 2 * i);
    }
}

// Writes a frame's line and gives its length with its line feed. A line has at most 64 bytes of payload.
// kept: the kind is any byte, as docs/MAP.md names this function: a Kind would ask more of callers.
pub fn write_line(kind: u8, payload: &[u8], out: &mut [u8]) -> Result<usize, FrameError>
    ensures value { written_of result ≡ written (nat_le (length payload.now) 64) (line_of kind payload.now) out.old }
    ensures out_after { out.new ≡ leaves (nat_le (length payload.now) 64) (line_of kind payload.now) out.old }
{
    if 64 < payload.len() {
        return Err(FrameError::DoesNotFit);
    }
    let feed = 2 * payload.len() + 6;
    if out.len() <= feed {
        return Err(FrameError::DoesNotFit);
    }
    let size = payload.len() as u8;
    put_byte(kind, out, 0);
    put_byte(size, out, 2);
    put_bytes(payload, out, 4);
    put_byte(check(kind, size, payload), out, feed - 2);
    out[feed] = b'\n';
    Ok(feed + 1)
}
