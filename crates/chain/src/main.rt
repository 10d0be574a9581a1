// Reads frames on standard input and writes their answer on standard output. All that matters is in `exchange`. What stands after the first 300,000
// bytes of an input changes nothing (input/proofs/Cutting.antt), so a fixed buffer is enough.
#![tactic(auto)]

ghost use Rattle.std.specs.Prelude.{◌≤◌, ◌<◌, length, take, IfOk};
ghost use Rattle.std.specs.Io.KnownBytes.{Consumes, IsAtEnd};

use std::io::{self, Read, Write};
use std::rt::HostRuntime;

// Fills the buffer from its front, as far as the reader has bytes, and returns how many there were. Where the reader says which bytes it has, these are
// the first of them, in their order; and fewer than the buffer holds only where no more are left.
fn read_full<R: Read>(reader: &mut R, buffer: &mut [u8]) -> io::Result<usize>
    ensures bound { IfOk result (λ n. n ≤ length buffer.new) }
    ensures bytes { IfOk result (λ n. Consumes (R.remaining reader.old) (R.remaining reader.new) (take n buffer.new)) }
    ensures end { IfOk result (λ n. n < length buffer.new → IsAtEnd (R.remaining reader.new)) }
{
    let mut filled = 0;
    // kept: no plainer form: a turn goes on by as many bytes as the reader gave, and `read_to_end` needs a heap
    while filled < buffer.len() {
        match reader.read(&mut buffer[filled..])? {
            0 => break,
            read => filled += read,
        }
    }
    Ok(filled)
}

fn main(rt: HostRuntime) -> io::Result<()> {
    let mut input = [0u8; 300000];
    let read = read_full(&mut rt.stdin(), &mut input)?;
    let mut output = [0u8; 9038];
    let written = exchange::answer(&input[..read], &mut output);
    rt.stdout().write_all(&output[..written])
}
