// A reader of one line for an entry of either strand, done and refused. What the writers write is read back.
#![tactic(auto)]

ghost use Rattle.std.specs.Prelude.{◌≡◌, IfOk};
ghost use Rattle.lines.specs.Errors.{number_in};
ghost use Rattle.decoding.specs.Digits.{bytes_in};
ghost use Rattle.payloads.specs.Lines.{kind_number};
ghost use Rattle.kinds.specs.Kind.{kind_byte};
ghost use Rattle.readers.specs.Readers.{entry_numbered, done_numbered, refused_numbered, read_entry, read_reverse, read_done, read_refused};

use kinds::{Done, Entry, Kind, Refused, Values};
use lines::FrameError;

// The values of a line that is to have a kind.
fn read_values<const N: usize, V: Values<N>>(kind: Kind, line: &[u8]) -> Result<V, FrameError>
    ensures number { number_in result ≡ kind_number (kind_byte kind) N line.now }
    ensures values { IfOk result (λ x. x ≡ V.values_in (bytes_in line.now)) }
{
    let mut bytes = [0u8; 67];
    payloads::read_kind(line, kind.byte(), N, &mut bytes)?;
    Ok(V::read(&bytes))
}

// A forward entry.
#[tactic(auto, using(crate::proofs::Readers::entry_answer), unfolding(crate::specs::Readers::read_entry))]
pub fn read_entry(line: &[u8]) -> Result<Entry, FrameError>
    ensures { entry_numbered result ≡ read_entry line.now }
{
    read_values(Kind::Entry, line)
}

// A reverse entry.
#[tactic(auto, using(crate::proofs::Readers::entry_answer), unfolding(crate::specs::Readers::read_reverse))]
pub fn read_reverse_entry(line: &[u8]) -> Result<Entry, FrameError>
    ensures { entry_numbered result ≡ read_reverse line.now }
{
    read_values(Kind::ReverseEntry, line)
}

// What a job that was done comes to.
#[tactic(auto, using(crate::proofs::Readers::done_answer))]
pub fn read_done(line: &[u8]) -> Result<Done, FrameError>
    ensures { done_numbered result ≡ read_done line.now }
{
    read_values(Kind::Done, line)
}

// A refusal.
#[tactic(auto, using(crate::proofs::Readers::refused_answer))]
pub fn read_refused(line: &[u8]) -> Result<Refused, FrameError>
    ensures { refused_numbered result ≡ read_refused line.now }
{
    read_values(Kind::Refused, line)
}
