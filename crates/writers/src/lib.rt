// A writer for each kind of frame.
#![tactic(auto)]

ghost use Rattle.std.specs.Prelude.{◌≡◌, true, ◌&&◌, leb, length};
ghost use Rattle.lines.specs.Writing.{line_of, written, written_of, leaves};
ghost use Rattle.payloads.specs.Pieces.{code_bytes, codes_fit};
ghost use Rattle.kinds.specs.Kind.{kind_byte};
ghost use Rattle.kinds.specs.Kinds.{job_fits, job_line, piece_line, end_line, entry_fits, entry_line, reverse_line, done_fits, done_line, refused_fits, refused_line};

use kinds::{Done, Entry, Kind, Refused, Values};
use lines::FrameError;
use rules::Settings;

// The line of a kind, where its values fit.
fn write_fitting(
    fits: bool,
    kind: Kind,
    payload: &[u8],
    out: &mut [u8],
) -> Result<usize, FrameError>
    ensures value { written_of result ≡ written (fits && leb (length payload.now) 64) (line_of (kind_byte kind) payload.now) out.old }
    ensures out_after { out.new ≡ leaves (fits && leb (length payload.now) 64) (line_of (kind_byte kind) payload.now) out.old }
{
    if fits {
        lines::write_line(kind.byte(), payload, out)
    } else {
        Err(FrameError::DoesNotFit)
    }
}

// A job: seven bytes of it where it is forward, else all eight.
pub fn write_job(job: Settings, out: &mut [u8]) -> Result<usize, FrameError>
    ensures value { written_of result ≡ written (job_fits job) (job_line job) out.old }
    ensures out_after { out.new ≡ leaves (job_fits job) (job_line job) out.old }
{
    let payload = kinds::job_bytes(job);
    let size = kinds::job_size(job);
    write_fitting(kinds::job_fits(job), Kind::Job, &payload[..size], out)
}

// A frame of a kind, which carries values.
fn write_values<const N: usize, V: Values<N>>(
    kind: Kind,
    values: V,
    out: &mut [u8],
) -> Result<usize, FrameError>
    ensures value { written_of result ≡ written (V.fit values) (line_of (kind_byte kind) (V.bytes_of values)) out.old }
    ensures out_after { out.new ≡ leaves (V.fit values) (line_of (kind_byte kind) (V.bytes_of values)) out.old }
{
    write_fitting(values.fits(), kind, &values.payload(), out)
}

// A forward entry.
#[tactic(auto, unfolding(kinds::specs::Kinds::entry_line))]
pub fn write_entry(entry: Entry, out: &mut [u8]) -> Result<usize, FrameError>
    ensures value { written_of result ≡ written (entry_fits entry) (entry_line entry) out.old }
    ensures out_after { out.new ≡ leaves (entry_fits entry) (entry_line entry) out.old }
{
    write_values(Kind::Entry, entry, out)
}

// A reverse entry.
#[tactic(auto, unfolding(kinds::specs::Kinds::reverse_line))]
pub fn write_reverse_entry(entry: Entry, out: &mut [u8]) -> Result<usize, FrameError>
    ensures value { written_of result ≡ written (entry_fits entry) (reverse_line entry) out.old }
    ensures out_after { out.new ≡ leaves (entry_fits entry) (reverse_line entry) out.old }
{
    write_values(Kind::ReverseEntry, entry, out)
}

// What a job that was done comes to.
#[tactic(auto, unfolding(kinds::specs::Kinds::done_line))]
pub fn write_done(done: Done, out: &mut [u8]) -> Result<usize, FrameError>
    ensures value { written_of result ≡ written (done_fits done) (done_line done) out.old }
    ensures out_after { out.new ≡ leaves (done_fits done) (done_line done) out.old }
{
    write_values(Kind::Done, done, out)
}

// A refusal.
#[tactic(auto, unfolding(kinds::specs::Kinds::refused_line))]
pub fn write_refused(refused: Refused, out: &mut [u8]) -> Result<usize, FrameError>
    ensures value { written_of result ≡ written (refused_fits refused) (refused_line refused) out.old }
    ensures out_after { out.new ≡ leaves (refused_fits refused) (refused_line refused) out.old }
{
    write_values(Kind::Refused, refused, out)
}

// An end fits wherever its line does.
#[tactic(auto, unfolding(kinds::specs::Kinds::end_line))]
pub fn write_end(out: &mut [u8]) -> Result<usize, FrameError>
    ensures value { written_of result ≡ written true end_line out.old }
    ensures out_after { out.new ≡ leaves true end_line out.old }
{
    lines::write_line(Kind::End.byte(), &[], out)
}

// A piece of the kind that tells its sequence, by its letters' codes.
fn write_piece_of(kind: Kind, codes: &[u8], out: &mut [u8]) -> Result<usize, FrameError>
    ensures value { written_of result ≡ written (codes_fit codes.now) (line_of (kind_byte kind) (code_bytes codes.now)) out.old }
    ensures out_after { out.new ≡ leaves (codes_fit codes.now) (line_of (kind_byte kind) (code_bytes codes.now)) out.old }
{
    if kinds::piece_fits(codes) {
        let mut payload = [0u8; 64];
        let n = payloads::pack(codes, &mut payload);
        lines::write_line(kind.byte(), &payload[..n], out)
    } else {
        Err(FrameError::DoesNotFit)
    }
}

// A piece of the first sequence.
#[tactic(auto, unfolding(kinds::specs::Kinds::piece_line))]
pub fn write_first_piece(codes: &[u8], out: &mut [u8]) -> Result<usize, FrameError>
    ensures value { written_of result ≡ written (codes_fit codes.now) (piece_line 1 codes.now) out.old }
    ensures out_after { out.new ≡ leaves (codes_fit codes.now) (piece_line 1 codes.now) out.old }
{
    write_piece_of(Kind::FirstPiece, codes, out)
}

// A piece of the second sequence.
#[tactic(auto, unfolding(kinds::specs::Kinds::piece_line))]
pub fn write_second_piece(codes: &[u8], out: &mut [u8]) -> Result<usize, FrameError>
    ensures value { written_of result ≡ written (codes_fit codes.now) (piece_line 2 codes.now) out.old }
    ensures out_after { out.new ≡ leaves (codes_fit codes.now) (piece_line 2 codes.now) out.old }
{
    write_piece_of(Kind::SecondPiece, codes, out)
}
