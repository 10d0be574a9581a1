// What the frames' kinds carry: their values, whether these fit their fields, and the bytes of a payload.
#![tactic(auto)]

ghost use Rattle.std.specs.Prelude.{◌≡◌, ◌++◌, length};
ghost use Rattle.payloads.specs.Numbers.{number_bytes};
ghost use Rattle.payloads.specs.Pieces.{codes_fit};
ghost use Rattle.kinds.specs.Kinds.{job_numbers, job_payload, job_fits};

mod kind;
mod values;

pub use kind::Kind;
use rules::Settings;
pub use values::Values;

// The places of a sequence that an entry spans.
#[derive(Clone, Copy, Debug, PartialEq, Eq)]
pub struct Span {
    pub start: u64,
    pub end: u64,
}

// The five numbers of an entry. Its frame's kind tells its strand.
#[derive(Clone, Copy, Debug, PartialEq, Eq)]
pub struct Entry {
    pub first: Span,
    pub second: Span,
    pub weight: u64,
}

// What a job that was done comes to.
#[derive(Clone, Copy, Debug, PartialEq, Eq)]
pub struct Done {
    // entries listed
    pub listed: u64,
    // M
    pub matches: u64,
    // W
    pub widest: u64,
    // the link total
    pub links: u64,
}

// Why a job, or an input, was refused. Of an input the sequence is 0 and the detail its line.
// kept: the number as the frame carries it, any that a byte holds; an enum would ask more of callers.
#[derive(Clone, Copy, Debug, PartialEq, Eq)]
pub struct Refused {
    pub number: u64,
    pub sequence: u64,
    pub detail: u64,
}

// Whether each number of a job fits its field: a byte for k and for the strand, two for the others. The mask has none, so that it has to be 0.
#[tactic(auto, unfolding(crate::specs::Kinds::job_fits))]
pub fn job_fits(job: Settings) -> bool
    ensures { result ≡ job_fits job }
{
    (job.k < 256)
        & (job.b < 65536)
        & (job.a < 65536)
        & (job.m < 65536)
        & (job.strand < 256)
        & (job.mask < 1)
}

// A forward job leaves its strand out.
#[tactic(auto, using(crate::proofs::Jobs::forward_size, crate::proofs::Jobs::stranded_size))]
pub fn job_size(job: Settings) -> usize
    ensures { result ≡ length (job_payload job) }
{
    if job.strand == 0 { 7 } else { 8 }
}

// A job's numbers, the strand last.
#[tactic(auto, unfolding(crate::specs::Kinds::job_numbers, payloads::specs::Numbers::number_bytes))]
pub fn job_bytes(job: Settings) -> [u8; 8]
    ensures { result ≡ job_numbers job ++ number_bytes 1 job.strand }
{
    let mut payload = [0u8; 8];
    payloads::put_number(&mut payload, 0, 1, u64::from(job.k));
    payloads::put_number(&mut payload, 1, 2, u64::from(job.b));
    payloads::put_number(&mut payload, 3, 2, u64::from(job.a));
    payloads::put_number(&mut payload, 5, 2, u64::from(job.m));
    payloads::put_number(&mut payload, 7, 1, u64::from(job.strand));
    payload
}

// Whether a piece fits a frame: 1 to 128 letters, each by a code that is one.
#[tactic(auto, unfolding(payloads::specs::Pieces::codes_fit))]
pub fn piece_fits(codes: &[u8]) -> bool
    ensures { result ≡ codes_fit codes.now }
{
    (1 <= codes.len()) & (codes.len() <= 128) & payloads::are_codes(codes)
}
