// Every kind of frame by its number and values: what crosses the C boundary, written and read.
#![tactic(auto)]

ghost use Rattle.std.specs.Prelude.{◌≡◌};
ghost use Rattle.lines.specs.Writing.{written_of};
ghost use Rattle.kinds.specs.Kind.{kind_byte};
ghost use Rattle.rules.specs.Lists.{then_zeros};
ghost use Rattle.frames.specs.Frames.{entry_of, entry_values, done_of, done_values, refused_of, refused_values, piece_wanted, frame_wanted, wanted_written, wanted_left, reply_of, frame_reply, frame_left, read_frame};
ghost use Rattle.frames.specs.Taking.{JobTaken, Taken, CodesTaken, numbered_values};

use kinds::{Done, Entry, Kind, Refused, Span};
use lines::FrameError;
use rules::Settings;

// A job's five values, of 32 bits each: one that has more fits no field of a job. Its frame has no field for the mask, which is 0.
fn job_of(values: &[u64]) -> Result<Settings, FrameError>
    ensures { JobTaken values.now result }
{
    let &[k, b, a, m, strand] = values else {
        return Err(FrameError::DoesNotFit);
    };
    Ok(Settings {
        k: u32::try_from(k)?,
        b: u32::try_from(b)?,
        a: u32::try_from(a)?,
        m: u32::try_from(m)?,
        strand: u32::try_from(strand)?,
        mask: 0,
    })
}

// An entry's five values.
#[tactic(auto, unfolding(crate::specs::Frames::entry_of))]
fn entry_of(values: &[u64]) -> Result<Entry, FrameError>
    ensures { Taken 5 entry_of values.now result }
{
    let &[first_start, first_end, second_start, second_end, weight] = values else {
        return Err(FrameError::DoesNotFit);
    };
    Ok(Entry {
        first: Span {
            start: first_start,
            end: first_end,
        },
        second: Span {
            start: second_start,
            end: second_end,
        },
        weight,
    })
}

// The four values of a job that was done.
#[tactic(auto, unfolding(crate::specs::Frames::done_of))]
fn done_of(values: &[u64]) -> Result<Done, FrameError>
    ensures { Taken 4 done_of values.now result }
{
    let &[listed, matches, widest, links] = values else {
        return Err(FrameError::DoesNotFit);
    };
    Ok(Done {
        listed,
        matches,
        widest,
        links,
    })
}

// A refusal's three values.
#[tactic(auto, unfolding(crate::specs::Frames::refused_of))]
fn refused_of(values: &[u64]) -> Result<Refused, FrameError>
    ensures { Taken 3 refused_of values.now result }
{
    let &[number, sequence, detail] = values else {
        return Err(FrameError::DoesNotFit);
    };
    Ok(Refused {
        number,
        sequence,
        detail,
    })
}

// The values as codes in front of lent bytes, where there is room for them: a value that is no byte is no code.
fn put_codes(values: &[u64], codes: &mut [u8]) -> Result<(), FrameError>
    ensures { CodesTaken values.now codes.new result }
{
    if codes.len() < values.len() {
        return Err(FrameError::DoesNotFit);
    }
    for (n, &value) in values.iter().enumerate() {
        codes[n] = u8::try_from(value)?;
    }
    Ok(())
}

// A piece of the first sequence or of the second. Its codes are held in an array of this function's own: a piece has 128 at most.
fn write_piece(kind: Kind, values: &[u64], line: &mut [u8]) -> Result<usize, FrameError>
    ensures value { written_of result ≡ wanted_written (piece_wanted (kind_byte kind) values.now) line.old }
    ensures line_after { line.new ≡ wanted_left (piece_wanted (kind_byte kind) values.now) line.old }
{
    let mut codes = [0u8; 128];
    put_codes(values, &mut codes)?;
    let codes = &codes[..values.len()];
    match kind {
        Kind::FirstPiece => writers::write_first_piece(codes, line),
        _ => writers::write_second_piece(codes, line),
    }
}

// The frame of a kind, where it has so many values.
fn write_kind(kind: u32, values: &[u64], line: &mut [u8]) -> Result<usize, FrameError>
    ensures value { written_of result ≡ wanted_written (frame_wanted kind values.now) line.old }
    ensures line_after { line.new ≡ wanted_left (frame_wanted kind values.now) line.old }
{
    let Ok(kind) = Kind::try_from(kind) else {
        return Err(FrameError::DoesNotFit);
    };
    match kind {
        Kind::Job => writers::write_job(job_of(values)?, line),
        Kind::FirstPiece | Kind::SecondPiece => write_piece(kind, values, line),
        Kind::End if values.is_empty() => writers::write_end(line),
        Kind::End => Err(FrameError::DoesNotFit),
        Kind::Entry => writers::write_entry(entry_of(values)?, line),
        Kind::Done => writers::write_done(done_of(values)?, line),
        Kind::ReverseEntry => writers::write_reverse_entry(entry_of(values)?, line),
        Kind::Refused => writers::write_refused(refused_of(values)?, line),
    }
}

// Writes the frame of any kind: the length of its line with the line feed, or 4,294,967,296 plus 27 and the slice untouched.
// kept: a reply and a kind that are numbers, here and in read_frame: they cross the C boundary as they are.
pub fn write_frame(kind: u32, values: &[u64], line: &mut [u8]) -> u64
    ensures { (result ≡ frame_reply kind values.now line.old) × (line.new ≡ frame_left kind values.now line.old) }
{
    match write_kind(kind, values, line) {
        // kept: there is no u64::from(usize)
        Ok(length) => length as u64,
        Err(_) => 4294967296 + 27,
    }
}

// An entry's values.
#[tactic(auto, unfolding(crate::specs::Frames::entry_values, rules::specs::Lists::then_zeros))]
fn entry_values(entry: Entry) -> [u64; 5]
    ensures { result ≡ then_zeros (entry_values entry) 5 }
{
    [
        entry.first.start,
        entry.first.end,
        entry.second.start,
        entry.second.end,
        entry.weight,
    ]
}

// The values of a job that was done, then a zero.
#[tactic(auto, unfolding(crate::specs::Frames::done_values, rules::specs::Lists::then_zeros))]
fn done_values(done: Done) -> [u64; 5]
    ensures { result ≡ then_zeros (done_values done) 5 }
{
    [done.listed, done.matches, done.widest, done.links, 0]
}

// A refusal's values, then zeros.
#[tactic(auto, unfolding(crate::specs::Frames::refused_values, rules::specs::Lists::then_zeros))]
fn refused_values(refused: Refused) -> [u64; 5]
    ensures { result ≡ then_zeros (refused_values refused) 5 }
{
    [refused.number, refused.sequence, refused.detail, 0, 0]
}

// The values of a line that is to be of a kind that has a reader.
fn read_kind(kind: u32, line: &[u8]) -> Result<[u64; 5], FrameError>
    ensures { numbered_values result ≡ read_frame kind line.now }
{
    match Kind::try_from(kind)? {
        Kind::Entry => Ok(entry_values(readers::read_entry(line)?)),
        Kind::Done => Ok(done_values(readers::read_done(line)?)),
        Kind::ReverseEntry => Ok(entry_values(readers::read_reverse_entry(line)?)),
        Kind::Refused => Ok(refused_values(readers::read_refused(line)?)),
        _ => Err(FrameError::WrongKind),
    }
}

// Reads a line that is to be an entry of either strand, a done frame or a refused one: 0 and its values, or what is wrong with it and zeros.
pub fn read_frame(kind: u32, line: &[u8], values: &mut [u64; 5]) -> u64
    ensures { let o = read_frame kind line.now in (result ≡ o.number) × (values.new ≡ o.values) }
{
    match read_kind(kind, line) {
        Ok(read) => {
            *values = read;
            0
        }
        Err(error) => {
            *values = [0; 5];
            error.number()
        }
    }
}
