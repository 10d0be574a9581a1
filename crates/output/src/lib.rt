// The whole output of a job, as lines of frames.
#![tactic(auto)]

ghost use Rattle.std.specs.Prelude.{◌≡◌, true, ◌++◌, ◌+◌, ◌*◌, ◌≤◌, length, drop};
ghost use Rattle.rules.specs.Lists.{laid};
ghost use Rattle.lines.specs.Writing.{in_front, written, written_of, leaves};
ghost use Rattle.answers.specs.Outcomes.{tallied};
ghost use Rattle.kinds.specs.Kinds.{entry_fits, refused_line, refused_fits};
ghost use Rattle.output.specs.Output.{entry_of, line_of_entry, job_output};
ghost use Rattle.output.specs.Entries.{entry_in, entries_in, EntriesSafe, ListingSafe, listing_lines};

use answers::Tallies;
use kinds::{Done, Entry, Refused, Span};
use lines::FrameError;
use rules::Settings;

// The first five of an entry's six numbers.
fn entry_of(numbers: &[u32; 6]) -> Entry
    ensures { result ≡ entry_of numbers.now }
{
    let &[first_start, first_end, second_start, second_end, weight, _] = numbers;
    Entry {
        first: Span {
            start: u64::from(first_start),
            end: u64::from(first_end),
        },
        second: Span {
            start: u64::from(second_start),
            end: u64::from(second_end),
        },
        weight: u64::from(weight),
    }
}

// Writes the line of an entry: its kind tells the strand.
fn put_entry(numbers: &[u32; 6], output: &mut [u8]) -> Result<usize, FrameError>
    ensures value { written_of result ≡ written (entry_fits (entry_of numbers.now)) (line_of_entry numbers.now) output.old }
    ensures output_after { output.new ≡ leaves (entry_fits (entry_of numbers.now)) (line_of_entry numbers.now) output.old }
{
    let entry = entry_of(numbers);
    // kept: the list room holds the strand as a number, as C reads it
    if numbers[5] == 0 {
        writers::write_entry(entry, output)
    } else {
        writers::write_reverse_entry(entry, output)
    }
}

// Writes the first entries of a list room, a line each, and returns where the lines end.
fn put_entries(list: &[u32], count: usize, output: &mut [u8]) -> usize
    requires { EntriesSafe list.now output.old count }
    ensures value { result ≡ 27 * count }
    ensures output_after { output.new ≡ laid line_of_entry (entries_in list.now count) ++ drop (27 * count) output.old }
{
    let (entries, _) = list.as_chunks::<6>();
    let mut at = 0;
    for entry in &entries[..count] {
        at += put_entry(entry, &mut output[at..]).unwrap();
    }
    at
}

// Writes the entries of a list room and one done frame, and returns where the lines end.
#[tactic(auto, unfolding(rules::specs::Answers::done))]
fn put_listing(list: &[u32], tallies: Tallies, output: &mut [u8]) -> usize
    requires { ListingSafe list.now output.old (tallied tallies) }
    ensures value { result ≡ length (listing_lines list.now (tallied tallies)) }
    ensures output_after { output.new ≡ in_front (listing_lines list.now (tallied tallies)) output.old }
{
    let at = put_entries(list, tallies.listed, output);
    // kept: there is no u64::from(usize)
    let done = Done {
        listed: tallies.listed as u64,
        matches: tallies.matches as u64,
        widest: tallies.widest as u64,
        links: tallies.links,
    };
    at + writers::write_done(done, &mut output[at..]).unwrap()
}

// Writes one refused frame, and returns where its line ends.
pub fn put_refused(x: Refused, output: &mut [u8]) -> usize
    requires x_value { refused_fits x ≡ true }
    requires in_bounds { 9038 ≤ length output.old }
    ensures value { result ≡ length (refused_line x) }
    ensures output_after { output.new ≡ in_front (refused_line x) output.old }
{
    writers::write_refused(x, output).unwrap()
}

// Runs a job in the rooms that the paper names and writes its whole output, at most 333 entries of 27 bytes and a done frame of 47.
pub fn answer_job(c: Settings, first: &[u8], second: &[u8], output: &mut [u8]) -> usize
    requires { 9038 ≤ length output.old }
    ensures value { result ≡ length (job_output c first.now second.now) }
    ensures output_after { output.new ≡ in_front (job_output c first.now second.now) output.old }
{
    let mut work = [0u32; 4096];
    let mut list = [0u32; 2000];
    match compare::compare(c, first, second, &mut work, &mut list) {
        Ok(tallies) => put_listing(&list, tallies, output),
        Err(refusal) => {
            let (number, sequence, detail) = refusal.numbers();
            let refused = Refused {
                number,
                sequence,
                detail,
            };
            put_refused(refused, output)
        }
    }
}
