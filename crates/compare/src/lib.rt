// The entry points: checks, the codes of the first sequence, and the job. None asks anything of its caller: every setting, sequence and room gets an answer,
// and every number of the rooms is stated.
#![tactic(auto)]

ghost use Rattle.std.specs.Prelude.{◌≡◌, []};
ghost use Rattle.rules.specs.Answers.{left, checked, compared, stopped as stopped_by, replied};
ghost use Rattle.answers.specs.Outcomes.{answer_of, check_of, reply_of};
ghost use Rattle.compare.specs.Ready.{FirstCoded};

use answers::{Refusal, Tallies};
use rules::Settings;

// Checks 1 to 6, with 9 and 10 after 4, and the codes of the first sequence in a lent array.
pub fn code_first<'a>(
    settings: Settings,
    first: &[u8],
    second: &[u8],
    codes: &'a mut [u64; 16384],
) -> Result<&'a [u64], Refusal>
    ensures { FirstCoded settings first.now second.now result }
{
    refusals::check(settings, first, second)?;
    let rows = kmers::code_all(first, settings.k, settings.mask, codes);
    Ok(&codes[..rows])
}

// Lists the intervals that two sequences share, on the forward strand or on both. Checks 1 to 8, with 9 and 10 after 4: the
// first that applies.
pub fn compare(
    settings: Settings,
    first: &[u8],
    second: &[u8],
    work: &mut [u32],
    list: &mut [u32],
) -> Result<Tallies, Refusal>
    ensures { left (answer_of result) work.new list.new ≡ compared settings first.now second.now work.old list.old }
{
    // codes, and no records
    let mut codes = [0u64; 16384];
    let coded = code_first(settings, first, second, &mut codes)?;
    accepted::compare_coded(settings, coded, second, work, list)
}

// Sweeps one strand up to a row and leaves the run of that row in work room. Checks 1 to 7, with 9 and 10 after 4, then 19; m is checked and not
// used.
pub fn stopped(
    settings: Settings,
    first: &[u8],
    second: &[u8],
    work: &mut [u32],
    row: u32,
) -> Result<Tallies, Refusal>
    ensures { left (answer_of result) work.new [] ≡ stopped_by settings first.now second.now work.old row }
{
    // as above
    let mut codes = [0u64; 16384];
    let coded = code_first(settings, first, second, &mut codes)?;
    accepted::stop_coded(settings, coded, second, work, row)
}

// How many records of work room a job needs: W, the larger of both strands. Checks 1 to 6, with 9 and 10 after 4.
pub fn need(settings: Settings, first: &[u8], second: &[u8]) -> Result<usize, Refusal>
    ensures checks { check_of result ≡ checked settings first.now second.now }
    ensures value { reply_of result ≡ replied settings first.now second.now }
{
    // as above
    let mut codes = [0u64; 16384];
    let coded = code_first(settings, first, second, &mut codes)?;
    Ok(accepted::need_coded(settings, coded, second))
}

// The reply over the C boundary: the records that are needed, or 4,294,967,296 plus the refusal's number.
pub fn reply(needed: Result<usize, Refusal>) -> u64
    ensures { result ≡ reply_of needed }
{
    match needed {
        Ok(records) => records as u64,
        Err(refusal) => 4294967296 + refusal.numbers().0,
    }
}
