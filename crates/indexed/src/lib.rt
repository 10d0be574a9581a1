// The entry points over an index: the checks, then 12, then what `compare` does without one. None asks anything of its caller: every setting, sequence, slice
// and room gets an answer, and every number of the rooms is stated; the slice is only read.
#![tactic(auto)]

ghost use Rattle.std.specs.Prelude.{◌≡◌, [], ◌≤◌, length, MatchResult};
ghost use Rattle.rules.specs.Answers.{left};
ghost use Rattle.requests.specs.Index.{compared_over, stopped_over};
ghost use Rattle.answers.specs.Outcomes.{answer_of};
ghost use Rattle.indexed.specs.Found.{Found, Wrong};

use answers::{Refusal, Tallies};
use index::Lookup;
use rules::Settings;

// The codes of the second sequence, in a lent array, and the slice that begins with their index, its keys in another: 12 where it does not.
fn look_up<'a>(
    settings: Settings,
    second: &[u8],
    index: &'a [u32],
    codes: &'a mut [u64; 16384],
    keys: &'a mut [u64; 16384],
) -> Result<Lookup<'a>, Refusal>
    requires le_k { 1 ≤ settings.k }
    requires k_bound { settings.k ≤ 31 }
    requires second_len_bound { length second.now ≤ 16384 }
    ensures { MatchResult result (λ lookup. Found settings second.now index.now lookup.codes.now) (Wrong settings second.now index.now) }
{
    let columns = kmers::code_all(second, settings.k, settings.mask, codes);
    let codes = &codes[..columns];
    let held = index::check(codes, index, keys);
    match held {
        Ok(places) => Ok(Lookup {
            codes,
            index,
            keys,
            places,
        }),
        Err(_) => Err(Refusal::WrongIndex),
    }
}

// The compare job. Checks 1 to 6, with 9 and 10 after 4, then 12, 7 and 8: the first that applies.
pub fn compare_over(
    settings: Settings,
    first: &[u8],
    second: &[u8],
    index: &[u32],
    work: &mut [u32],
    list: &mut [u32],
) -> Result<Tallies, Refusal>
    ensures { left (answer_of result) work.new list.new ≡ compared_over settings first.now second.now index.now work.old list.old }
{
    // codes, and no records
    let mut first_codes = [0u64; 16384];
    let coded = compare::code_first(settings, first, second, &mut first_codes)?;
    let mut codes = [0u64; 16384];
    let mut keys = [0u64; 16384];
    let lookup = look_up(settings, second, index, &mut codes, &mut keys)?;
    admitted::compare_indexed(settings, first, second, coded, lookup, work, list)
}

// The stopped sweep. Checks 1 to 6, with 9 and 10 after 4, then 12, 7 and 19.
pub fn stopped_over(
    settings: Settings,
    first: &[u8],
    second: &[u8],
    index: &[u32],
    work: &mut [u32],
    row: u32,
) -> Result<Tallies, Refusal>
    ensures { left (answer_of result) work.new [] ≡ stopped_over settings first.now second.now index.now work.old row }
{
    // as above
    let mut first_codes = [0u64; 16384];
    let coded = compare::code_first(settings, first, second, &mut first_codes)?;
    let mut codes = [0u64; 16384];
    let mut keys = [0u64; 16384];
    let lookup = look_up(settings, second, index, &mut codes, &mut keys)?;
    admitted::stop_indexed(settings, first, second, coded, lookup, work, row)
}
