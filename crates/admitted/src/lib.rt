// A job that the checks let pass and whose index is right: matched over the index, and then compared or stopped after a row, as `accepted` does it over the
// letters.
// kept: alike to `accepted`, as told there.
#![tactic(auto)]

ghost use Rattle.std.specs.Prelude.{◌≡◌, []};
ghost use Rattle.rules.specs.Letters.{as_read};
ghost use Rattle.rules.specs.Answers.{left};
ghost use Rattle.answers.specs.Outcomes.{answer_of};
ghost use Rattle.requests.specs.Index.{codes_of};
ghost use Rattle.walks.specs.Matched.{Fits};
ghost use Rattle.mirrored.specs.Mirrored.{FirstFits};
ghost use Rattle.accepted.specs.Coded.{compared_coded, stopped_coded};

use answers::{Refusal, Tallies};
use index::Lookup;
use matches::Walk;
use rules::Settings;
use strands::Strands;

// Lists what is shared on the strands that are named.
pub fn compare_indexed(
    c: Settings,
    first: &[u8],
    second: &[u8],
    coded: &[u64],
    lookup: Lookup,
    work: &mut [u32],
    list: &mut [u32],
) -> Result<Tallies, Refusal>
    requires fits { Fits c coded.now second.now }
    requires fits_first { FirstFits c first.now coded.now }
    requires codes_value { lookup.codes.now ≡ codes_of c.k c.mask second.now }
    ensures { left (answer_of result) work.new list.new ≡ compared_coded c coded.now (as_read c.mask second.now) work.old list.old }
{
    let rows = coded.len();
    // columns of rows and of columns on each strand: places, and no records
    let mut firsts = [0u32; 16384];
    let mut nexts = [0u32; 16384];
    let mut reverse_firsts = [0u32; 16384];
    let mut reverse_nexts = [0u32; 16384];
    let reverse_rows = mirrored::both(
        c,
        first,
        coded,
        lookup,
        &mut firsts,
        &mut nexts,
        &mut reverse_firsts,
        &mut reverse_nexts,
    );
    let strands = Strands {
        forward: Walk {
            firsts: &firsts[..rows],
            nexts: &nexts,
        },
        reverse: Walk {
            firsts: &reverse_firsts[..reverse_rows],
            nexts: &reverse_nexts,
        },
    };
    jobs::compare_matches(strands, c, second.len() as u32, work, list)
}

// Leaves the run of a row of the one strand that is named.
pub fn stop_indexed(
    c: Settings,
    first: &[u8],
    second: &[u8],
    coded: &[u64],
    lookup: Lookup,
    work: &mut [u32],
    row: u32,
) -> Result<Tallies, Refusal>
    requires fits { Fits c coded.now second.now }
    requires fits_first { FirstFits c first.now coded.now }
    requires codes_value { lookup.codes.now ≡ codes_of c.k c.mask second.now }
    ensures { left (answer_of result) work.new [] ≡ stopped_coded c coded.now (as_read c.mask second.now) work.old row }
{
    let rows = coded.len();
    // as above
    let mut firsts = [0u32; 16384];
    let mut nexts = [0u32; 16384];
    mirrored::strand(c, c.strand, first, coded, lookup, &mut firsts, &mut nexts);
    let walk = Walk {
        firsts: &firsts[..rows],
        nexts: &nexts,
    };
    stopping::stop_matches(walk, c, work, row as usize)
}
