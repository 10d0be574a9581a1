// A job that the checks let pass, from the codes of its first sequence and the letters of its second: matched, and then compared, stopped after a row, or
// only measured. The codes can serve any number of second sequences.
// kept: three functions here and two in `admitted`, alike in their arrays: what tells the matches and what is done with them differ, and a closure for either
// would be handed more than it spares. The arrays are fixed memory.
#![tactic(auto)]

ghost use Rattle.std.specs.Prelude.{◌≡◌, []};
ghost use Rattle.rules.specs.Letters.{as_read};
ghost use Rattle.rules.specs.Answers.{left};
ghost use Rattle.answers.specs.Outcomes.{answer_of};
ghost use Rattle.walks.specs.Matched.{Fits};
ghost use Rattle.accepted.specs.Coded.{compared_coded, stopped_coded, needed_coded};

use answers::{Refusal, Tallies};
use matches::Walk;
use rules::Settings;
use strands::Strands;

// Lists what is shared on the strands that are named.
pub fn compare_coded(
    c: Settings,
    coded: &[u64],
    second: &[u8],
    work: &mut [u32],
    list: &mut [u32],
) -> Result<Tallies, Refusal>
    requires { Fits c coded.now second.now }
    ensures { left (answer_of result) work.new list.new ≡ compared_coded c coded.now (as_read c.mask second.now) work.old list.old }
{
    let rows = coded.len();
    // columns of rows and of columns on each strand: places, and no records
    let mut firsts = [0u32; 16384];
    let mut nexts = [0u32; 16384];
    let mut reverse_firsts = [0u32; 16384];
    let mut reverse_nexts = [0u32; 16384];
    let reverse_rows = walks::both(
        c,
        coded,
        second,
        &mut firsts,
        &mut nexts,
        &mut reverse_firsts,
        &mut reverse_nexts,
    );
    let strands = Strands {
        forward: Walk {
            firsts: &firsts[..rows],
            nexts: &nexts,
        },
        reverse: Walk {
            firsts: &reverse_firsts[..reverse_rows],
            nexts: &reverse_nexts,
        },
    };
    jobs::compare_matches(strands, c, second.len() as u32, work, list)
}

// Leaves the run of a row of the one strand that is named.
pub fn stop_coded(
    c: Settings,
    coded: &[u64],
    second: &[u8],
    work: &mut [u32],
    row: u32,
) -> Result<Tallies, Refusal>
    requires { Fits c coded.now second.now }
    ensures { left (answer_of result) work.new [] ≡ stopped_coded c coded.now (as_read c.mask second.now) work.old row }
{
    let rows = coded.len();
    // as above
    let mut firsts = [0u32; 16384];
    let mut nexts = [0u32; 16384];
    walks::strand(c, coded, second, &mut firsts, &mut nexts);
    let walk = Walk {
        firsts: &firsts[..rows],
        nexts: &nexts,
    };
    stopping::stop_matches(walk, c, work, row as usize)
}

// Tells how many records of work room the strands that are named need.
pub fn need_coded(c: Settings, coded: &[u64], second: &[u8]) -> usize
    requires { Fits c coded.now second.now }
    ensures { result ≡ needed_coded c coded.now (as_read c.mask second.now) }
{
    let rows = coded.len();
    // as above
    let mut firsts = [0u32; 16384];
    let mut nexts = [0u32; 16384];
    let mut reverse_firsts = [0u32; 16384];
    let mut reverse_nexts = [0u32; 16384];
    let reverse_rows = walks::both(
        c,
        coded,
        second,
        &mut firsts,
        &mut nexts,
        &mut reverse_firsts,
        &mut reverse_nexts,
    );
    let strands = Strands {
        forward: Walk {
            firsts: &firsts[..rows],
            nexts: &nexts,
        },
        reverse: Walk {
            firsts: &reverse_firsts[..reverse_rows],
            nexts: &reverse_nexts,
        },
    };
    let counts = strands::count_strands(strands, c.b as usize);
    counts.widest
}
