// The stopped sweep once the matches of its strand are known: tallies, checks 7 and 19, and the run of a row. No letters here.
#![tactic(auto)]

ghost use Rattle.std.specs.Prelude.{◌≡◌, [], ◌-◌, ◌*◌, ◌^◌, ◌≤◌, ◌<◌, length};
ghost use Rattle.matches.specs.Walks.{walked, walked_need};
ghost use Rattle.rules.specs.Answers.{left};
ghost use Rattle.answers.specs.Outcomes.{answer_of};
ghost use Rattle.strands.specs.Strands.{Walked};
ghost use Rattle.stopping.specs.Stopping.{stopped_of, Holds, RingFrom};

use answers::{Refusal, Tallies};
use matches::Walk;
use predecessors::Ring;
use rules::Settings;

// A ring of so many slots in which record number `before` lies in slot 0.
fn ring_from(size: usize, before: usize) -> Ring
    requires le_size { 1 ≤ size }
    requires size_bound { size < 2 ^ 32 }
    ensures { RingFrom size before result }
{
    let over = before % size;
    if over == 0 {
        return Ring { size, origin: 0 };
    }
    Ring {
        size,
        origin: size - over,
    }
}

// Sweeps the rows up to `row` over W slots so that its run begins in slot 0, and leaves it there, zeros after it; returns how many records it holds.
fn hold(walk: Walk, widest: usize, c: Settings, work: &mut [u32], row: usize) -> usize
    requires walked { Walked walk.firsts.now walk.nexts.now c }
    requires widest_in_bounds { 8 * widest ≤ length work.old }
    requires widest_bound { widest < 2 ^ 32 }
    requires row_in_bounds { row ≤ length walk.firsts.now }
    requires nexts_bound { walked_need c.b walk.firsts.now walk.nexts.now ≤ widest }
    ensures { Holds walk.entry.firsts.now walk.entry.nexts.now c row work.old work.new result }
{
    if widest == 0 {
        rooms::zero_all(work);
        return 0;
    }
    // the last row before the run, or 0
    let last = row.saturating_sub(c.b as usize + 1);
    let before = tally::matches_before(walk, last);
    let ring = ring_from(widest, before);
    let first_rows = Walk {
        firsts: &walk.firsts[..row],
        nexts: walk.nexts,
    };
    sweep::hold_run(first_rows, work, ring, c)
}

// Checks 7 and 19 and the run of a row, on one strand.
pub fn stop_matches(
    walk: Walk,
    c: Settings,
    work: &mut [u32],
    row: usize,
) -> Result<Tallies, Refusal>
    requires { Walked walk.firsts.now walk.nexts.now c }
    ensures { left (answer_of result) work.new [] ≡ stopped_of c (walked walk.entry.firsts.now walk.entry.nexts.now) (length walk.entry.firsts.now) work.old row }
{
    let b = c.b as usize;
    let counts = tally::count_matches(walk, b);
    let widest = counts.widest;
    let holds = rooms::record_count(work);
    if holds < widest {
        rooms::zero_all(work);
        return Err(Refusal::WorkRoom(widest));
    }
    let rows = walk.firsts.len();
    if rows < row {
        rooms::zero_all(work);
        return Err(Refusal::NoRow(rows));
    }
    let held = hold(walk, widest, c, work, row);
    let links = links::count_links(walk, b);
    Ok(Tallies {
        listed: held,
        matches: counts.matches,
        widest,
        links,
    })
}
