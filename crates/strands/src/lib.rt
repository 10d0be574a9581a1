// The two strands of a job: their tallies together, and their entries one after the other. Both are swept alike; only reverse entries are turned back.
// Each strand's matches come as walks, and a strand that is not asked for has no rows.
#![tactic(auto)]

ghost use Rattle.std.specs.Prelude.{◌≡◌, ◌+◌, ◌*◌, ◌^◌, ◌<◌, ◌≤◌, length};
ghost use Rattle.matches.specs.Walks.{walked, walked_need};
ghost use Rattle.rules.specs.Listing.{entry_numbers};
ghost use Rattle.rules.specs.Rooms.{pairs};
ghost use Rattle.rules.specs.Strands.{reverse_numbers};
ghost use Rattle.strands.specs.Strands.{both_counts, Walked, ListsAs, ListsBoth};

use matches::Walk;
use predecessors::Ring;
use rules::Settings;
use tally::Counts;

#[derive(Clone, Copy)]
pub struct Strands<'a> {
    pub forward: Walk<'a>,
    pub reverse: Walk<'a>,
}

// The matches of both strands together, and the larger need.
pub fn count_strands(strands: Strands, b: usize) -> Counts
    ensures { result ≡ both_counts b (walked strands.entry.forward.firsts.now strands.entry.forward.nexts.now) (length strands.entry.forward.firsts.now) (walked strands.entry.reverse.firsts.now strands.entry.reverse.nexts.now) (length strands.entry.reverse.firsts.now) }
{
    let forward = tally::count_matches(strands.forward, b);
    let reverse = tally::count_matches(strands.reverse, b);
    Counts {
        matches: forward.matches + reverse.matches,
        widest: forward.widest.max(reverse.widest),
    }
}

// The links of both strands together. Each has at most 2^56, so that the sum does not wrap.
pub fn link_strands(strands: Strands, b: usize) -> u64
    ensures { result ≡ pairs b (walked strands.entry.forward.firsts.now strands.entry.forward.nexts.now) + pairs b (walked strands.entry.reverse.firsts.now strands.entry.reverse.nexts.now) }
{
    links::count_links(strands.forward, b) + links::count_links(strands.reverse, b)
}

// Sweeps all rows of a strand over so many slots of work room, at least its W, and lists what is listed, as forward entries; returns how many entries
// there are, also where the list room is too short.
fn list_strand(walk: Walk, slots: usize, c: Settings, work: &mut [u32], list: &mut [u32]) -> usize
    requires walked { Walked walk.firsts.now walk.nexts.now c }
    requires slots_in_bounds { 8 * slots ≤ length work.old }
    requires slots_bound { slots < 2 ^ 32 }
    requires nexts_bound { walked_need c.b walk.firsts.now walk.nexts.now ≤ slots }
    ensures { ListsAs (entry_numbers c.k) walk.entry.firsts.now walk.entry.nexts.now c list.new result }
{
    if slots == 0 {
        return 0;
    }
    let ring = Ring {
        size: slots,
        origin: 0,
    };
    sweep::list_all(walk, work, ring, c, list)
}

// Lists the reverse strand in the same way, and turns its entries back where the list room holds them.
fn list_turned(
    walk: Walk,
    slots: usize,
    c: Settings,
    letters: u32,
    work: &mut [u32],
    list: &mut [u32],
) -> usize
    requires walked { Walked walk.firsts.now walk.nexts.now c }
    requires slots_in_bounds { 8 * slots ≤ length work.old }
    requires slots_bound { slots < 2 ^ 32 }
    requires letters_bound { letters ≤ 16384 }
    requires nexts_bound { walked_need c.b walk.firsts.now walk.nexts.now ≤ slots }
    ensures { ListsAs (reverse_numbers letters c.k) walk.entry.firsts.now walk.entry.nexts.now c list.new result }
{
    let count = list_strand(walk, slots, c, work, list);
    if count <= rooms::entry_count(list) {
        entries::turn_entries(list, count, letters);
    }
    count
}

// Lists the forward strand, and the reverse strand behind it, over slots for the larger need; returns how many entries there are. The second sequence
// has so many letters.
pub fn list_strands(
    strands: Strands,
    slots: usize,
    c: Settings,
    letters: u32,
    work: &mut [u32],
    list: &mut [u32],
) -> usize
    requires walked { Walked strands.forward.firsts.now strands.forward.nexts.now c }
    requires walked_2 { Walked strands.reverse.firsts.now strands.reverse.nexts.now c }
    requires slots_in_bounds { 8 * slots ≤ length work.old }
    requires slots_bound { slots < 2 ^ 32 }
    requires letters_bound { letters ≤ 16384 }
    requires nexts_bound { walked_need c.b strands.forward.firsts.now strands.forward.nexts.now ≤ slots }
    requires reverse_nexts_bound { walked_need c.b strands.reverse.firsts.now strands.reverse.nexts.now ≤ slots }
    ensures { ListsBoth strands.entry.forward.firsts.now strands.entry.forward.nexts.now strands.entry.reverse.firsts.now strands.entry.reverse.nexts.now c letters list.new result }
{
    let forward = list_strand(strands.forward, slots, c, work, list);
    let at = rooms::entries_end(list, forward);
    let reverse = list_turned(strands.reverse, slots, c, letters, work, &mut list[at..]);
    forward + reverse
}
