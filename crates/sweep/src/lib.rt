// The sweep, row by row: every row below i - b is released first, and then row i is stored. It knows rows, columns and numbers, never letters.
#![tactic(auto)]

ghost use Rattle.std.specs.Prelude.{◌≡◌, ◌-◌, ◌<◌, ◌≤◌, length};
ghost use Rattle.matches.specs.Walks.{walked_to, walked_need};
ghost use Rattle.predecessors.specs.Numbers.{slot_of};
ghost use Rattle.sweep.specs.Sweeping.{later_from, leaves_at, SweepSafe, SweepDone, ListsAll, HoldsRun};
ghost use Rattle.sweep.specs.Latest.{NoneLatest};

use listing::Released;
use matches::Walk;
use predecessors::{Held, Ring};
use rules::Settings;

// Where a sweep stands after its last row.
#[derive(Clone, Copy)]
pub struct Swept {
    // the number of the first record that is still held
    pub tail: usize,
    // how many records there were
    pub head: usize,
    // the entries so far
    pub listed: usize,
}

// The number from which records are of the latest row: the row just stored, where it has any.
fn later_from(h: usize, head: usize, from: usize) -> usize
    ensures { result ≡ later_from h head from }
{
    if h == head { from } else { head }
}

// Whether rows leave when row p + 1 enters: row p - b does, where there is one, and nothing is to be released where it has no match.
fn leaves(walk: Walk, b: usize, p: usize) -> bool
    requires { p < length walk.firsts.now }
    ensures { result ≡ leaves_at walk.entry.firsts.now b p }
{
    match walk.leaving(b, p) {
        Some(row) => row.at != 0,
        None => false,
    }
}

// All rows. A step a row and a match; no room but the ring's is kept from one match to the next, and `latest` holds running numbers only.
fn sweep(
    walk: Walk,
    room: &mut [u32],
    latest: &mut [u32],
    ring: Ring,
    c: Settings,
    list: &mut [u32],
) -> Swept
    requires sweep_safe { SweepSafe walk.firsts.now walk.nexts.now room.old ring c }
    requires none_latest { NoneLatest latest.old }
    ensures { SweepDone walk.entry.firsts.now walk.entry.nexts.now ring c room.new latest.new list.new result }
{
    let mut held = Held {
        ring,
        tail: 0,
        head: 0,
        from: 0,
        b: c.b as usize,
    };
    let mut listed = 0;
    for p in 0..walk.rows() {
        let row = p + 1;
        let released = if leaves(walk, held.b, p) {
            listing::release(room, latest, held, c, row, list, listed)
        } else {
            Released {
                tail: held.tail,
                listed,
            }
        };
        held.tail = released.tail;
        listed = released.listed;
        let head = rows::store_row(walk.row(p), room, latest, held, row);
        held.from = later_from(head, held.head, held.from);
        held.head = head;
    }
    Swept {
        tail: held.tail,
        head: held.head,
        listed,
    }
}

// Sweeps all rows over a ring of at least W slots and releases them all; returns how many entries there are, also where the list room is too short for
// them.
pub fn list_all(walk: Walk, room: &mut [u32], ring: Ring, c: Settings, list: &mut [u32]) -> usize
    requires sweep_safe { SweepSafe walk.firsts.now walk.nexts.now room.old ring c }
    requires nexts_bound { walked_need c.b walk.firsts.now walk.nexts.now ≤ ring.size }
    ensures { ListsAll walk.entry.firsts.now walk.entry.nexts.now c list.new result }
{
    // one more than the running number of each column's latest record: numbers, and no records
    let mut latest = [0; 16385];
    let swept = sweep(walk, room, &mut latest, ring, c, list);
    let held = Held {
        ring,
        tail: swept.tail,
        head: swept.head,
        from: swept.head,
        b: c.b as usize,
    };
    let last = walk.rows() + c.b as usize + 1;
    listing::release(room, &latest, held, c, last, list, swept.listed).listed
}

// Sweeps all rows over a ring of at least W slots, in which the run of the last one begins in slot 0, and leaves it there, zeros after it; returns how
// many records it holds.
pub fn hold_run(walk: Walk, room: &mut [u32], ring: Ring, c: Settings) -> usize
    requires sweep_safe { SweepSafe walk.firsts.now walk.nexts.now room.old ring c }
    requires nexts_bound { walked_need c.b walk.firsts.now walk.nexts.now ≤ ring.size }
    requires b_value { slot_of ring (length (walked_to walk.firsts.now walk.nexts.now (length walk.firsts.now - c.b - 1))) ≡ 0 }
    ensures { HoldsRun walk.entry.firsts.now walk.entry.nexts.now c room.old room.new result }
{
    // numbers, and no records, as above
    let mut latest = [0; 16385];
    // a list room that holds no entry
    let mut list = [0; 1];
    let swept = sweep(walk, room, &mut latest, ring, c, &mut list);
    let held = swept.head - swept.tail;
    rooms::zero_after(room, held);
    held
}
