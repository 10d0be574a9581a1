// The predecessor of a match, found by walking columns down from its own. A column is known by the running number of its latest record: of two left
// extensions the one at or beyond the other in both sequences weighs strictly more (CR 3), so what is overtaken never wins.
#![tactic(auto)]

ghost use Rattle.std.specs.Prelude.{◌≡◌, ◌+◌, ◌*◌, ◌≤◌, length};
ghost use Rattle.rules.specs.Records.{beats, better};
ghost use Rattle.records.specs.Layout.{record_in};
ghost use Rattle.predecessors.specs.Numbers.{slot_of, numbered};
ghost use Rattle.predecessors.specs.Index.{Safe, Found};
ghost use Rattle.predecessors.specs.Found.{number_of, near_of, column_of};

use rules::Record;
use std::cmp::Reverse;

mod ring;

pub use ring::Ring;

// kept: `latest` has one more than a running number, and 0 for none, since `Columns` of Index.antt says so and the array is fixed memory.

// The records so far, by their running numbers: `head` of them, those from `tail` on in the ring, those from `from` on of the latest row; and the gap
// bound.
#[derive(Clone, Copy)]
pub struct Held {
    pub ring: Ring,
    pub tail: usize,
    pub head: usize,
    pub from: usize,
    pub b: usize,
}

// The nearest match on the left in the same row.
#[derive(Clone, Copy)]
pub struct Near {
    // its record's running number
    pub record: usize,
    pub column: usize,
}

// Whether x is preferred to y as a predecessor: more weight, then the smaller column, then the smaller row. That is the paper's rule for any two
// records; between two left extensions of one match the row never decides (CR 3).
pub fn preferred(x: Record, y: Record) -> bool
    ensures { result ≡ beats x y }
{
    let first = (Reverse(x.weight), x.cell.column, x.cell.row);
    let second = (Reverse(y.weight), y.cell.column, y.cell.row);
    first < second
}

// The preferred one of record `best`, if there is one, and record g.
fn weigh(room: &[u32], ring: Ring, best: Option<usize>, g: usize) -> usize
    requires { 8 * ring.size ≤ length room.now }
    ensures { numbered room.now ring (result + 1) ≡ better (numbered room.now ring (number_of best)) (record_in room.now (slot_of ring g)) }
{
    match best {
        Some(h) => {
            let x = records::record_at(room, ring.slot(g));
            let y = records::record_at(room, ring.slot(h));
            if preferred(x, y) { g } else { h }
        }
        None => g,
    }
}

// The predecessor of the match in column j, by its record's running number. `near` is the nearest match on the left in the same row. The walks of one
// row are disjoint, so a row costs at most its columns.
pub fn search(
    room: &[u32],
    latest: &[u32],
    held: Held,
    near: Option<Near>,
    j: usize,
) -> Option<usize>
    requires { Safe room.now latest.now held.ring j }
    ensures { Found room.now latest.now held.ring held.tail (near_of near) (column_of near) held.from held.b j (number_of result) }
{
    // the first column that can hold a left extension, or 0
    let low = j.saturating_sub(held.b);
    // the last column that need not be looked at, and what the walk begins with: the match on the left, where the window reaches it
    let (stop, mut best) = match near {
        Some(left) if low <= left.column => (left.column, Some(left.record)),
        _ => (low.saturating_sub(1), None),
    };
    let mut top = held.tail;
    for q in (stop..j).rev() {
        let s = latest[q + 1] as usize;
        if top < s {
            top = s;
            best = Some(weigh(room, held.ring, best, s - 1));
            if held.from < s {
                break;
            }
        }
    }
    best
}
