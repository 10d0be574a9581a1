// Rows that leave the room: a record is released once no later row can extend it, and then it is known whether its match is listed.
#![tactic(auto)]

ghost use Rattle.std.specs.Prelude.{◌≡◌, ◌+◌, ◌-◌, ◌^◌, ◌≤◌, ◌<◌};
ghost use Rattle.listing.specs.Leaving.{later_in, some_from, passes, listed_count, listed_room, ReleaseSafe, ReleaseDone};

use predecessors::Held;
use rules::{Record, Settings};

// Whether a record of column q comes after record t: the column's latest does.
fn goes_on(latest: &[u32], t: usize, q: usize) -> bool
    requires { t < 2 ^ 32 }
    ensures { result ≡ later_in latest.now t q }
{
    q < latest.len() && t + 1 < latest[q] as usize
}

// Whether record t, a match of column j, is not closed. As it leaves, no record is more than b rows on, and those after it lie below it, or in its row
// and to its right: it is a left extension of each that columns j to j + b have. At most b + 1 columns are looked at, and few where matches are many.
fn is_open(latest: &[u32], t: usize, j: usize, b: usize) -> bool
    requires t_bound { t < 2 ^ 32 }
    requires j_bound { j < 2 ^ 32 }
    requires b_bound { b < 2 ^ 32 }
    ensures { result ≡ some_from (later_in latest.now t) j (b + 1) }
{
    for q in j..j + b + 1 {
        if goes_on(latest, t, q) {
            return true;
        }
    }
    false
}

// The bases from a start to the end of the k-mer that begins at `last`.
fn span(last: u32, k: u32, start: u32) -> u64
    ensures { result ≡ last + k - start }
{
    (u64::from(last) + u64::from(k)).saturating_sub(u64::from(start))
}

// Whether record t, the match x, is listed: closed, and both spans at least m. The spans are tested first, since they cost least.
fn is_listed(latest: &[u32], t: usize, x: Record, c: Settings) -> bool
    requires { t < 2 ^ 32 }
    ensures { result ≡ passes latest.now t x c }
{
    let m = u64::from(c.m);
    let first = span(x.cell.row, c.k, x.start.row);
    let second = span(x.cell.column, c.k, x.start.column);
    m <= first.min(second) && !is_open(latest, t, x.cell.column as usize, c.b as usize)
}

// Lists record t, the match x, behind n entries if it is listed, and returns how many there are then: also those that the list room cannot hold.
fn list_record(
    latest: &[u32],
    t: usize,
    x: Record,
    c: Settings,
    list: &mut [u32],
    n: usize,
) -> usize
    requires t_bound { t < 2 ^ 32 }
    requires n_bound { n < 2 ^ 32 }
    requires le_k { 1 ≤ c.k }
    ensures value { result ≡ listed_count (passes latest.now t x c) n }
    ensures list_after { list.new ≡ listed_room (passes latest.now t x c) c.k x list.old n }
{
    if !is_listed(latest, t, x, c) {
        return n;
    }
    if n < rooms::entry_count(list) {
        entries::put_entry(list, n, c.k, x);
    }
    n + 1
}

#[derive(Clone, Copy)]
pub struct Released {
    // the number of the first record that is still held
    pub tail: usize,
    // the entries so far
    pub listed: usize,
}

// Releases every row below i - b, and lists those of its matches that are to be listed: by row, then column, as they were stored. One step a record.
pub fn release(
    room: &[u32],
    latest: &[u32],
    held: Held,
    c: Settings,
    i: usize,
    list: &mut [u32],
    listed: usize,
) -> Released
    requires { ReleaseSafe room.now held.ring held.tail held.head c listed }
    ensures { ReleaseDone c i room.now latest.now held.ring held.tail held.head list.old listed list.new result }
{
    let b = c.b as usize;
    let mut listed = listed;
    for t in held.tail..held.head {
        let x = records::record_at(room, held.ring.slot(t));
        if i <= x.cell.row as usize + b {
            return Released { tail: t, listed };
        }
        listed = list_record(latest, t, x, c, list, listed);
    }
    Released {
        tail: held.head,
        listed,
    }
}
