// Records in work room, one in each slot of eight numbers. No other code knows this layout.
#![tactic(auto)]

ghost use Rattle.std.specs.Prelude.{◌≡◌, ◌+◌, ◌*◌, ◌≤◌, length};
ghost use Rattle.records.specs.Layout.{record_in, put_record};

use rules::{Cell, Record};

// The record in a slot, which counts from 0.
pub fn record_at(room: &[u32], slot: usize) -> Record
    requires { 8 * slot + 8 ≤ length room.now }
    ensures { result ≡ record_in room.now slot }
{
    let at = 8 * slot;
    Record {
        cell: Cell {
            row: room[at],
            column: room[at + 1],
        },
        weight: room[at + 2],
        start: Cell {
            row: room[at + 3],
            column: room[at + 4],
        },
    }
}

// A record put into a slot.
pub fn put_record(room: &mut [u32], slot: usize, x: Record)
    requires { 8 * slot + 8 ≤ length room.old }
    ensures { room.new ≡ put_record room.old slot x }
{
    let at = 8 * slot;
    // kept: eight stores, once a match; an array that is copied in goes through the stack, with a test that it does not overlap
    room[at] = x.cell.row;
    room[at + 1] = x.cell.column;
    room[at + 2] = x.weight;
    room[at + 3] = x.start.row;
    room[at + 4] = x.start.column;
    room[at + 5] = 0;
    room[at + 6] = 0;
    room[at + 7] = 0;
}
