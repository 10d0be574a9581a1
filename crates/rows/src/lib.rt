// A row of matches stored as records: for each, its predecessor is found and its record goes behind the others.
#![tactic(auto)]

ghost use Rattle.std.specs.Prelude.{◌≡◌, ◌*◌, ◌≤◌, length};
ghost use Rattle.predecessors.specs.Numbers.{numbered};
ghost use Rattle.predecessors.specs.Found.{number_of, near_of, column_of};
ghost use Rattle.rows.specs.Machine.{next_record, AddSafe, Added};
ghost use Rattle.rows.specs.Rows.{RowSafe, RowDone};

use matches::Columns;
use predecessors::{Held, Near, Ring};
use rules::{Cell, Record};

// The record of a match, whose predecessor is record p. No weight comes near 32 bits, so the sum does not wrap.
fn next_record(room: &[u32], ring: Ring, p: Option<usize>, here: Cell) -> Record
    requires { 8 * ring.size ≤ length room.now }
    ensures { result ≡ next_record here (numbered room.now ring (number_of p)) }
{
    match p {
        Some(g) => {
            let x = records::record_at(room, ring.slot(g));
            Record {
                cell: here,
                weight: x.weight.wrapping_add(1),
                start: x.start,
            }
        }
        None => Record {
            cell: here,
            weight: 1,
            start: here,
        },
    }
}

// Finds the predecessor of the match (i, j) and stores its record behind those that there are.
fn add(room: &mut [u32], latest: &mut [u32], held: Held, near: Option<Near>, i: usize, j: usize)
    requires { AddSafe room.old latest.old held.ring held.head i j }
    ensures { Added held.b i j room.old latest.old held.ring held.tail held.head (near_of near) (column_of near) held.from room.new latest.new }
{
    let p = predecessors::search(room, latest, held, near, j);
    let here = Cell {
        row: i as u32,
        column: j as u32,
    };
    let next = next_record(room, held.ring, p, here);
    records::put_record(room, held.ring.slot(held.head), next);
    latest[j] = (held.head + 1) as u32;
}

// Stores the records of row i. Returns how many records there are in all. One step a match, and in all at most the row's columns for the searches.
pub fn store_row(row: Columns, room: &mut [u32], latest: &mut [u32], held: Held, i: usize) -> usize
    requires { RowSafe room.old latest.old row.nexts.now held.ring held.head row.at i }
    ensures { RowDone held.b i room.old latest.old row.entry.nexts.now held.ring held.tail held.head held.from row.entry.at room.new latest.new result }
{
    let mut head = held.head;
    let mut near = None;
    for j in row {
        add(room, latest, Held { head, ..held }, near, i, j);
        near = Some(Near {
            record: head,
            column: j,
        });
        head += 1;
    }
    head
}
