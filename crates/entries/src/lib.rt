// Entries in list room, one in each six numbers: forward entries put behind each other, and reverse ones turned back. Below the frames no other code knows this layout.
#![tactic(auto)]

ghost use Rattle.std.specs.Prelude.{◌≡◌, ◌+◌, ◌*◌, ◌≤◌, length};
ghost use Rattle.rules.specs.Strands.{turned};
ghost use Rattle.entries.specs.Layout.{put_entry, turn_entry, turn_entries};

use rules::Record;

// The forward entry of a record put behind n others. No end comes near 32 bits, so the sums do not wrap.
pub fn put_entry(list: &mut [u32], n: usize, k: u32, x: Record)
    requires n_in_bounds { 6 * n + 6 ≤ length list.old }
    requires le_k { 1 ≤ k }
    ensures { list.new ≡ put_entry list.old n k x }
{
    let last = k - 1;
    let at = 6 * n;
    // as in `records`, stores
    list[at] = x.start.row;
    list[at + 1] = x.cell.row.wrapping_add(last);
    list[at + 2] = x.start.column;
    list[at + 3] = x.cell.column.wrapping_add(last);
    list[at + 4] = x.weight;
    list[at + 5] = 0;
}

// A place of a sequence of so many letters, counted from its other end.
fn turned_place(letters: u32, place: u32) -> u32
    requires { letters ≤ 16384 }
    ensures { result ≡ turned letters place }
{
    (letters + 1).saturating_sub(place)
}

// The entry behind n others turned back: the places of the second sequence counted from its other end, start and end exchanged, and the strand 1.
fn turn_entry(list: &mut [u32], n: usize, letters: u32)
    requires n_in_bounds { 6 * n + 6 ≤ length list.old }
    requires letters_bound { letters ≤ 16384 }
    ensures { list.new ≡ turn_entry letters list.old n }
{
    let at = 6 * n;
    let start = turned_place(letters, list[at + 3]);
    let end = turned_place(letters, list[at + 2]);
    list[at + 2] = start;
    list[at + 3] = end;
    list[at + 5] = 1;
}

// The first entries turned back. One step an entry.
pub fn turn_entries(list: &mut [u32], count: usize, letters: u32)
    requires count_in_bounds { 6 * count ≤ length list.old }
    requires letters_bound { letters ≤ 16384 }
    ensures { list.new ≡ turn_entries letters list.old count }
{
    for n in 0..count {
        turn_entry(list, n, letters);
    }
}
