// An index of the second sequence made one of the same codes read from the last place to the first, which is what the reverse strand asks for. Its keys
// stay as they are: codes keep their order, and only the places of one code are turned round.
#![tactic(auto)]

ghost use Rattle.std.specs.Prelude.{◌≡◌, ◌++◌, reverse, ◌≤◌, ◌<◌, length, drop};
ghost use Rattle.index.specs.Keys.{Indexed};
ghost use Rattle.ownership.specs.Owners.{Kept};
ghost use Rattle.turning.specs.Turning.{Within, RunTurned};

use index::Lookup;

// The codes from the last place to the first: one turn a place.
pub fn reverse_codes(codes: &[u64], out: &mut [u64])
    requires { length codes.now ≤ length out.old }
    ensures { out.new ≡ reverse codes.now ++ drop (length codes.now) out.old }
{
    for (i, code) in codes.iter().rev().enumerate() {
        out[i] = *code;
    }
}

// The places of a run as they count from the last of so many columns, the last first: a turn a place.
fn turn_run(index: &[u32], from: usize, to: usize, columns: u32, out: &mut [u32])
    requires from_le_to { from ≤ to }
    requires to_in_bounds { to ≤ length index.now }
    requires to_in_bounds_2 { to ≤ length out.old }
    requires columns_bound { columns ≤ 16384 }
    requires within { Within index.now columns from to }
    ensures { RunTurned index.now columns from to out.old out.new }
{
    for (q, place) in index[from..to].iter().rev().enumerate() {
        out[from + q] = columns + 1 - *place;
    }
}

// The index of the codes read backwards, from that of the codes: a turn a run, and two a place.
pub fn turn_index(lookup: Lookup, out: &mut [u32])
    requires { length lookup.codes.now ≤ length out.old }
    ensures indexed { Indexed (reverse lookup.entry.codes.now) out.new lookup.entry.keys.now }
    ensures kept { Kept out.old out.new lookup.entry.places }
{
    let columns = lookup.codes.len() as u32;
    let mut from: usize = 0;
    for run in lookup.keys[..lookup.places].chunk_by(|key, next| key == next) {
        let to = from + run.len();
        turn_run(lookup.index, from, to, columns, out);
        from = to;
    }
}
