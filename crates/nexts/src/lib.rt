// For each column the next one with the same k-mer. The same walk over the columns counts their k-mers, so that none is taken for that alone.
#![tactic(auto)]

ghost use Rattle.std.specs.Prelude.{◌≤◌, length};
ghost use Rattle.ownership.specs.Owners.{Owns};
ghost use Rattle.totals.specs.Steps.{Zeros, Tallied};
ghost use Rattle.nexts.specs.Nexts.{NextColumns};

// The next column of each, and each k-mer's count over the columns, from the last column to the first: one turn a column. tail has for each
// owner the column met last.
pub fn link_columns(
    second: &[u64],
    own: &[u32],
    a: u32,
    tail: &mut [u32],
    count: &mut [u32],
    nexts: &mut [u32],
)
    requires second_len_bound { length second.now ≤ 16384 }
    requires second_in_bounds { length second.now ≤ length own.now }
    requires second_in_bounds_2 { length second.now ≤ length tail.old }
    requires second_in_bounds_3 { length second.now ≤ length count.old }
    requires second_in_bounds_4 { length second.now ≤ length nexts.old }
    requires owns { Owns second.now own.now }
    requires zeros { Zeros tail.old }
    requires zeros_2 { Zeros count.old }
    ensures next_columns { NextColumns second.now nexts.old nexts.new }
    ensures tallied { Tallied own.now (length second.now) a count.old count.new }
{
    for p in (0..second.len()).rev() {
        let e = own[p] as usize;
        if e == 0 {
            nexts[p] = 0;
        } else {
            let q = e - 1;
            let t = tail[q];
            nexts[p] = t;
            // kept: `as`, since columns are few and `try_from` would bring an error that cannot be
            tail[q] = (p + 1) as u32;
            count[q] = totals::count_on(count[q], a);
        }
    }
}
