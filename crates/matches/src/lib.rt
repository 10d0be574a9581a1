// Which columns each row matches, told from the codes of both sequences alone: for each row the first column that it matches, and for
// each column the next one with the same k-mer. Walking from the one by the other is the row's matches in order.
#![tactic(auto)]

ghost use Rattle.std.specs.Prelude.{◌≤◌, length};
ghost use Rattle.ownership.specs.Owners.{Owned};
ghost use Rattle.nexts.specs.Nexts.{NextColumns};
ghost use Rattle.matches.specs.Columns.{FirstColumns};

mod walk;

pub use walk::{Columns, Walk};

// The first column of every row and the next of every column, once every column's owner is in own and every row's in firsts: a turn a column and one or
// two a row. The local arrays hold places, and how often a k-mer occurs, and nothing else.
pub fn finish_matches(
    first: &[u64],
    second: &[u64],
    own: &[u32],
    a: u32,
    firsts: &mut [u32],
    nexts: &mut [u32],
)
    requires first_len_bound { length first.now ≤ 16384 }
    requires second_len_bound { length second.now ≤ 16384 }
    requires second_in_bounds { length second.now ≤ length own.now }
    requires first_in_bounds { length first.now ≤ length firsts.old }
    requires second_in_bounds_2 { length second.now ≤ length nexts.old }
    requires owned { Owned second.now second.now own.now own.now (length second.now) }
    requires owned_2 { Owned second.now first.now firsts.old firsts.old (length first.now) }
    ensures first_columns { FirstColumns first.now second.now a firsts.old firsts.new }
    ensures next_columns { NextColumns second.now nexts.old nexts.new }
{
    let mut tail = [0u32; 16384];
    let mut count = [0u32; 16384];
    nexts::link_columns(second, own, a, &mut tail, &mut count, nexts);
    let late = totals::count_rows(firsts, first.len(), a, &mut count);
    if late {
        totals::cap(&count, a, firsts, first.len());
    }
}

// The same from the codes alone.
pub fn find_matches(first: &[u64], second: &[u64], a: u32, firsts: &mut [u32], nexts: &mut [u32])
    requires first_len_bound { length first.now ≤ 16384 }
    requires second_len_bound { length second.now ≤ 16384 }
    requires first_in_bounds { length first.now ≤ length firsts.old }
    requires second_in_bounds { length second.now ≤ length nexts.old }
    ensures first_columns { FirstColumns first.now second.now a firsts.old firsts.new }
    ensures next_columns { NextColumns second.now nexts.old nexts.new }
{
    // places, and no records
    let mut own = [0u32; 16384];
    owners::own_all(first, second, &mut own, firsts);
    finish_matches(first, second, &own, a, firsts, nexts);
}
