// Which columns each row matches, told from codes and an index of the second sequence's: what `matches` tells from codes alone, with nothing hashed and nothing
// sorted.
#![tactic(auto)]

ghost use Rattle.std.specs.Prelude.{◌≡◌, ◌≤◌, ◌<◌, length};
ghost use Rattle.nexts.specs.Nexts.{NextColumns};
ghost use Rattle.matches.specs.Columns.{FirstColumns};

use directory::Directory;
use index::Lookup;

// The first column of every row and the next of every column: a turn or two a number of the index, a look or two a row while buckets are small. The local
// arrays hold places only.
pub fn find_matches(
    first: &[u64],
    lookup: Lookup,
    low: usize,
    a: u32,
    firsts: &mut [u32],
    nexts: &mut [u32],
)
    requires low_bound { low < 64 }
    requires few_rows { length first.now ≤ 16384 }
    requires rows_in_bounds { length first.now ≤ length firsts.old }
    requires columns_in_bounds { length lookup.codes.now ≤ length nexts.old }
    ensures first_columns { FirstColumns first.now lookup.entry.codes.now a firsts.old firsts.new }
    ensures next_columns { NextColumns lookup.entry.codes.now nexts.old nexts.new }
{
    let mut own = [0u32; 16384];
    columns::own_columns(lookup, &mut own);
    let mut ends = [0u16; 65536];
    directory::fill_directory(&lookup.keys[..lookup.places], low, &mut ends);
    let directory = Directory {
        codes: lookup.codes,
        index: lookup.index,
        keys: lookup.keys,
        low,
        ends: &ends,
    };
    directory::own_rows(directory, first, &own, firsts);
    matches::finish_matches(first, lookup.codes, &own, a, firsts, nexts);
}
