// Two tallies of a job, counted from its matches before any record is made: the number of matches, and the most in a run of rows.
#![tactic(auto)]

ghost use Rattle.std.specs.Prelude.{◌≡◌, ◌+◌, ◌-◌, ◌<◌, ◌≤◌, length};
ghost use Rattle.tally.specs.Tallies.{counts_of};
ghost use Rattle.matches.specs.Walks.{row_from, walked_to, walked};

use matches::{Columns, Walk};

// How many matches a row has. One step a match.
pub fn row_size(columns: Columns) -> usize
    ensures { result ≡ length (row_from columns.entry.nexts.now columns.entry.at) }
{
    columns.count()
}

// How many matches the first rows have. One step a row and one a match.
pub fn matches_before(walk: Walk, rows: usize) -> usize
    requires { rows ≤ length walk.firsts.now }
    ensures { result ≡ length (walked_to walk.entry.firsts.now walk.entry.nexts.now rows) }
{
    let mut matches = 0;
    for p in 0..rows {
        matches += row_size(walk.row(p));
    }
    matches
}

// How many matches leave the run when row p + 1 enters it.
fn leaving(walk: Walk, b: usize, p: usize) -> usize
    requires { p < length walk.firsts.now }
    ensures { length (walked_to walk.entry.firsts.now walk.entry.nexts.now (p - b - 1)) + result ≡ length (walked_to walk.entry.firsts.now walk.entry.nexts.now (p - b)) }
{
    match walk.leaving(b, p) {
        Some(row) => row_size(row),
        None => 0,
    }
}

#[derive(Clone, Copy)]
pub struct Counts {
    // M, the number of matches
    pub matches: usize,
    // W, the most matches in any run of rows i - b to i
    pub widest: usize,
}

// M and W. A row's matches are walked when it enters the run and again when it leaves: two steps a row and two a match.
pub fn count_matches(walk: Walk, b: usize) -> Counts
    ensures { result ≡ counts_of b (walked walk.entry.firsts.now walk.entry.nexts.now) (length walk.entry.firsts.now) }
{
    let mut matches = 0;
    let mut run = 0;
    let mut widest: usize = 0;
    for p in 0..walk.rows() {
        let size = row_size(walk.row(p));
        matches += size;
        run = (run + size).saturating_sub(leaving(walk, b, p));
        widest = widest.max(run);
    }
    Counts { matches, widest }
}
