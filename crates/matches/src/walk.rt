// A strand's matches as walks over columns: row p + 1 begins in column firsts[p], and after column j comes column nexts[j - 1]; 0 ends a row.
// kept: that 0, in the arrays and in `at`, since FirstColumns and NextColumns say it and the arrays are fixed memory; who walks sees an iterator.
ghost use Rattle.std.specs.Prelude.{◌≡◌, ◌-◌, ◌<◌, ◌≤◌, length, slice_index, MatchOption};
ghost use Rattle.std.specs.Iterator.{item_count};
ghost use Rattle.matches.specs.Walks.{row_from, Steps, StepsSafe, WalkSafe};

// The matches of a strand. Rows and columns are few, and each step of a walk is to a later column.
#[derive(Clone, Copy)]
pub struct Walk<'a> {
    // the first column of each row, 0 where it has no match
    pub firsts: &'a [u32],
    // behind each column the next one of its row, 0 where there is none
    pub nexts: &'a [u32],
    pub ghost safe: { WalkSafe firsts.now nexts.now },
}

impl<'a> Walk<'a> {
    // How many rows there are.
    pub fn rows(self) -> usize
        ensures { result ≡ length self.entry.firsts.now }
    {
        self.firsts.len()
    }

    // The columns of row p + 1.
    pub fn row(self, p: usize) -> Columns<'a>
        requires { p < length self.firsts.now }
        ensures nexts { result.nexts.now ≡ self.entry.nexts.now }
        ensures begins { result.at ≡ slice_index self.entry.firsts.now p }
    {
        Columns {
            nexts: self.nexts,
            at: self.firsts[p] as usize,
        }
    }

    // The columns of the row that leaves, where so many rows are kept before the one that enters, row p + 1: those of row p - kept, where there is one.
    pub fn leaving(self, kept: usize, p: usize) -> Option<Columns<'a>>
        requires { p < length self.firsts.now }
        ensures { MatchOption result (p ≤ kept) (λ row. (kept < p) × (row.nexts.now ≡ self.entry.nexts.now) × (row.at ≡ slice_index self.entry.firsts.now (p - kept - 1))) }
    {
        if p <= kept {
            None
        } else {
            Some(self.row(p - kept - 1))
        }
    }
}

// The columns of a row from column `at` on, one after the other.
#[derive(Clone, Copy)]
pub struct Columns<'a> {
    pub nexts: &'a [u32],
    pub at: usize,
    pub ghost safe: { StepsSafe nexts.now },
    pub ghost inside: { at ≤ length nexts.now },
}

impl<'a> Iterator for Columns<'a> {
    type Item = usize;

    ghost next_gives = { λ s r t. (t.nexts.now ≡ s.nexts.now) × Steps s.nexts.now s.at r t.at };

    ghost remaining = { item_count (λ s. row_from s.nexts.now s.at) };

    fn next(&mut self) -> Option<usize> {
        if self.at == 0 {
            return None;
        }
        let j = self.at;
        self.at = self.nexts[j - 1] as usize;
        Some(j)
    }
}
