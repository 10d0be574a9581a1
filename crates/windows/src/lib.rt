// A window over the counts of columns: what columns j - b to j count together. The window that was summed last is kept with its sum, and moved.
#![tactic(auto)]

ghost use Rattle.std.specs.Prelude.{◌≡◌, ◌+◌, ◌-◌, ◌%◌, ◌^◌, ◌≤◌, if◌then◌else◌};
ghost use Rattle.windows.specs.Windows.{sum_from, window_sum, in_window, WindowHolds};

// The sum of the counts of columns lo to hi - 1, modulo 2^32. They lie side by side and no turn waits for another, so that several can be added at a
// time.
fn sum(counts: &[u32; 16385], lo: usize, hi: usize) -> u32
    requires order { lo ≤ hi }
    requires hi_bound { hi ≤ 16385 }
    ensures { result ≡ sum_from counts.now lo (hi - lo) % 2 ^ 32 }
{
    counts[lo..hi]
        .iter()
        .fold(0, |total, count| total.wrapping_add(*count))
}

// The window of a column, and what it holds.
#[derive(Clone, Copy)]
pub struct Window {
    // the gap bound: columns at - b to at
    pub b: usize,
    pub at: usize,
    // their counts together, modulo 2^32
    pub held: u32,
}

impl Window {
    // The window of column j, from that of column `at`, which was summed last: what enters is added and what leaves is taken off. A window that lies far
    // on, or back, is summed anew; so no window costs more than b + 1 columns.
    pub fn slide(&self, counts: &[u32; 16385], j: usize) -> Window
        requires j_bound { j ≤ 16384 }
        requires window_holds { WindowHolds counts.now self.now.b self.now.at self.now.held }
        ensures moved { (result.b ≡ self.now.b) × (result.at ≡ j) }
        ensures summed { result.held ≡ window_sum counts.now self.now.b j % 2 ^ 32 }
    {
        let Window { b, at, held } = *self;
        let held = if at <= j && 2 * (j - at) <= b {
            let entered = held.wrapping_add(sum(counts, at + 1, j + 1));
            entered.wrapping_sub(sum(counts, at.saturating_sub(b), j.saturating_sub(b)))
        } else {
            sum(counts, j.saturating_sub(b), j + 1)
        };
        Window { b, at: j, held }
    }

    // The same window once column q counts one less.
    pub fn without(&self, q: usize) -> Window
        ensures stays { (result.b ≡ self.now.b) × (result.at ≡ self.now.at) }
        ensures less { (result.held + (if in_window self.now.b self.now.at q then 1 else 0)) % 2 ^ 32 ≡ self.now.held }
    {
        let Window { b, at, held } = *self;
        if at.saturating_sub(b) <= q && q <= at {
            Window {
                b,
                at,
                held: held.wrapping_sub(1),
            }
        } else {
            Window { b, at, held }
        }
    }
}
