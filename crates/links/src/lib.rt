// The link total of a job, counted from its matches before any record is made: how many left extensions all matches have together.
#![tactic(auto)]

ghost use Rattle.std.specs.Prelude.{◌≡◌, ◌<◌, ◌≤◌, length};
ghost use Rattle.rules.specs.Rooms.{pairs};
ghost use Rattle.matches.specs.Walks.{walked};
ghost use Rattle.windows.specs.Windows.{WindowHolds};
ghost use Rattle.links.specs.Columns.{RowReleased, Released, RowAdded};

use matches::{Columns, Walk};
use windows::Window;

// Takes a row's matches off the counts of their columns, and off what the window holds. One step a match.
fn release_row(row: Columns, counts: &mut [u32; 16385], window: Window) -> Window
    requires few_columns { length row.nexts.now ≤ 16384 }
    requires window_holds { WindowHolds counts.old window.b window.at window.held }
    ensures row_released { RowReleased row.entry.nexts.now row.entry.at counts.old counts.new }
    ensures window_holds_2 { WindowHolds counts.new result.b result.at result.held }
    ensures same_bound { result.b ≡ window.b }
{
    let mut left = window;
    for j in row {
        counts[j] = counts[j].wrapping_sub(1);
        left = left.without(j);
    }
    left
}

// Before row p + 1: row p - b, where there is one, holds no left extension of it or of a later row.
fn release(walk: Walk, p: usize, counts: &mut [u32; 16385], window: Window) -> Window
    requires p_in_bounds { p < length walk.firsts.now }
    requires window_holds { WindowHolds counts.old window.b window.at window.held }
    ensures released { Released walk.entry.firsts.now walk.entry.nexts.now window.b p counts.old counts.new }
    ensures window_holds_2 { WindowHolds counts.new result.b result.at result.held }
    ensures same_bound { result.b ≡ window.b }
{
    match walk.leaving(window.b, p) {
        Some(row) => release_row(row, counts, window),
        None => window,
    }
}

// A link total on its way, and the window of columns that was summed last.
#[derive(Clone, Copy)]
struct Linking {
    total: u64,
    window: Window,
}

// The links with those of a row's matches added, which are counted on the way: the left extensions of a match in column j are the matches that its
// window, columns j - b to j, holds before it does. No sum wraps: at most 2^28 matches are counted, so that there are at most 2^56 links. A match
// costs two columns for each that its window has moved on, and never more than b + 1.
fn add_row(row: Columns, counts: &mut [u32; 16385], links: Linking) -> Linking
    requires few_columns { length row.nexts.now ≤ 16384 }
    requires window_holds { WindowHolds counts.old links.window.b links.window.at links.window.held }
    ensures row_added { RowAdded row.entry.nexts.now row.entry.at links.window.b counts.old counts.new links.total result.total }
    ensures window_holds_2 { WindowHolds counts.new result.window.b result.window.at result.window.held }
    ensures same_bound { result.window.b ≡ links.window.b }
{
    let Linking { total, window } = links;
    let mut total = total;
    let mut window = window;
    for j in row {
        window = window.slide(counts, j);
        total = total.wrapping_add(u64::from(window.held));
        counts[j] = counts[j].wrapping_add(1);
        window.held = window.held.wrapping_add(1);
    }
    Linking { total, window }
}

// The link total: two steps a row and two a match, and for each match the columns that its window moves on. The array holds counts only, one for each column.
pub fn count_links(walk: Walk, b: usize) -> u64
    ensures { result ≡ pairs b (walked walk.entry.firsts.now walk.entry.nexts.now) }
{
    let mut counts = [0; 16385];
    let mut links = Linking {
        total: 0,
        window: Window { b, at: 0, held: 0 },
    };
    for p in 0..walk.rows() {
        links.window = release(walk, p, &mut counts, links.window);
        links = add_row(walk.row(p), &mut counts, links);
    }
    links.total
}
