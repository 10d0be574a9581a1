// The compare job once the matches of both strands are known: tallies, the room checks, the sweeps, and the rooms as they are left. No letters here.
#![tactic(auto)]

ghost use Rattle.std.specs.Prelude.{◌≡◌, ◌+◌, ◌≤◌, length};
ghost use Rattle.matches.specs.Walks.{walked};
ghost use Rattle.rules.specs.Rooms.{pairs};
ghost use Rattle.rules.specs.Answers.{left, finishing};
ghost use Rattle.answers.specs.Outcomes.{answer_of};
ghost use Rattle.strands.specs.Strands.{Walked};
ghost use Rattle.jobs.specs.Jobs.{entries_in, compared_of};

use answers::{Refusal, Tallies};
use rules::Settings;
use strands::Strands;
use tally::Counts;

// Check 8, and the end of a job whose entries stand in the list room: zeros after them and in the work room. The links cost at most b + 1 columns a
// match, and few where matches lie close.
pub fn finish(
    strands: Strands,
    b: usize,
    listed: usize,
    counts: Counts,
    work: &mut [u32],
    list: &mut [u32],
) -> Result<Tallies, Refusal>
    ensures { left (answer_of result) work.new list.new ≡ finishing (entries_in listed list.old) counts.matches counts.widest (pairs b (walked strands.entry.forward.firsts.now strands.entry.forward.nexts.now) + pairs b (walked strands.entry.reverse.firsts.now strands.entry.reverse.nexts.now)) work.old list.old }
{
    rooms::zero_all(work);
    if rooms::entry_count(list) < listed {
        rooms::zero_all(list);
        return Err(Refusal::ListRoom(listed));
    }
    rooms::zero_after_entries(list, listed);
    let links = strands::link_strands(strands, b);
    Ok(Tallies {
        listed,
        matches: counts.matches,
        widest: counts.widest,
        links,
    })
}

// Check 7, the sweeps over both strands of a second sequence of so many letters, and the end. A sweep costs at most a row's columns a row.
pub fn compare_matches(
    strands: Strands,
    c: Settings,
    letters: u32,
    work: &mut [u32],
    list: &mut [u32],
) -> Result<Tallies, Refusal>
    requires walked { Walked strands.forward.firsts.now strands.forward.nexts.now c }
    requires walked_2 { Walked strands.reverse.firsts.now strands.reverse.nexts.now c }
    requires letters_bound { letters ≤ 16384 }
    ensures { left (answer_of result) work.new list.new ≡ compared_of c letters (walked strands.entry.forward.firsts.now strands.entry.forward.nexts.now) (length strands.entry.forward.firsts.now) (walked strands.entry.reverse.firsts.now strands.entry.reverse.nexts.now) (length strands.entry.reverse.firsts.now) work.old list.old }
{
    let b = c.b as usize;
    let counts = strands::count_strands(strands, b);
    let widest = counts.widest;
    if rooms::record_count(work) < widest {
        rooms::zero_all(work);
        rooms::zero_all(list);
        return Err(Refusal::WorkRoom(widest));
    }
    let listed = strands::list_strands(strands, widest, c, letters, work, list);
    finish(strands, b, listed, counts, work, list)
}
