// The kinds of value that the crates above share with the rules. There is no code here: what they mean is in specs/.
#![tactic(auto)]

// What the user enters.
// kept: strand and mask are the numbers that C fills, and the definitions and theorems of specs/ speak of those outside their ranges too, which are refused.
#[derive(Clone, Copy)]
pub struct Settings {
    // the k-mer length
    pub k: u32,
    // the gap bound
    pub b: u32,
    // the repeat cap
    pub a: u32,
    // the least span in bases
    pub m: u32,
    // 0 forward, 1 both; of the stopped sweep 0 forward, 1 reverse
    pub strand: u32,
    // 0 masked letters form k-mers, 1 they break them as N does
    pub mask: u32,
}

// A byte as it is read.
// kept: a capital of 0 for none, as `read_letter` of specs/Letters.antt and the theorems on it say.
#[derive(Clone, Copy)]
pub struct Letter {
    // 0 where it is none of the fifteen, in either case
    pub capital: u8,
    // whether it stands in lower case
    pub masked: bool,
}

// A row, a place of the first sequence, and a column, a place of the second.
#[derive(Clone, Copy)]
pub struct Cell {
    pub row: u32,
    pub column: u32,
}

// A match with the weight of its heaviest chain and its start.
#[derive(Clone, Copy)]
pub struct Record {
    pub cell: Cell,
    pub weight: u32,
    pub start: Cell,
}

// A number, a sequence (0, 1 or 2), a detail, and four tallies. On refusal all four are 0.
// kept: the paper's numbers, which cross the C boundary, and of which `Outcome`, `given` and the theorems of specs/ speak; code has a `Result` (`answers`).
#[derive(Clone, Copy)]
pub struct Answer {
    pub number: u64,
    pub sequence: u64,
    pub detail: u64,
    // entries listed; of the stopped sweep, records held
    pub listed: u64,
    // M, the number of matches
    pub matches: u64,
    // W, the most matches in any run of rows i - b to i
    pub widest: u64,
    // the link total
    pub links: u64,
}
