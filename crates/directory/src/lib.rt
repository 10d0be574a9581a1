// The rows of a job looked up in an index. A row's code is first held against the column behind the one that the row before it met, as neighbours mostly
// match neighbours; else a directory of 65,536 buckets by the leading bits of a code tells where its places must end, and what lies before that is reached
// for by doubled steps and then halved. No letters are compared and nothing is sorted; a bucket that holds the whole index costs 30 looks a row.
#![tactic(auto)]

ghost use Rattle.std.specs.Prelude.{◌≡◌, ◌-◌, ◌*◌, ◌^◌, ◌≤◌, ◌<◌, length};
ghost use Rattle.requests.specs.Index.{kmer_places};
ghost use Rattle.index.specs.Keys.{Indexed};
ghost use Rattle.ownership.specs.Owners.{Owned};
ghost use Rattle.directory.specs.Directory.{bucket_of, ends_to, Rising, Bucketed, Reached, Lower, Near, next_near};

use ownership::Owners;

// An index with a directory of its keys.
#[derive(Clone, Copy)]
pub struct Directory<'a> {
    // the codes of the second sequence, at most as many as it can have places
    pub codes: &'a [u64],
    // a slice that begins with their index, and the codes of its numbers
    pub index: &'a [u32],
    pub keys: &'a [u64],
    // how many low bits of a code a bucket leaves out
    pub low: usize,
    // where each bucket ends
    pub ends: &'a [u16],
    pub ghost few: { length codes.now ≤ 16384 },
    pub ghost indexed: { Indexed codes.now index.now keys.now },
    pub ghost low_bound: { low < 64 },
    pub ghost bucketed: { Bucketed low keys.now ends.now (kmer_places codes.now) },
}

// How many low bits of a code a bucket leaves out: of the 2k all but sixteen.
pub fn low_bits(k: u32) -> usize
    requires { k ≤ 31 }
    ensures { result ≡ 2 * k - 16 }
{
    (2 * k as usize).saturating_sub(16)
}

// The bucket of a code. Nothing is asked of it but that it is a function; that buckets are small is a matter of time alone.
fn bucket(code: u64, low: usize) -> usize
    requires { low < 64 }
    ensures { result ≡ bucket_of low code }
{
    ((code >> low) % 65536) as usize
}

// Where each bucket ends among the keys: one turn a key.
pub fn fill_directory(keys: &[u64], low: usize, ends: &mut [u16])
    requires low_bound { low < 64 }
    requires few { length keys.now ≤ 16384 }
    requires ends_len { length ends.old ≡ 65536 }
    ensures { ends.new ≡ ends_to low keys.now ends.old (length keys.now) }
{
    for (q, key) in keys.iter().enumerate() {
        ends[bucket(*key, low)] = (q + 1) as u16;
    }
}

// An index from which on all keys up to end that are not below a code must stand: log turns.
fn reach(keys: &[u64], end: usize, c: u64) -> usize
    requires end_in_bounds { end ≤ length keys.now }
    requires rising { Rising keys.now end }
    ensures { Reached keys.now end c result }
{
    let mut begin = end;
    let mut step: usize = 1;
    // kept: each step is twice the one before it, so no range counts them
    while 0 < begin && c <= keys[begin - 1] {
        begin = begin.saturating_sub(step);
        step += step;
    }
    begin
}

// Where a code would stand among the keys from begin to end: log turns.
fn lower(keys: &[u64], begin: usize, end: usize, c: u64) -> usize
    requires begin_le_end { begin ≤ end }
    requires end_in_bounds { end ≤ length keys.now }
    requires rising { Rising keys.now end }
    ensures { Lower keys.now begin end c result result }
{
    begin + keys[begin..end].partition_point(|key| *key < c)
}

impl<'a> Owners for Directory<'a> {
    ghost columns = { λ d. d.codes.now };

    // Equal codes are ordered by place, so the first key of its bucket that is not below the code stands at its first column.
    fn owner_of(&self, code: u64) -> u32 {
        if code == 0 {
            return 0;
        }
        let keys = self.keys;
        let end = usize::from(self.ends[bucket(code, self.low)]);
        let begin = reach(keys, end, code);
        let q = lower(keys, begin, end, code);
        if q < end && keys[q] == code {
            self.index[q]
        } else {
            0
        }
    }
}

// Whether the code stands at an index of the second sequence.
fn is_near(second: &[u64], near: usize, c: u64) -> bool
    ensures { Near second.now near c result }
{
    second.get(near).is_some_and(|code| *code == c)
}

// The index at which the next row's code is looked for first: behind the column that was found, and else one further, in case the rows have met a letter
// that differs. An owner of 0 is none, as `Owners` says.
fn next_near(near: usize, owner: u32) -> usize
    requires { near < 2 ^ 32 }
    ensures { result ≡ next_near near owner }
{
    if owner == 0 { near + 1 } else { owner as usize }
}

// The owner of each row's code, where every column's is in own.
pub fn own_rows(directory: Directory, first: &[u64], own: &[u32], heads: &mut [u32])
    requires few_rows { length first.now ≤ 16384 }
    requires columns_in_bounds { length directory.codes.now ≤ length own.now }
    requires rows_in_bounds { length first.now ≤ length heads.old }
    requires owned { Owned directory.codes.now directory.codes.now own.now own.now (length directory.codes.now) }
    ensures { Owned directory.entry.codes.now first.now heads.old heads.new (length first.now) }
{
    let mut near: usize = 0;
    for (row, c) in first.iter().enumerate() {
        if is_near(directory.codes, near, *c) {
            heads[row] = own[near];
            near += 1;
        } else {
            let owner = directory.owner_of(*c);
            heads[row] = owner;
            near = next_near(near, owner);
        }
    }
}
