// Owners by a chained table: for each hash a list of first columns, the last one first. It is quick while its lists are short, and says so where
// one grows too long.
#![tactic(auto)]

ghost use Rattle.std.specs.Prelude.{◌≡◌, ◌+◌, ◌<◌, ◌≤◌, length, IfOk, IfSome};
ghost use Rattle.ownership.specs.Owners.{FirstAt, Owned, Kept};
ghost use Rattle.hashed.specs.Table.{hash_of, Table, Found};
ghost use Rattle.hashed.specs.Looked.{looked};

use ownership::Owners;

// Nothing is asked of the hash but that it is a function; how well it spreads is a matter of time alone.
fn hash(c: u64) -> usize
    ensures { (result ≡ hash_of c) × (result < 32768) }
{
    let m = (c % 4294967296) * 1640531527 + (c / 4294967296) * 1540483477;
    ((m / 131072) % 32768) as usize
}

// A list has more columns of one hash than a search may look at.
#[derive(Clone, Copy, Debug, PartialEq, Eq)]
pub struct LongList;

// The table of the first n columns.
#[derive(Clone, Copy)]
struct Part<'a> {
    second: &'a [u64],
    bucket: &'a [u32],
    link: &'a [u32],
    n: usize,
    ghost holds: { Table second.now bucket.now link.now n },
}

impl<'a> Part<'a> {
    // The first column with the code c, unless that would take a look at more than `limit` columns. A list's columns fall, so that n looks are always
    // enough.
    fn find(&self, c: u64, limit: usize) -> Result<Option<u32>, LongList>
        requires { 0 < c }
        ensures found { Found self.now.second.now c self.now.n limit (looked self.now.n result) }
        ensures column { IfOk result (λ o. IfSome o (λ x. (0 < x) × (x ≤ self.now.n))) }
    {
        let mut x = self.bucket[hash(c)];
        for _look in 0..limit {
            if x == 0 {
                return Ok(None);
            }
            let p = x as usize - 1;
            if self.second[p] == c {
                return Ok(Some(x));
            }
            x = self.link[p];
        }
        if x == 0 { Ok(None) } else { Err(LongList) }
    }
}

// Column n + 1, the first with its code, put in front of its list.
fn put(second: &[u64], bucket: &mut [u32], link: &mut [u32], n: usize)
    requires second_len_bound { length second.now ≤ 16384 }
    requires n_in_bounds { n < length second.now }
    requires table { Table second.now bucket.old link.old n }
    requires first_at { FirstAt second.now n }
    ensures { Table second.now bucket.new link.new (n + 1) }
{
    let h = hash(second[n]);
    let b = bucket[h];
    link[n] = b;
    // kept: `as`, here and in `build`, since columns are few and `try_from` would bring an error that cannot be
    bucket[h] = (n + 1) as u32;
}

// The table of all columns, and each column's owner in own, at 64 looks a column or fewer; a long list where that is not enough, as with codes
// made to share a hash.
pub fn build(
    second: &[u64],
    bucket: &mut [u32],
    link: &mut [u32],
    own: &mut [u32],
) -> Result<(), LongList>
    requires second_len_bound { length second.now ≤ 16384 }
    requires second_in_bounds { length second.now ≤ length own.old }
    requires table { Table second.now bucket.old link.old 0 }
    ensures table_2 { IfOk result (λ _. Table second.now bucket.new link.new (length second.now)) }
    ensures owned { IfOk result (λ _. Owned second.now second.now own.old own.new (length second.now)) }
    ensures kept { Kept own.old own.new (length second.now) }
{
    for (n, code) in second.iter().enumerate() {
        let c = *code;
        if 0 < c {
            let part = Part {
                second,
                bucket,
                link,
                n,
            };
            match part.find(c, 64)? {
                Some(r) => own[n] = r,
                None => {
                    put(second, bucket, link, n);
                    own[n] = (n + 1) as u32;
                }
            }
        } else {
            own[n] = 0;
        }
    }
    Ok(())
}

// The table of all columns. A row is looked up in 65 looks or fewer, since no list that `build` leaves is longer.
#[derive(Clone, Copy)]
pub struct Columns<'a> {
    pub second: &'a [u64],
    pub bucket: &'a [u32],
    pub link: &'a [u32],
    pub ghost few: { length second.now ≤ 16384 },
    pub ghost whole: { Table second.now bucket.now link.now (length second.now) },
}

impl<'a> Owners for Columns<'a> {
    ghost columns = { λ t. t.second.now };

    fn owner_of(&self, c: u64) -> u32 {
        if c == 0 {
            return 0;
        }
        let n = self.second.len();
        let all = Part {
            second: self.second,
            bucket: self.bucket,
            link: self.link,
            n,
        };
        // so many looks are enough
        all.find(c, n).ok().flatten().unwrap_or(0)
    }
}
