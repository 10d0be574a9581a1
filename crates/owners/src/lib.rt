// Every column's owner and every row's, by the table while its lists are short, and else by the sort. The result is the same by contract, so that only
// time depends on the hash.
#![tactic(auto)]

ghost use Rattle.std.specs.Prelude.{◌≤◌, length};
ghost use Rattle.ownership.specs.Owners.{Owned};

use hashed::{Columns, LongList};

// The owner of every column's code in own, and of every row's in heads: at most 64 looks a column to build, 65 a row to look up, or
// else n log n turns. The local arrays hold places only.
pub fn own_all(first: &[u64], second: &[u64], own: &mut [u32], heads: &mut [u32])
    requires second_len_bound { length second.now ≤ 16384 }
    requires second_in_bounds { length second.now ≤ length own.old }
    requires first_in_bounds { length first.now ≤ length heads.old }
    ensures owned { Owned second.now second.now own.old own.new (length second.now) }
    ensures owned_2 { Owned second.now first.now heads.old heads.new (length first.now) }
{
    let mut bucket = [0u32; 32768];
    let mut link = [0u32; 16384];
    match hashed::build(second, &mut bucket, &mut link, own) {
        Ok(()) => {
            let columns = Columns {
                second,
                bucket: &bucket,
                link: &link,
            };
            ownership::own_each(&columns, first, heads);
        }
        Err(LongList) => ordered::own_by_order(first, second, own, heads),
    }
}
