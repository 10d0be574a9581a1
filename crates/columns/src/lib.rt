// Every column's owner from an index: equal codes stand side by side in it, by place, so the first place of a run owns the run.
#![tactic(auto)]

ghost use Rattle.std.specs.Prelude.{◌≡◌, cond, ◌≤◌, eqb, length};
ghost use Rattle.ownership.specs.Owners.{Owned};
ghost use Rattle.totals.specs.Steps.{Zeros};

use index::Lookup;

// The owner of a place with this key: the owner of the run that it goes on with, or itself.
fn run_owner(last: u64, owner: u32, key: u64, place: u32) -> u32
    ensures { result ≡ cond (eqb key last) owner place }
{
    if key == last { owner } else { place }
}

// The owner of every column's code: one turn for each number of the index.
pub fn own_columns(lookup: Lookup, own: &mut [u32])
    requires room { length lookup.codes.now ≤ length own.old }
    requires zeros { Zeros own.old }
    ensures { Owned lookup.entry.codes.now lookup.entry.codes.now own.old own.new (length lookup.entry.codes.now) }
{
    let mut last: u64 = 0;
    let mut owner: u32 = 0;
    for (place, key) in lookup.index[..lookup.places].iter().zip(lookup.keys) {
        owner = run_owner(last, owner, *key, *place);
        last = *key;
        own[*place as usize - 1] = owner;
    }
}
