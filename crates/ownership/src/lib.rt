// What the owner of a code is: the first column of the second sequence that has it. Equal codes have one owner, so what is to be done by code
// can be done by owner, a number of at most 16,384. How an owner is found is left to those that find one: hashed and ordered, each in its own way.
#![tactic(auto)]

ghost use Rattle.std.specs.Prelude.{◌≡◌, ℕ, List, ◌≤◌, length};
ghost use Rattle.ownership.specs.Owners.{own_of, Owned};

// A way to find the owner of a code. 0 says that a code has none, in lists of codes, of owners, of first columns and of next columns alike.
// kept: the 0 in those lists: fixed memory, a number a place, and `own_of`, `first_in` and `next_column` of the definitions say it.
pub trait Owners {
    // the codes of the columns that are owners
    ghost columns: { Self → List ℕ };

    fn owner_of(&self, code: u64) -> u32
        ensures { result ≡ own_of (columns self.now) code };
}

// The owner of each code, in front of a lent slice: one look-up a code.
pub fn own_each<O: Owners>(owners: &O, codes: &[u64], own: &mut [u32])
    requires { length codes.now ≤ length own.old }
    ensures { Owned (O.columns owners.now) codes.now own.old own.new (length codes.now) }
{
    for (i, code) in codes.iter().enumerate() {
        own[i] = owners.owner_of(*code);
    }
}
