// A slice held against the codes of a sequence: does it begin with the index of these codes? One linear pass decides it, and keeps the code of each number
// of the index, its key, so that nothing above looks a code up by its place again.
#![tactic(auto)]

ghost use Rattle.std.specs.Prelude.{◌≡◌, ◌≤◌, length};
ghost use Rattle.index.specs.Held.{held_of};
ghost use Rattle.rules.specs.Codes.{code_at};
ghost use Rattle.requests.specs.Index.{index_of_codes, kmer_places, begins_with};
ghost use Rattle.index.specs.Keys.{Keyed, Indexed, numbers_read, goes_on};

// The codes of a sequence, at most as many as it can have places, with a slice that begins with their index, and the codes of its numbers.
#[derive(Clone, Copy)]
pub struct Lookup<'a> {
    pub codes: &'a [u64],
    pub index: &'a [u32],
    pub keys: &'a [u64],
    // how many places have a k-mer
    pub places: usize,
    pub ghost few: { length codes.now ≤ 16384 },
    pub ghost counted: { places ≡ kmer_places codes.now },
    pub ghost indexed: { Indexed codes.now index.now keys.now },
}

// How many places have a k-mer: one look at each.
fn count_kmers(codes: &[u64]) -> usize
    ensures { result ≡ kmer_places codes.now }
{
    codes.iter().filter(|code| **code != 0).count()
}

// The code at a place, and 0 outside the places: so any number may stand in the slice.
fn code_of(codes: &[u64], place: u32) -> u64
    ensures { result ≡ code_at codes.now place }
{
    if place == 0 {
        0
    } else {
        order::code_at(codes, place - 1)
    }
}

// The codes of the first n numbers of a slice: one turn each.
fn read_keys(codes: &[u64], index: &[u32], n: usize, keys: &mut [u64])
    requires n_in_bounds { n ≤ length index.now }
    requires n_in_bounds_2 { n ≤ length keys.old }
    ensures { Keyed codes.now index.now keys.old keys.new n }
{
    for (q, place) in index[..n].iter().enumerate() {
        keys[q] = code_of(codes, *place);
    }
}

// Whether place p with code c goes on behind place `last` with code d: it has a k-mer, and stands behind by code, equal codes by place.
fn goes_on(d: u64, last: u32, c: u64, p: u32) -> bool
    ensures { result ≡ goes_on d last c p }
{
    c != 0 && (d, last) < (c, p)
}

// Whether n places in a slice, with their codes in keys, are the index: each has a k-mer and stands behind the one before it. One turn each.
fn begins(codes: &[u64], index: &[u32], keys: &[u64], n: usize) -> bool
    requires n_value { n ≡ kmer_places codes.now }
    requires n_in_bounds { n ≤ length index.now }
    requires n_in_bounds_2 { n ≤ length keys.now }
    requires keyed { Keyed codes.now index.now keys.now keys.now n }
    ensures { result ≡ begins_with (index_of_codes codes.now) index.now }
{
    let mut code: u64 = 0;
    let mut last: u32 = 0;
    for (t, p) in index[..n].iter().enumerate() {
        if !goes_on(code, last, keys[t], *p) {
            return false;
        }
        code = keys[t];
        last = *p;
    }
    true
}

// A slice that does not begin with the index of some codes, which has so many places.
#[derive(Clone, Copy, Debug, PartialEq, Eq)]
pub struct WrongSlice {
    pub places: usize,
}

// Holds a slice against the codes: whether it begins with their index, and how many places that has. One that is not too short leaves the codes of its
// numbers in keys.
pub fn check(codes: &[u64], index: &[u32], keys: &mut [u64]) -> Result<usize, WrongSlice>
    requires { length codes.now ≤ length keys.old }
    ensures value { result ≡ held_of (begins_with (index_of_codes codes.now) index.now) (kmer_places codes.now) }
    ensures keyed { Keyed codes.now index.now keys.old keys.new (numbers_read (kmer_places codes.now) index.now) }
{
    let places = count_kmers(codes);
    if index.len() < places {
        return Err(WrongSlice { places });
    }
    read_keys(codes, index, places, keys);
    let right = begins(codes, index, keys, places);
    if right {
        Ok(places)
    } else {
        Err(WrongSlice { places })
    }
}
