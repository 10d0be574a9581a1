// The k-mers of a sequence, as its letters are read under a mask setting, packed into two bits a base.
#![tactic(auto)]

ghost use Rattle.std.specs.Prelude.{◌≡◌, cond, ◌++◌, suc, ◌+◌, ◌-◌, ◌*◌, ◌^◌, ◌%◌, ◌<◌, ◌≤◌, leb, length, drop};
ghost use Rattle.rules.specs.Letters.{stands_for, as_read};
ghost use Rattle.rules.specs.Places.{places as places_in, base_of};
ghost use Rattle.rules.specs.Codes.{codes};
ghost use Rattle.kmers.specs.Reading.{sees_of, read_place, some_base, as_result};

// Why no k-mer stands at a place: the first place whose letter is no base.
#[derive(Clone, Copy, Debug, PartialEq, Eq)]
pub struct Broken {
    pub place: usize,
}

// How many places a sequence of so many letters has. The clause bars only the greatest length with k = 0, whose answer fits no word.
pub fn places(letters: usize, k: usize) -> usize
    requires { suc letters - k < 2 ^ 64 }
    ensures { result ≡ suc letters - k }
{
    if k <= letters { letters - k + 1 } else { 0 }
}

// The letters A, C, G and T, the first lowest.
const ACGT: u32 = 0x5447_4341;

// How letters are read under a mask setting: the bits of each that are looked at. Where masked letters form k-mers, these are all but the one that lower
// case has.
#[derive(Clone, Copy)]
struct Reader {
    mask: u32,
    sees: u8,
    ghost looks: { sees ≡ sees_of mask },
}

impl Reader {
    fn new(mask: u32) -> Reader
        ensures { result.mask ≡ mask }
    {
        // kept: the setting's number, 0 or 1: the settings of rules and of C, and `as_read`, have it so
        let sees = if mask == 0 { 0xDF } else { 0xFF };
        Reader { mask, sees }
    }

    // The two bits of the base that a letter stands for. Bits 1 and 2 of the four letters tell them apart, and each compared with the bit above it they
    // count A, C, G and T from 0 to 3; so no jump depends on which base it is.
    fn base(&self, letter: u8) -> Option<u64>
        ensures { result ≡ some_base (base_of (stands_for self.now.mask letter)) }
    {
        let seen = letter & self.sees;
        let two = ((seen >> 1) ^ (seen >> 2)) & 3;
        // kept: `as`, of a byte cut out of the four; `to_le_bytes` would read an array
        let expected = ((ACGT >> (8 * two)) & 255) as u8;
        (seen == expected).then_some(u64::from(two))
    }
}

// One more base, below those that are there.
fn push(code: u64, base: u64) -> u64
    requires code_bound { code < 2 ^ 62 }
    requires base_bound { base < 4 }
    ensures { result ≡ code * 4 + base }
{
    (code << 2) | base
}

// The bits of k bases.
fn bits_of(k: usize) -> u64
    requires { k ≤ 31 }
    ensures { result ≡ 2 ^ (2 * k) - 1 }
{
    (1u64 << (2 * k)) - 1
}

// One more base, of which the last k stay.
fn roll(code: u64, base: u64, k: usize, bits: u64) -> u64
    requires code_bound { code < 2 ^ 62 }
    requires base_bound { base < 4 }
    requires bits_value { bits ≡ 2 ^ (2 * k) - 1 }
    ensures { result ≡ (code * 4 + base) % 2 ^ (2 * k) }
{
    push(code, base) & bits
}

// The number that stands for a place whose letters end a run of bases: 0 where the run is shorter than k.
// kept: 0 for no k-mer: a number a place, and `kmer_code` of rules/specs/Codes.antt says so.
fn slot(code: u64, run: usize, k: usize) -> u64
    requires { code < 2 ^ 62 }
    ensures { result ≡ cond (leb k run) (code + 1) 0 }
{
    if k <= run { code + 1 } else { 0 }
}

// The k-mer at a place, packed, or the place that breaks it.
pub fn read_place(s: &[u8], k: usize, mask: u32, place: usize) -> Result<u64, Broken>
    requires k_bound { k ≤ 31 }
    requires le_place { 1 ≤ place }
    requires k_in_bounds { place + k ≤ length s.now + 1 }
    ensures { result ≡ as_result (read_place k (as_read mask s.now) place) }
{
    let reader = Reader::new(mask);
    let first = place - 1;
    let letters = &s[first..first + k];
    let mut code = 0;
    for (read, letter) in letters.iter().enumerate() {
        let Some(b) = reader.base(*letter) else {
            let broken = place + read;
            return Err(Broken { place: broken });
        };
        code = push(code, b);
    }
    Ok(code)
}

// The codes of all places, in one pass: a step a letter, whatever k is.
pub fn fill_codes(s: &[u8], k: usize, mask: u32, out: &mut [u64])
    requires le_k { 1 ≤ k }
    requires k_bound { k ≤ 31 }
    requires s_in_bounds { length s.now ≤ length out.old }
    ensures { out.new ≡ codes k (as_read mask s.now) ++ drop (places_in k s.now) out.old }
{
    let bits = bits_of(k);
    let reader = Reader::new(mask);
    let mut code = 0;
    // how many letters up to here are bases, with no other between them
    let mut run = 0;
    for (n, letter) in s.iter().enumerate() {
        if let Some(b) = reader.base(*letter) {
            code = roll(code, b, k, bits);
            run += 1;
        } else {
            code = 0;
            run = 0;
        }
        if k <= n + 1 {
            out[n + 1 - k] = slot(code, run, k);
        }
    }
}

// The codes of a sequence as the settings name k and the mask, in front of as many numbers as a sequence can have places; returns how many there are.
pub fn code_all(s: &[u8], k: u32, mask: u32, out: &mut [u64; 16384]) -> usize
    requires le_k { 1 ≤ k }
    requires k_bound { k ≤ 31 }
    requires s_len_bound { length s.now ≤ 16384 }
    ensures value { result ≡ places_in k s.now }
    ensures out_after { out.new ≡ codes k (as_read mask s.now) ++ drop (places_in k s.now) out.old }
{
    let bases = k as usize;
    fill_codes(s, bases, mask, out);
    places(s.len(), bases)
}
