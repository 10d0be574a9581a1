// From the codes of the first sequence and the letters of the second, as they are read, to the matches of each strand, as walks over columns: for each row the first column
// it meets, for each column the next one with the same k-mer. Local arrays hold letters and codes, no records.
#![tactic(auto)]

ghost use Rattle.std.specs.Prelude.{◌≡◌, length};
ghost use Rattle.rules.specs.Letters.{as_read};
ghost use Rattle.rules.specs.Strands.{on_strand};
ghost use Rattle.walks.specs.Matched.{Fits, Columns, BothColumns};

use rules::Settings;

// kept: `Fits` says what is asked of settings, codes and letters in one clause, and each function hands the three on once; a struct would be made at each call
// kept: two slices of 16,384 numbers: arrays would ask more of callers, and of slices in a struct with a ghost field a caller's proof loses what was written

// The second sequence as it stands. A step a letter for its codes, and near as little for the matches.
pub fn forward(c: Settings, coded: &[u64], second: &[u8], firsts: &mut [u32], nexts: &mut [u32])
    requires fits { Fits c coded.now second.now }
    requires firsts_len { length firsts.old ≡ 16384 }
    requires nexts_len { length nexts.old ≡ 16384 }
    ensures { Columns c coded.now (as_read c.mask second.now) firsts.old nexts.old firsts.new nexts.new }
{
    let mut codes = [0u64; 16384];
    let columns = kmers::code_all(second, c.k, c.mask, &mut codes);
    matches::find_matches(coded, &codes[..columns], c.a, firsts, nexts);
}

// And turned round, masks kept.
fn reverse(c: Settings, coded: &[u64], second: &[u8], firsts: &mut [u32], nexts: &mut [u32])
    requires fits { Fits c coded.now second.now }
    requires firsts_len { length firsts.old ≡ 16384 }
    requires nexts_len { length nexts.old ≡ 16384 }
    ensures { Columns c coded.now (on_strand 1 (as_read c.mask second.now)) firsts.old nexts.old firsts.new nexts.new }
{
    let mut turned = [0u8; 16384];
    letters::reverse_complement(second, &mut turned);
    forward(c, coded, &turned[..second.len()], firsts, nexts);
}

// The one strand that the settings of a stopped sweep name.
pub fn strand(c: Settings, coded: &[u64], second: &[u8], firsts: &mut [u32], nexts: &mut [u32])
    requires fits { Fits c coded.now second.now }
    requires firsts_len { length firsts.old ≡ 16384 }
    requires nexts_len { length nexts.old ≡ 16384 }
    ensures { Columns c coded.now (on_strand c.strand (as_read c.mask second.now)) firsts.old nexts.old firsts.new nexts.new }
{
    // kept: the strand is a number of `Settings`, which C fills
    if c.strand == 0 {
        forward(c, coded, second, firsts, nexts);
    } else {
        reverse(c, coded, second, firsts, nexts);
    }
}

// The strands that the settings of a job name; returns how many rows the reverse strand has to walk, none where it is not asked for.
pub fn both(
    c: Settings,
    coded: &[u64],
    second: &[u8],
    firsts: &mut [u32],
    nexts: &mut [u32],
    reverse_firsts: &mut [u32],
    reverse_nexts: &mut [u32],
) -> usize
    requires fits { Fits c coded.now second.now }
    requires firsts_len { length firsts.old ≡ 16384 }
    requires nexts_len { length nexts.old ≡ 16384 }
    requires reverse_firsts_len { length reverse_firsts.old ≡ 16384 }
    requires reverse_nexts_len { length reverse_nexts.old ≡ 16384 }
    ensures { BothColumns c coded.now (as_read c.mask second.now) firsts.old nexts.old reverse_firsts.old reverse_nexts.old firsts.new nexts.new reverse_firsts.new reverse_nexts.new result }
{
    forward(c, coded, second, firsts, nexts);
    if c.strand == 0 {
        return 0;
    }
    reverse(c, coded, second, reverse_firsts, reverse_nexts);
    coded.len()
}
