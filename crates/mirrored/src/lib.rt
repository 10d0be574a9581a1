// The matches of either strand from one index of the second sequence, never turned: what `walks` tells from its letters. For the reverse strand the first
// sequence is turned instead, and rows, columns and the places of each code are read from the last to the first. Local arrays hold letters, codes and
// places, no records.
#![tactic(auto)]

ghost use Rattle.std.specs.Prelude.{◌≡◌, ◌++◌, ◌≤◌, length, drop};
ghost use Rattle.rules.specs.Places.{places};
ghost use Rattle.nexts.specs.Nexts.{NextColumns};
ghost use Rattle.matches.specs.Columns.{FirstColumns};
ghost use Rattle.mirrored.specs.Mirrored.{row_codes, FirstFits, Columns, BothColumns};

use index::Lookup;
use rules::Settings;

// The codes of the reverse strand's rows, in front of as many numbers as a sequence can have places; returns how many there are. A few steps a letter.
fn code_rows(c: Settings, first: &[u8], out: &mut [u64; 16384]) -> usize
    requires le_k { 1 ≤ c.k }
    requires k_bound { c.k ≤ 31 }
    requires first_len_bound { length first.now ≤ 16384 }
    ensures value { result ≡ places c.k first.now }
    ensures out_after { out.new ≡ row_codes c 1 first.now ++ drop (places c.k first.now) out.old }
{
    let mut turned = [0u8; 16384];
    letters::reverse_complement(first, &mut turned);
    let mut codes = [0u64; 16384];
    let rows = kmers::code_all(&turned[..first.len()], c.k, c.mask, &mut codes);
    turning::reverse_codes(&codes[..rows], out);
    rows
}

// The forward strand: the codes of both sequences as they stand.
fn forward(c: Settings, coded: &[u64], lookup: Lookup, firsts: &mut [u32], nexts: &mut [u32])
    requires k_bound { c.k ≤ 31 }
    requires few_rows { length coded.now ≤ 16384 }
    requires firsts_len { length firsts.old ≡ 16384 }
    requires nexts_len { length nexts.old ≡ 16384 }
    ensures first_columns { FirstColumns coded.now lookup.entry.codes.now c.a firsts.old firsts.new }
    ensures next_columns { NextColumns lookup.entry.codes.now nexts.old nexts.new }
{
    let low = directory::low_bits(c.k);
    lookups::find_matches(coded, lookup, low, c.a, firsts, nexts);
}

// The reverse strand: the first sequence turned instead of the second, and both read from the last place to the first.
fn reverse(c: Settings, first: &[u8], lookup: Lookup, firsts: &mut [u32], nexts: &mut [u32])
    requires le_k { 1 ≤ c.k }
    requires k_bound { c.k ≤ 31 }
    requires first_len_bound { length first.now ≤ 16384 }
    requires firsts_len { length firsts.old ≡ 16384 }
    requires nexts_len { length nexts.old ≡ 16384 }
    ensures { Columns c 1 first.now lookup.entry.codes.now firsts.old nexts.old firsts.new nexts.new }
{
    let mut row_codes = [0u64; 16384];
    let rows = code_rows(c, first, &mut row_codes);
    let mut column_codes = [0u64; 16384];
    turning::reverse_codes(lookup.codes, &mut column_codes);
    let mut index = [0u32; 16384];
    turning::turn_index(lookup, &mut index);
    let turned = Lookup {
        codes: &column_codes[..lookup.codes.len()],
        index: &index,
        keys: lookup.keys,
        places: lookup.places,
    };
    let low = directory::low_bits(c.k);
    lookups::find_matches(&row_codes[..rows], turned, low, c.a, firsts, nexts);
}

// The one strand that is named.
pub fn strand(
    c: Settings,
    // kept: 0 or 1, the number that `Settings` has for it, which C fills
    strand: u32,
    first: &[u8],
    coded: &[u64],
    lookup: Lookup,
    firsts: &mut [u32],
    nexts: &mut [u32],
)
    requires strand_bound { strand ≤ 1 }
    requires fits { FirstFits c first.now coded.now }
    requires firsts_len { length firsts.old ≡ 16384 }
    requires nexts_len { length nexts.old ≡ 16384 }
    ensures { Columns c strand first.now lookup.entry.codes.now firsts.old nexts.old firsts.new nexts.new }
{
    if strand == 0 {
        forward(c, coded, lookup, firsts, nexts);
    } else {
        reverse(c, first, lookup, firsts, nexts);
    }
}

// The strands that the settings of a job name; returns how many rows the reverse strand has to walk, none where it is not asked for.
pub fn both(
    c: Settings,
    first: &[u8],
    coded: &[u64],
    lookup: Lookup,
    firsts: &mut [u32],
    nexts: &mut [u32],
    reverse_firsts: &mut [u32],
    reverse_nexts: &mut [u32],
) -> usize
    requires fits { FirstFits c first.now coded.now }
    requires firsts_len { length firsts.old ≡ 16384 }
    requires nexts_len { length nexts.old ≡ 16384 }
    requires reverse_firsts_len { length reverse_firsts.old ≡ 16384 }
    requires reverse_nexts_len { length reverse_nexts.old ≡ 16384 }
    ensures { BothColumns c first.now coded.now lookup.entry.codes.now firsts.old nexts.old reverse_firsts.old reverse_nexts.old firsts.new nexts.new reverse_firsts.new reverse_nexts.new result }
{
    forward(c, coded, lookup, firsts, nexts);
    if c.strand == 0 {
        return 0;
    }
    reverse(c, first, lookup, reverse_firsts, reverse_nexts);
    coded.len()
}
