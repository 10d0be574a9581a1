// The entry point that builds an index: the places of a sequence that have a k-mer, by packed code, equal codes by place.
#![tactic(auto)]

ghost use Rattle.std.specs.Prelude.{◌≡◌, ◌≤◌, length};
ghost use Rattle.requests.specs.Index.{left_index, checked_index, building_index, built_index};
ghost use Rattle.answers.specs.Outcomes.{check_of, built_of};
ghost use Rattle.building.specs.Raised.{Raised, Small};

use answers::{Refusal, Sequence};

// Indices from 0 written as places from 1: one turn each.
fn put_places(order: &[u32], n: usize, index: &mut [u32])
    requires n_in_bounds { n ≤ length order.now }
    requires n_in_bounds_2 { n ≤ length index.old }
    requires small { Small order.now n }
    ensures { Raised order.now index.old index.new n }
{
    for q in 0..n {
        index[q] = order[q] + 1;
    }
}

// 11, or the index of these codes and zeros after it: the sort's turns, n log n. The local arrays hold places only.
fn build_codes(codes: &[u64], index: &mut [u32]) -> Result<usize, Refusal>
    requires { length codes.now ≤ 16384 }
    ensures { left_index (built_of result) index.new ≡ building_index codes.now index.old }
{
    let mut order = [0u32; 16384];
    let n = order::sort_places(codes, &mut order);
    if index.len() < n {
        rooms::zero_all(index);
        return Err(Refusal::IndexRoom(n));
    }
    put_places(&order, n, index);
    rooms::zero_from(index, n);
    Ok(n)
}

// 1, 10, then 5 and 6 of sequence 2: the first that applies.
fn check(k: u32, mask: u32, second: &[u8]) -> Result<(), Refusal>
    ensures { check_of result ≡ checked_index k mask second.now }
{
    refusals::check_setting(1, 31, k, Refusal::KmerLength)?;
    refusals::check_setting(0, 1, mask, Refusal::Mask)?;
    refusals::check_sequence(Sequence::Second, second)
}

// Builds the index of a sequence for a k and a mask setting, and returns how many places it has. It asks nothing of its caller: a refused setting, length
// or letter leaves the slice, and room too short becomes zeros.
pub fn build_index(k: u32, mask: u32, second: &[u8], index: &mut [u32]) -> Result<usize, Refusal>
    ensures { left_index (built_of result) index.new ≡ built_index k mask second.now index.old }
{
    check(k, mask, second)?;
    // codes, and no records
    let mut codes = [0u64; 16384];
    let columns = kmers::code_all(second, k, mask, &mut codes);
    build_codes(&codes[..columns], index)
}
