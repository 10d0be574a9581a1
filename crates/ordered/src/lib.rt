// Owners by a sort of the places: the way out where the table's lists grow too long, never worse than n log n, whatever the codes are.
#![tactic(auto)]

ghost use Rattle.std.specs.Prelude.{◌≡◌, ◌≤◌, length};
ghost use Rattle.order.specs.Order.{Ordered};
ghost use Rattle.ownership.specs.Owners.{Owned};

use ownership::Owners;

// The places of the columns that have a k-mer, by their codes and then by place.
#[derive(Clone, Copy)]
struct Sorted<'a> {
    second: &'a [u64],
    order: &'a [u32],
    ghost few: { length second.now ≤ 16384 },
    ghost ordered: { ∥ Ordered second.now order.now order.now (length order.now) ∥₁ },
}

impl<'a> Owners for Sorted<'a> {
    ghost columns = { λ t. t.second.now };

    // Equal codes are ordered by place, so the first that is not below c is the first column: log m looks.
    fn owner_of(&self, c: u64) -> u32 {
        if c == 0 {
            return 0;
        }
        let second = self.second;
        let k = self
            .order
            .partition_point(|p| order::code_at(second, *p) < c);
        match self.order.get(k) {
            Some(p) if order::code_at(second, *p) == c => *p + 1,
            _ => 0,
        }
    }
}

// Every column's owner and every row's, by the sort. The local array holds places only.
pub fn own_by_order(first: &[u64], second: &[u64], own: &mut [u32], heads: &mut [u32])
    requires second_len_bound { length second.now ≤ 16384 }
    requires second_in_bounds { length second.now ≤ length own.old }
    requires first_in_bounds { length first.now ≤ length heads.old }
    ensures owned { Owned second.now second.now own.old own.new (length second.now) }
    ensures owned_2 { Owned second.now first.now heads.old heads.new (length first.now) }
{
    let mut order = [0u32; 16384];
    let m = order::sort_places(second, &mut order);
    let sorted = Sorted {
        second,
        order: &order[..m],
    };
    ownership::own_each(&sorted, second, own);
    ownership::own_each(&sorted, first, heads);
}
