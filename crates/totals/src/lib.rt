// How often a k-mer occurs, counted by its owner and no further than just past the cap a; and the rows of a k-mer above a set to 0.
#![tactic(auto)]

ghost use Rattle.std.specs.Prelude.{◌≡◌, true, false, cond, min, ◌+◌, ◌≤◌, eqb, length};
ghost use Rattle.totals.specs.Steps.{Upto, count_on, Tallied, Struck, Capped, NonePasses, OnePasses};

// A k-mer's count with one place more. It ends once it has passed a: a + 1 stands for every total above a.
pub fn count_on(v: u32, a: u32) -> u32
    requires { v ≤ 32767 }
    ensures { result ≡ count_on a v }
{
    if v <= a { v + 1 } else { v }
}

// Each k-mer's count over the first n rows too, which makes it the total. A row whose k-mer has passed a before is set to 0 at once, and nothing of
// it is counted any more. True where a k-mer passes a at a row, since that row and those before it are then left to be capped. One turn a row.
// kept: one yes or no, with no value beside it.
pub fn count_rows(firsts: &mut [u32], n: usize, a: u32, count: &mut [u32]) -> bool
    requires n_in_bounds { n ≤ length firsts.old }
    requires n_bound { n ≤ 16384 }
    requires upto { Upto firsts.old n (length count.old) }
    requires upto_2 { Upto count.old (length count.old) (min 16384 (a + 1)) }
    ensures tallied { Tallied firsts.old n a count.old count.new }
    ensures struck { Struck count.old a firsts.old firsts.new n }
    ensures none_passes { result ≡ false → NonePasses a count.old count.new }
    ensures one_passes { result ≡ true → OnePasses a count.old count.new }
{
    let mut late = false;
    for row in firsts[..n].iter_mut() {
        let e = *row as usize;
        if 0 < e {
            let q = e - 1;
            let v = count[q];
            if a < v {
                *row = 0;
            } else {
                count[q] = v + 1;
                late |= v == a;
            }
        }
    }
    late
}

// A k-mer with a total above a is not used: 0 for each of the first n rows that has one. One turn a row.
pub fn cap(count: &[u32], a: u32, firsts: &mut [u32], n: usize)
    requires n_in_bounds { n ≤ length firsts.old }
    requires upto { Upto firsts.old n (length count.now) }
    ensures { Capped count.now a firsts.old firsts.new n }
{
    for row in firsts[..n].iter_mut() {
        let e = *row as usize;
        if 0 < e && a < count[e - 1] {
            *row = 0;
        }
    }
}
