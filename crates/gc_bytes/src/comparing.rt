//! The order of two texts, word by word.

ghost use Rattle.std.specs.Prelude.{◌≡◌, ◌<◌, ◌≤◌, ◌*◌, ◌/◌, ◌^◌, drop, length, min, take};
ghost use Rattle.std.specs.Cmp.Lexicographic.{slice_cmp};
ghost use Rattle.std.specs.Ordering.{nat_cmp};
ghost use Rattle.gc_bytes.specs.Text.{bytes_of, digits};

use crate::parts::low;
use std::cmp::Ordering;

/// Returns the order of the first `n` bytes of the words `one` and the first `m` bytes of the words `other`.
pub(crate) fn compare_bytes(one: &[u64], n: usize, other: &[u64], m: usize) -> Ordering
    requires few { (length one.now < 2 ^ 59) × (length other.now < 2 ^ 59) }
    requires one { n ≤ 7 * length one.now }
    requires other { m ≤ 7 * length other.now }
    ensures { result ≡ slice_cmp nat_cmp (take n (bytes_of one.now)) (take m (bytes_of other.now)) }
{
    let common = n.min(m);
    for w in 0..common / 7 {
        let order = compare_digits(one[w], other[w], 7);
        let Ordering::Equal = order else {
            return order;
        };
    }
    compare_ends(one, n, other, m, common / 7)
}

// Returns the order of the same bytes without those of the first `w` words. One of both has fewer than seven more.
fn compare_ends(one: &[u64], n: usize, other: &[u64], m: usize, w: usize) -> Ordering
    requires few { (length one.now < 2 ^ 59) × (length other.now < 2 ^ 59) }
    requires one { n ≤ 7 * length one.now }
    requires other { m ≤ 7 * length other.now }
    requires word { w ≡ min n m / 7 }
    ensures { result ≡ slice_cmp nat_cmp (drop (7 * w) (take n (bytes_of one.now))) (drop (7 * w) (take m (bytes_of other.now))) }
{
    let left = n.min(m) - 7 * w;
    if left == 0 {
        return n.cmp(&m);
    }
    let order = compare_digits(one[w], other[w], left);
    let Ordering::Equal = order else {
        return order;
    };
    n.cmp(&m)
}

// Returns the order of the k lowest digits of both words to the base 256, the lowest first.
#[inline(always)]
fn compare_digits(a: u64, b: u64, k: usize) -> Ordering
    requires { k ≤ 7 }
    ensures { result ≡ slice_cmp nat_cmp (digits k a) (digits k b) }
{
    if low(a, k) == low(b, k) {
        return Ordering::Equal;
    }
    first_difference(a, b, k)
}

// Does the same, digit by digit.
fn first_difference(a: u64, b: u64, k: usize) -> Ordering
    ensures { result ≡ slice_cmp nat_cmp (digits k a) (digits k b) }
{
    let mut x = a;
    let mut y = b;
    for i in 0..k {
        if x % 256 != y % 256 {
            return (x % 256).cmp(&(y % 256));
        }
        x /= 256;
        y /= 256;
    }
    Ordering::Equal
}
