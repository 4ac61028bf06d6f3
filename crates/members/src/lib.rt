// What sets of products have: whether a set has a product, any, or all, and how many; of what two sets share, or
// the first alone has, the product that comes first in an order, and whether there is one; whether two are the same.
#![tactic(auto)]

ghost use Rattle.std.specs.Prelude.{◌≡◌, true, false, not, ◌⊎◌, ℕ, ◌<◌, ◌≤◌, eqb};
ghost use Rattle.products.specs.Sets.{bit, one_if, In, Picked, InBoth, InOnly, Least, Finds, Full, Lacks, count_to};
ghost use Rattle.products.specs.Orders.{bits, features, Plainer, Before};
ghost use Rattle.members.specs.Inside.{InWord};

use products::Order;

// Whether s has the product p.
pub fn has(s: &[u64; 16], p: usize) -> bool
    ensures { (result ≡ true → In s.now p) × (result ≡ false → In s.now p → ⊥) }
{
    if 1024 <= p {
        return false;
    }
    (s[p / 64] >> (p % 64)) % 2 == 1
}

// Whether a and b have the same products: all words at once, without a branch for each.
pub fn same(a: [u64; 16], b: [u64; 16]) -> bool
    ensures { (result ≡ true → a ≡ b) × (result ≡ false → a ≡ b → ⊥) }
{
    // Not `a == b`: it was tried, and takes a seventh more time.
    let mut differ = 0;
    for i in 0..16 {
        differ |= a[i] ^ b[i];
    }
    differ == 0
}

// Whether s has all 1,024 products.
pub fn is_full(s: [u64; 16]) -> bool
    ensures { (result ≡ true → Full s) × (result ≡ false → Lacks s) }
{
    same(s, [0xffff_ffff_ffff_ffffu64; 16])
}

// How many products s has.
pub fn count(s: [u64; 16]) -> usize
    ensures { result ≡ count_to s 1024 }
{
    let mut n = 0;
    for word in &s {
        n += word.count_ones() as usize;
    }
    n
}

// Of the products that a and b both have, the first in the order.
pub fn least_both(order: Order, a: &[u64; 16], b: &[u64; 16]) -> Option<usize>
    ensures { Finds (Before order) (InBoth a.now b.now) result }
{
    least(order, a, b, false)
}

// Of the products that a has and b has not, the first in the order.
pub fn least_without(order: Order, a: &[u64; 16], b: &[u64; 16]) -> Option<usize>
    ensures { Finds (Before order) (InOnly a.now b.now) result }
{
    least(order, a, b, true)
}

// Of the products that a has and b has, or has not if `out`, the first in the order. A closure in the place of `out`
// is no plainer: what each function here promises is said by it.
fn least(order: Order, a: &[u64; 16], b: &[u64; 16], out: bool) -> Option<usize>
    ensures { Finds (Before order) (Picked (one_if (not out)) a.now b.now) result }
{
    let p = search(a, b, out)?;
    match order {
        Order::ByNumber => Some(p),
        Order::Plainest => Some(plainest(p, a, b, out)),
    }
}

// Of the products that a has and b has, or has not if `out`, the plainest: p, which has the smallest number, or one
// behind it with fewer features.
fn plainest(p: usize, a: &[u64; 16], b: &[u64; 16], out: bool) -> usize
    requires { Least ◌≤◌ (Picked (one_if (not out)) a.now b.now) p }
    ensures { Least Plainer (Picked (one_if (not out)) a.now b.now) result }
{
    let mut best = p;
    let mut few = features_of(p);
    for w in p / 64..16 {
        if words_below(few) <= w {
            return best;
        }
        let x = picked(a[w], b[w], out);
        if let Some(q) = plainest_in(w, x, few) {
            best = q;
            few = features_of(q);
        }
    }
    best
}

// How many words from the first on may have a product with fewer than `few` features: the others have as many
// in the word's own number. Behind a product that has none or one there is nothing to look for.
fn words_below(few: usize) -> usize
    ensures { (result ≤ 16) × ((few ≤ 1) ⊎ ((w : ℕ) → w < 16 → result ≤ w → few ≤ bits w 4)) }
{
    match few {
        0 | 1 => 0,
        2 => 9,
        3 => 13,
        4 => 15,
        _ => 16,
    }
}

// How many features the product p has.
fn features_of(p: usize) -> usize
    requires { p < 1024 }
    ensures { result ≡ features p }
{
    p.count_ones() as usize
}

// The plainest product that the word x has, as word w, and that has fewer than `few` features: layer by layer,
// and in its layer the one with the smallest number.
fn plainest_in(w: usize, x: u64, few: usize) -> Option<usize>
    requires { (w < 16) × (few ≤ 10) }
    ensures { Finds Plainer (InWord w x few) result }
{
    if x == 0 {
        return None;
    }
    let common = features_of_word(w);
    for n in common..few {
        let layer = x & with_features(n - common);
        if layer != 0 {
            return Some(w * 64 + lowest(layer));
        }
    }
    None
}

// The lowest place at which x, which is not 0, has a bit.
fn lowest(x: u64) -> usize
    requires { 0 < x }
    ensures place { result < 64 }
    ensures has { bit x result ≡ 1 }
    ensures first { (k : ℕ) → k < result → bit x k ≡ 0 }
{
    x.trailing_zeros() as usize
}

// How many of the last four features the products of word w have, all the same: one digit for each word.
fn features_of_word(w: usize) -> usize
    requires { w < 16 }
    ensures { result ≡ bits w 4 }
{
    (0x4332_3221_3221_2110usize >> (4 * w)) % 16
}

// The numbers below 64 that have n features.
fn with_features(n: usize) -> u64
    ensures { (k : ℕ) → k < 64 → bit result k ≡ one_if (eqb (bits k 6) n) }
{
    match n {
        0 => 0x0000_0000_0000_0001,
        1 => 0x0000_0001_0001_0116,
        2 => 0x0001_0116_0116_1668,
        3 => 0x0116_1668_1668_6880,
        4 => 0x1668_6880_6880_8000,
        5 => 0x6880_8000_8000_0000,
        6 => 0x8000_0000_0000_0000,
        _ => 0,
    }
}

// Of the products that a has and b has, or has not if `out`, the one with the smallest number. Words that hold
// none are passed over whole.
fn search(a: &[u64; 16], b: &[u64; 16], out: bool) -> Option<usize>
    ensures { Finds ◌≤◌ (Picked (one_if (not out)) a.now b.now) result }
{
    for w in 0..16 {
        let x = picked(a[w], b[w], out);
        if x != 0 {
            return Some(w * 64 + lowest(x));
        }
    }
    None
}

// Whether a and b share a product.
pub fn meets(a: &[u64; 16], b: &[u64; 16]) -> bool
    ensures { (result ≡ true → (q : ℕ) × InBoth a.now b.now q) × (result ≡ false → (q : ℕ) → InBoth a.now b.now q → ⊥) }
{
    any(a, b, false)
}

// Whether a has a product that b has not.
pub fn exceeds(a: &[u64; 16], b: &[u64; 16]) -> bool
    ensures { (result ≡ true → (q : ℕ) × InOnly a.now b.now q) × (result ≡ false → (q : ℕ) → InOnly a.now b.now q → ⊥) }
{
    any(a, b, true)
}

// Whether a has a product that b has, or has not if `out`. The first word that holds one tells.
fn any(a: &[u64; 16], b: &[u64; 16], out: bool) -> bool
    ensures { (result ≡ true → (q : ℕ) × Picked (one_if (not out)) a.now b.now q) × (result ≡ false → (q : ℕ) → Picked (one_if (not out)) a.now b.now q → ⊥) }
{
    for w in 0..16 {
        if picked(a[w], b[w], out) != 0 {
            return true;
        }
    }
    false
}

// The bits of a that b has, or has not if `out`.
fn picked(a: u64, b: u64, out: bool) -> u64
    ensures { (k : ℕ) → (bit result k ≡ 1 → (bit a k ≡ 1) × (bit b k ≡ one_if (not out))) × (bit a k ≡ 1 → bit b k ≡ one_if (not out) → bit result k ≡ 1) }
{
    if out {
        return a ^ (a & b);
    }
    a & b
}

// Whether s has no product: all words at once, without a branch for each.
pub fn is_empty(s: [u64; 16]) -> bool
    ensures { (result ≡ true → (q : ℕ) → In s q → ⊥) × (result ≡ false → (q : ℕ) × In s q) }
{
    // Not `s == [0; 16]`: it was tried, and takes twice the time.
    let mut all = 0;
    for word in &s {
        all |= word;
    }
    all == 0
}
