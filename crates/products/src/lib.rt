// Sets of products, sixteen 64-bit words. Product p is bit p % 64 of word p / 64, so a set
// speaks of all 1,024 products of ten features; `all` gives those of fewer. Nothing here knows of
// guards, sheets or names.
#![tactic(auto)]

ghost use Rattle.std.specs.Prelude.{◌≡◌, ℕ, ◌-◌, ◌<◌, ◌^◌, min, max, ltb};
ghost use Rattle.products.specs.Sets.{bit, has, one_if};

use std::array::from_fn;

// Which of two products comes first: the plainer one, which has fewer features, or as many and the smaller
// number; or the one with the smaller number, whatever it has.
#[derive(Clone, Copy)]
pub enum Order {
    Plainest,
    ByNumber,
}

// The products that a and b both have.
pub fn both(a: [u64; 16], b: [u64; 16]) -> [u64; 16]
    ensures { (p : ℕ) → p < 1024 → has result p ≡ min (has a p) (has b p) }
{
    from_fn(|i| a[i] & b[i])
}

// The products that a or b has.
pub fn either(a: [u64; 16], b: [u64; 16]) -> [u64; 16]
    ensures { (p : ℕ) → p < 1024 → has result p ≡ max (has a p) (has b p) }
{
    from_fn(|i| a[i] | b[i])
}

// The products that a has and b has not.
pub fn without(a: [u64; 16], b: [u64; 16]) -> [u64; 16]
    ensures { (p : ℕ) → p < 1024 → has result p ≡ has a p - has b p }
{
    from_fn(|i| a[i] & !b[i])
}

// a where c holds, and b elsewhere.
pub fn choice(c: [u64; 16], a: [u64; 16], b: [u64; 16]) -> [u64; 16]
    ensures { (p : ℕ) → p < 1024 → has result p ≡ max (min (has c p) (has a p)) (has b p - has c p) }
{
    from_fn(|i| (c[i] & a[i]) | (b[i] & !c[i]))
}

// A word with all its 64 products.
const ON: u64 = 0xffff_ffff_ffff_ffff;

// The numbers below 64 that have bit i.
fn mask(i: usize) -> u64
    ensures { (k : ℕ) → k < 64 → bit result k ≡ bit k i }
{
    match i {
        0 => 0xaaaa_aaaa_aaaa_aaaa,
        1 => 0xcccc_cccc_cccc_cccc,
        2 => 0xf0f0_f0f0_f0f0_f0f0,
        3 => 0xff00_ff00_ff00_ff00,
        4 => 0xffff_0000_ffff_0000,
        5 => 0xffff_ffff_0000_0000,
        _ => 0,
    }
}

// The products that have feature i, laid into `set`. No product has a feature from 10 on.
pub fn lay_feature(i: usize, set: &mut [u64; 16])
    ensures { (p : ℕ) → p < 1024 → has set.new p ≡ bit p i }
{
    if i < 6 {
        let word = mask(i);
        *set = [word; 16];
        return;
    }
    match i {
        6 => {
            *set = [0, ON, 0, ON, 0, ON, 0, ON, 0, ON, 0, ON, 0, ON, 0, ON];
        }
        7 => {
            *set = [0, 0, ON, ON, 0, 0, ON, ON, 0, 0, ON, ON, 0, 0, ON, ON];
        }
        8 => {
            *set = [0, 0, 0, 0, ON, ON, ON, ON, 0, 0, 0, 0, ON, ON, ON, ON];
        }
        9 => {
            *set = [0, 0, 0, 0, 0, 0, 0, 0, ON, ON, ON, ON, ON, ON, ON, ON];
        }
        _ => {
            *set = [0u64; 16];
        }
    }
}

// The numbers below 64 that are products of n features.
fn first_word(n: usize) -> u64
    ensures { (k : ℕ) → k < 64 → bit result k ≡ one_if (ltb k (2 ^ n)) }
{
    match n {
        0 => 0x1,
        1 => 0x3,
        2 => 0xf,
        3 => 0xff,
        4 => 0xffff,
        5 => 0xffff_ffff,
        _ => ON,
    }
}

// All products of n features. From 10 features on these are all 1,024.
pub fn all(n: usize) -> [u64; 16]
    ensures { (p : ℕ) → p < 1024 → has result p ≡ one_if (ltb p (2 ^ n)) }
{
    if n <= 6 {
        let word = first_word(n);
        return [word, 0, 0, 0, 0, 0, 0, 0, 0, 0, 0, 0, 0, 0, 0, 0];
    }
    match n {
        7 => [ON, ON, 0, 0, 0, 0, 0, 0, 0, 0, 0, 0, 0, 0, 0, 0],
        8 => [ON, ON, ON, ON, 0, 0, 0, 0, 0, 0, 0, 0, 0, 0, 0, 0],
        9 => [ON, ON, ON, ON, ON, ON, ON, ON, 0, 0, 0, 0, 0, 0, 0, 0],
        _ => [ON; 16],
    }
}
