// Bytes of a line: where a mark stands, a part, the same bytes, the run of a name. Every public function
// takes whole slices and asks nothing of its caller; none writes. What a field says is told in `values`,
// and how a line is cut in `cutting`.
#![tactic(auto)]

ghost use Rattle.std.specs.Prelude.{◌≡◌, ◌+◌, ◌/◌, ◌<◌, ◌≤◌, min, length, slice_index};
ghost use Rattle.std.specs.Int.Count.{count_trailing_zeros};
ghost use Rattle.fields.specs.Bytes.{piece_of, same_bytes, shared_bytes, is_letter, is_name_byte, FirstAt, RunEnd};
ghost use Rattle.fields.specs.Inside.{FirstOf, Digits, BeginAlike};

// The places of the three tabs between four fields.
#[derive(Clone, Copy)]
pub struct Tabs {
    pub first: usize,
    pub second: usize,
    pub third: usize,
}

// The first place from `from` on at which s has the byte m, or the end of s. Eight bytes at a time.
pub fn find(s: &[u8], m: u8, from: usize) -> usize
    ensures { FirstAt s.now m from result }
{
    // Not `for k in 0..eights`: it was tried, and takes an eighth more time.
    let mut i = from;
    while i < s.len() {
        if s.len() - i < 8 {
            return find_near(s, m, i);
        }
        let marks = marks_of_eight(s, m, i);
        if marks != 0 {
            return i + marks.trailing_zeros() as usize / 8;
        }
        i += 8;
    }
    s.len()
}

// The same, byte by byte.
fn find_near(s: &[u8], m: u8, from: usize) -> usize
    ensures { FirstAt s.now m from result }
{
    for i in from..s.len() {
        if s[i] == m {
            return i;
        }
    }
    s.len()
}

const ONES: u64 = 0x0101_0101_0101_0101;

const HIGH_BITS: u64 = 0x8080_8080_8080_8080;

// 0 where none of the eight bytes from i on is m; else a number whose lowest bit is the high bit of the first
// that is. A byte of `differs` is 0 where s has m. Below the first such byte nothing is borrowed, and a byte
// that is not 0 leaves no high bit; what stands above says nothing.
fn marks_of_eight(s: &[u8], m: u8, i: usize) -> u64
    requires { i + 8 ≤ length s.now }
    ensures { FirstOf (λ k. slice_index s.now (i + k)) m 8 (count_trailing_zeros 64 result / 8) }
{
    let differs = eight(s, i) ^ (u64::from(m) * ONES);
    differs.wrapping_sub(ONES) & !differs & HIGH_BITS
}

// The eight bytes from i on as one number, the first lowest.
fn eight(s: &[u8], i: usize) -> u64
    requires { i + 8 ≤ length s.now }
    ensures { Digits (λ k. slice_index s.now (i + k)) result }
{
    // `u64::from_le_bytes` of `first_chunk` is no plainer: it wants an answer for a `None` that cannot be.
    u64::from(s[i])
        + u64::from(s[i + 1]) * 0x100
        + u64::from(s[i + 2]) * 0x1_0000
        + u64::from(s[i + 3]) * 0x100_0000
        + u64::from(s[i + 4]) * 0x1_0000_0000
        + u64::from(s[i + 5]) * 0x100_0000_0000
        + u64::from(s[i + 6]) * 0x1_0000_0000_0000
        + u64::from(s[i + 7]) * 0x100_0000_0000_0000
}

// The bytes from place a up to place e, or none where s has no such part.
pub fn piece(s: &[u8], a: usize, e: usize) -> &[u8]
    ensures { result.now ≡ piece_of s.now a e }
{
    s.get(a..e).unwrap_or(&[])
}

// Whether the bytes of x are those of y.
pub fn same_bytes(x: &[u8], y: &[u8]) -> bool
    ensures { result ≡ same_bytes x.now y.now }
{
    x == y
}

// How many of the first bytes x and y share: looked at in eights, and then one by one.
pub fn shared(x: &[u8], y: &[u8]) -> usize
    ensures { result ≡ shared_bytes x.now y.now }
{
    let most = x.len().min(y.len());
    for n in eights(x, y)..most {
        if x[n] != y[n] {
            return n;
        }
    }
    most
}

// A place up to which x and y are alike, told by eights: the first that differ, or fewer than eight are left.
// Nothing hangs on it but speed.
fn eights(x: &[u8], y: &[u8]) -> usize
    ensures { BeginAlike x.now y.now result }
{
    // Not `for n in 0..most / 8`: it was tried, and takes a sixteenth more time.
    let most = x.len().min(y.len());
    let mut k = 0;
    while 8 <= most - k {
        let differs = eight(x, k) ^ eight(y, k);
        if differs != 0 {
            return k + differs.trailing_zeros() as usize / 8;
        }
        k += 8;
    }
    k
}

pub fn is_letter(b: u8) -> bool
    ensures { result ≡ is_letter b }
{
    b.is_ascii_alphabetic()
}

pub fn is_name_byte(b: u8) -> bool
    ensures { result ≡ is_name_byte b }
{
    b.is_ascii_alphanumeric() | (b == b'_')
}

// Where the run of name bytes that begins at `at` ends; past the end of s, that end.
pub fn run_end(s: &[u8], at: usize) -> usize
    ensures { RunEnd s.now at result }
{
    for i in at..s.len() {
        if !is_name_byte(s[i]) {
            return i;
        }
    }
    s.len()
}
