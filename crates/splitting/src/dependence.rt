// On which features a set depends, once the earlier ones are decided: a table made once for a set.
ghost use Rattle.std.specs.Prelude.{true, ◌≡◌, ℕ, ◌+◌, ◌^◌, ◌<◌, ◌≤◌, eqb, get_or, length};
ghost use Rattle.products.specs.Sets.{bit};
ghost use Rattle.splitting.specs.Splitting.{in_set, all};
ghost use Rattle.splitting.specs.Inside.{Within, Word, Level, First, Ends, Later, Joins, Repeats, Typical};

// Lays the table: bit 2 ^ i + c of it, for i below n, is 1 exactly if the set depends on feature i among the
// products whose first i features make the number c. Six features have all their bits in word 0, and the
// other words are left as they are. Answers behind how many features, of the first n, nothing is marked.
pub(crate) fn lay_table(set: &[u64; 16], n: usize, table: &mut [u64; 16]) -> usize
    requires { (n ≤ 10) × Within n set.now × (length table.old ≡ 16) }
    ensures { (result ≤ n) × Ends result n set.now table.new }
{
    let m = lay_later(set, n, table);
    let x = first_word(set, m);
    table[0] = x;
    if 6 < m {
        return m;
    }
    last_of_six(x).min(m)
}

// The first feature from i on, and before n, that the table marks for the choices made; else n.
pub(crate) fn first(table: &[u64; 16], n: usize, i: usize, chosen: usize) -> usize
    requires { (n ≤ 10) × (i ≤ n) × (chosen < 2 ^ i) }
    ensures { (i ≤ result) × (result ≤ n) × First table.now n i chosen result }
{
    for j in i..n {
        if marked(table, (1usize << j) + chosen) {
            return j;
        }
    }
    n
}

// Whether bit p of the words is 1.
pub(crate) fn marked(words: &[u64; 16], p: usize) -> bool
    requires { p < 1024 }
    ensures { result ≡ in_set words.now p }
{
    (words[p / 64] >> (p % 64)) % 2 == 1
}

// Lays the words behind the first, and answers behind how many features they mark none: 6 at least, or n.
fn lay_later(set: &[u64; 16], n: usize, table: &mut [u64; 16]) -> usize
    requires { (n ≤ 10) × Within n set.now × (length table.old ≡ 16) }
    ensures { (result ≤ 6 → Typical (get_or set.now 0 0) set.now) × Later result n set.now table.new }
{
    if n <= 6 {
        return n;
    }
    for w in 1..16 {
        table[w] = later_word(set, w);
    }
    last_of_ten(table).min(n)
}

// 6 to 10: behind so many features no word marks any. What word 0 marks does not matter.
fn last_of_ten(table: &[u64; 16]) -> usize
    ensures { (6 ≤ result) × Within result table.now }
{
    let a = table[8] | table[9] | table[10] | table[11];
    if 0 < (a | table[12] | table[13] | table[14] | table[15]) {
        return 10;
    }
    if 0 < (table[4] | table[5] | table[6] | table[7]) {
        return 9;
    }
    if 0 < (table[2] | table[3]) {
        return 8;
    }
    if 0 < table[1] {
        return 7;
    }
    6
}

// 1 to 6: behind so many features word 0 marks none.
fn last_of_six(x: u64) -> usize
    ensures { x < 2 ^ 2 ^ result }
{
    if x < 0x4 {
        return 1;
    }
    if x < 0x10 {
        return 2;
    }
    if x < 0x100 {
        return 3;
    }
    if x < 0x1_0000 {
        return 4;
    }
    if x < 0x1_0000_0000 {
        return 5;
    }
    6
}

// Word 0 of the table: features 0 to 5, the bits of each behind those of the one before.
fn first_word(set: &[u64; 16], m: usize) -> u64
    requires { m ≤ 6 → Typical (get_or set.now 0 0) set.now }
    ensures { Word set.now 0 result }
{
    let one = typical(set, m);
    let a = low_level(set, one, 0) % 2 * 2;
    let b = a + low_level(set, one, 1) % 4 * 4;
    let c = b + low_level(set, one, 2) % 16 * 16;
    let d = c + low_level(set, one, 3) % 256 * 256;
    let e = d + low_level(set, one, 4) % 65536 * 65536;
    e + low_level(set, one, 5) % 4294967296 * 4294967296
}

// A word that stands for all sixteen, if there is one: the first where six features are enough; else all joined,
// where no word is other than that or 0, as it is of a guard that asks for later features by `&`.
fn typical(set: &[u64; 16], m: usize) -> Option<u64>
    requires { m ≤ 6 → Typical (get_or set.now 0 0) set.now }
    ensures { (x : ℕ) → result ≡ Some x → Typical x set.now }
{
    if m <= 6 {
        return Some(set[0]);
    }
    let word = joined(set);
    if repeated(set, word) {
        return Some(word);
    }
    None
}

// All words of the set joined.
fn joined(set: &[u64; 16]) -> u64
    ensures { Joins result set.now 16 }
{
    let mut r = 0u64;
    for word in set {
        r |= *word;
    }
    r
}

// Yes only where each word of the set is 0 or x. Nothing hangs on a no but speed.
fn repeated(set: &[u64; 16], x: u64) -> bool
    ensures { result ≡ true → Repeats x set.now 16 }
{
    set.iter().all(|word| *word == 0 || *word == x)
}

// Feature i below 6: whatever the later features are, brought together on the first bits.
fn low_level(set: &[u64; 16], one: Option<u64>, i: usize) -> u64
    requires { (i < 6) × ((x : ℕ) → one ≡ Some x → Typical x set.now) }
    ensures { Level set.now i result }
{
    let mut r = across(set, one, i);
    for j in (i + 1..6).rev() {
        r |= r >> (1u64 << j);
    }
    r
}

// Bit k: in some word bits k and k + 2 ^ i differ. Where one word stands for all, that tells it.
fn across(set: &[u64; 16], one: Option<u64>, i: usize) -> u64
    requires { (i < 6) × ((x : ℕ) → one ≡ Some x → Typical x set.now) }
    ensures { (k : ℕ) → 2 ^ i + k < 64 → eqb (bit result k) 0 ≡ all (λ w. eqb (bit (get_or set.now w 0) k) (bit (get_or set.now w 0) (2 ^ i + k))) 16 }
{
    let step = 1u64 << i;
    if let Some(x) = one {
        return x ^ (x >> step);
    }
    let mut r = 0u64;
    for word in set {
        r |= *word ^ (*word >> step);
    }
    r
}

// Word w of the table from 1 on: features 6 to 9, which tell whole words apart.
fn later_word(set: &[u64; 16], w: usize) -> u64
    requires { (1 ≤ w) × (w < 16) }
    ensures { Word set.now w result }
{
    if w < 2 {
        return level_six(set);
    }
    if w < 4 {
        return level_seven(set, w - 2);
    }
    if w < 8 {
        return level_eight(set, w - 4);
    }
    set[w - 8] ^ set[w]
}

// Feature 6: words 1 apart.
fn level_six(set: &[u64; 16]) -> u64
    ensures { Word set.now 1 result }
{
    let a = (set[0] ^ set[1]) | (set[2] ^ set[3]);
    let b = a | (set[4] ^ set[5]) | (set[6] ^ set[7]);
    let c = b | (set[8] ^ set[9]) | (set[10] ^ set[11]);
    c | (set[12] ^ set[13]) | (set[14] ^ set[15])
}

// Feature 7: words 2 apart.
fn level_seven(set: &[u64; 16], c: usize) -> u64
    requires { c < 2 }
    ensures { Word set.now (2 + c) result }
{
    let a = (set[c] ^ set[c + 2]) | (set[c + 4] ^ set[c + 6]);
    a | (set[c + 8] ^ set[c + 10]) | (set[c + 12] ^ set[c + 14])
}

// Feature 8: words 4 apart.
fn level_eight(set: &[u64; 16], c: usize) -> u64
    requires { c < 4 }
    ensures { Word set.now (4 + c) result }
{
    (set[c] ^ set[c + 4]) | (set[c + 8] ^ set[c + 12])
}
