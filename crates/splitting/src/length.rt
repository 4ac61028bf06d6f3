// How long the guard of a set is, by the table that tells on which features the set depends. The
// choices that the guard meets are counted by words, and no text is made.
ghost use Rattle.std.specs.Prelude.{IfSome, ◌≡◌, List, ◌∷◌, ℕ, ◌<◌, ◌≤◌, length};
ghost use Rattle.products.specs.Sets.{count_to};
ghost use Rattle.guards.specs.Guard.{print};
ghost use Rattle.guards.specs.Reading.{names_of};
ghost use Rattle.splitting.specs.Splitting.{in_set, guard_of};
ghost use Rattle.splitting.specs.Inside.{Ends, Met, Further, Widened};

use guards::FeatureNames;
use tables::{NAME, NAME_END};

// A name of more bytes is not counted with: the sums stay small, and nothing hangs on it but speed.
const MOST_NAME: usize = 64;

// The length of the guard of every set of which the table tells, where it marks no feature from m on;
// or none, where a name is too long to be counted with. A choice that is split on feature i adds the
// feature's name, the bytes `(?:)` and one leaf more.
pub(crate) fn guard_length(names: &FeatureNames, m: usize, table: &[u64; 16]) -> Option<usize>
    requires { m ≤ 10 }
    ensures { IfSome result (λ long. (n : ℕ) (set : List ℕ) → Ends m n set table.now → long ≡ length (print (guard_of 0 n (in_set set)) (names_of names.now.text.now names.now.rows.now n) List.[])) }
{
    let mut met = [0u64; 16];
    met[0] = 1;
    let mut total = 1;
    for i in 0..m {
        let row = names.rows[i];
        let from = row[NAME];
        let upto = row[NAME_END];
        let name = fields::piece(names.text, from, upto);
        if MOST_NAME < name.len() {
            return None;
        }
        let long = name.len() + 5;
        total += splits(&mut met, table, i) * long;
    }
    Some(total)
}

// How many of the choices met for the features before i are split on feature i; those with feature i
// are then met, too. Six features have all their choices in word 0.
fn splits(met: &mut [u64; 16], table: &[u64; 16], i: usize) -> usize
    requires { i < 10 }
    ensures { Met i table.now met.old → Further i table.now met.old met.new result }
{
    if i < 6 {
        let split = (met[0] << (1u64 << i)) & table[0];
        met[0] |= split;
        return ones(split);
    }
    word_splits(met, table, 1usize << (i - 6))
}

// The same for feature 6 and later ones, which tell h words from the next h.
fn word_splits(met: &mut [u64; 16], table: &[u64; 16], h: usize) -> usize
    requires { h ≤ 8 }
    ensures { length met.old ≡ 16 → Widened h table.now met.old met.new h result }
{
    let mut k = 0;
    for w in 0..h {
        let split = met[w] & table[h + w];
        met[h + w] = split;
        k += ones(split);
    }
    k
}

// How many bits of x are 1: as many as there are products in a set with this word.
fn ones(x: u64) -> usize
    ensures { result ≡ count_to (x ∷ List.[]) 64 }
{
    x.count_ones() as usize
}
