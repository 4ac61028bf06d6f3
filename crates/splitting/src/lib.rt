// A set of products written as a guard: `0`, `1`, or split on the first feature on which it depends.
// Nothing here knows what the set stands for.
#![tactic(auto)]

mod dependence;
mod length;

ghost use Rattle.std.specs.Prelude.{true, List, ◌≡◌, ℕ, ◌+◌, ◌-◌, ◌*◌, ◌^◌, ◌<◌, ◌≤◌, min};
ghost use Rattle.text.specs.Text.{Wrote};
ghost use Rattle.guards.specs.Guard.{print};
ghost use Rattle.guards.specs.Reading.{names_in, names_of};
ghost use Rattle.splitting.specs.Splitting.{in_set, guard_of};
ghost use Rattle.splitting.specs.Inside.{Ends, leaf_text};

use guards::FeatureNames;
use tables::{NAME, NAME_END};

// A set that is laid as a guard, and the table that tells on which features it depends: from feature `end` on it
// marks none.
#[derive(Clone, Copy)]
struct Split<'a> {
    names: &'a FeatureNames<'a>,
    set: &'a [u64; 16],
    table: &'a [u64; 16],
    end: usize,
}

// Lays the guard of the set's products of the features named. In a full room nothing is laid, and the guard's
// length is enough.
pub fn put_guard(room: &mut [u8], at: usize, names: &FeatureNames, set: [u64; 16]) -> usize
    ensures { Wrote room.old at (print (guard_of 0 (min names.now.count 10) (in_set set)) (names_in names.now) List.[]) room.new result }
{
    let n = names.count.min(10);
    let few = products::both(set, products::all(n));
    let mut table = [0u64; 16];
    let m = dependence::lay_table(&few, n, &mut table);
    if room.len() <= at {
        if let Some(long) = length::guard_length(names, m, &table) {
            return text::place_behind(at, long);
        }
    }
    let j = dependence::first(&table, m, 0, 0);
    if m <= j {
        return put_leaf(room, at, dependence::marked(&few, 0));
    }
    let split = Split {
        names,
        set: &few,
        table: &table,
        end: m,
    };
    put_set(room, at, &split, j, 0)
}

// Lays the guard of the set's products that the choices made for the features before j allow, where the
// table marks feature j for them: it splits on that feature, and calls itself on a half that depends on
// a later one.
fn put_set(room: &mut [u8], at: usize, split: &Split, j: usize, chosen: usize) -> usize
    requires { (split.now.end ≤ 10) × (j < split.now.end) × (chosen < 2 ^ j) }
    ensures { (n : ℕ) → Ends split.now.end n split.now.set.now split.now.table.now → in_set split.now.table.now (2 ^ j + chosen) ≡ true → Wrote room.old at (print (guard_of j (n - j) (λ q. in_set split.now.set.now (chosen + q * 2 ^ j))) (names_of split.now.names.now.text.now split.now.names.now.rows.now n) List.[]) room.new result }
{
    let m = split.end;
    let given = chosen + (1usize << j);
    let row = split.names.rows[j];
    let from = row[NAME];
    let upto = row[NAME_END];
    let a = text::put(room, at, b'(');
    let b = text::put_bytes(room, a, fields::piece(split.names.text, from, upto));
    let c = text::put(room, b, b'?');
    let x = dependence::first(split.table, m, j + 1, given);
    let d = if m <= x {
        put_leaf(room, c, dependence::marked(split.set, given))
    } else {
        put_set(room, c, split, x, given)
    };
    let e = text::put(room, d, b':');
    let y = dependence::first(split.table, m, j + 1, chosen);
    let f = if m <= y {
        put_leaf(room, e, dependence::marked(split.set, chosen))
    } else {
        put_set(room, e, split, y, chosen)
    };
    text::put(room, f, b')')
}

// Lays `1` for yes, `0` for no.
fn put_leaf(room: &mut [u8], at: usize, yes: bool) -> usize
    ensures { Wrote room.old at (leaf_text yes) room.new result }
{
    if yes {
        return text::put(room, at, b'1');
    }
    text::put(room, at, b'0')
}
