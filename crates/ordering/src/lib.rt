// The moves that are not dead, in order: by from, then to, then the action's bytes, a shorter one before
// its extensions. Row numbers are put in one after another; rows themselves stay where they are.
#![tactic(auto)]

ghost use Rattle.std.specs.Prelude.{◌≡◌, List, [], ◌∷◌, ◌++◌, ℕ, ◌+◌, ◌≤◌, ◌<◌, min, length, get_or, take, drop};
ghost use Rattle.ordering.specs.Ordering.{less_bytes, row_key, key_at, MadeRow, insert_by, Orders};
ghost use Rattle.ordering.specs.Inside.{Level, Between};

use tables::{ACTION, ACTION_END, FROM, TO};

// Lays the numbers of those of the first `count` moves that some product of its source's set makes into
// `order`, in order, and answers how many they are. Rows count as far as both tables reach, 256 at most.
pub fn order_moves(
    text: &[u8],
    count: usize,
    moves: &[[usize; 5]],
    guards: &[[u64; 16]],
    sets: &[[u64; 16]],
    order: &mut [u8; 256],
) -> usize
    ensures { Orders (key_at text.now moves.now) (MadeRow moves.now guards.now sets.now) (min (min (min count 256) (length moves.now)) (length guards.now)) order.old order.new result }
{
    let n = count.min(256).min(moves.len()).min(guards.len());
    let mut ordered = Ordered { kept: 0, place: 0 };
    for i in 0..n {
        ordered = order_row(text, i, moves, guards, sets, order, ordered);
    }
    ordered.kept
}

// How many rows stand in order, and where the last one was put.
#[derive(Clone, Copy)]
struct Ordered {
    kept: usize,
    place: usize,
}

// Puts row i among those of `order`, if some product makes its move. Rows often come in order, so the place is
// looked for from where the row before was put.
fn order_row(
    text: &[u8],
    i: usize,
    moves: &[[usize; 5]],
    guards: &[[u64; 16]],
    sets: &[[u64; 16]],
    order: &mut [u8; 256],
    ordered: Ordered,
) -> Ordered
    requires { (ordered.kept ≤ i) × (i < 256) × (i < length moves.now) × (i < length guards.now) }
    ensures { (first : List ℕ) → Orders (key_at text.now moves.now) (MadeRow moves.now guards.now sets.now) i first order.old ordered.kept → Orders (key_at text.now moves.now) (MadeRow moves.now guards.now sets.now) (i + 1) first order.new result.kept }
{
    let Some(reached) = sets.get(moves[i][FROM] % 64) else {
        return ordered;
    };
    if !members::meets(reached, &guards[i]) {
        return ordered;
    }
    let Ordered { kept, place } = ordered;
    let place = insert(text, moves, order, kept, i, place);
    Ordered {
        kept: kept + 1,
        place,
    }
}

// Puts row x in its place among the first k of `order`, which are in order, and answers the place.
fn insert(
    text: &[u8],
    moves: &[[usize; 5]],
    order: &mut [u8; 256],
    k: usize,
    x: usize,
    near: usize,
) -> usize
    requires { (k < 256) × (x < 256) }
    ensures { Level (key_at text.now moves.now) k order.old → order.new ≡ insert_by (key_at text.now moves.now) x (take k order.old) ++ drop (k + 1) order.old }
{
    let place = place_of(text, moves, order, k, x, near);
    shift(order, place, k, x);
    place
}

// How many of the first k of `order`, which are in order, stay in front of row x: each turn looks at one of
// those that are left between those that stay and those that x comes before.
fn place_of(
    text: &[u8],
    moves: &[[usize; 5]],
    order: &[u8; 256],
    k: usize,
    x: usize,
    near: usize,
) -> usize
    requires { (k < 256) × (x < 256) }
    ensures { (result ≤ k) × (Level (key_at text.now moves.now) k order.now → Between (key_at text.now moves.now) x k order.now result result) }
{
    let row = row_at(moves, x);
    // Not partition_point: it begins in the middle, and rows in order would be looked for from there each time.
    let mut low = 0;
    let mut high = k;
    while low < high {
        let at = look(low, high, near, k);
        let y = usize::from(order[at]);
        if before(text, row, row_at(moves, y)) {
            high = at;
        } else {
            low = at + 1;
        }
    }
    low
}

// A place from `low` on and before `high`: first `near`; then, as long as none is known to stand behind, ever
// further from there; else the middle. Nothing hangs on the choice but speed.
fn look(low: usize, high: usize, near: usize, k: usize) -> usize
    requires { (low < high) × (high < 256) }
    ensures { (low ≤ result) × (result < high) }
{
    let middle = low + (high - low) / 2;
    if high < k {
        return middle;
    }
    if low <= near {
        return near.min(high - 1);
    }
    (low + (low - near) + 6).min(middle)
}

// Row i, or a row of zeros where the table ends before it: both have the key of row i.
fn row_at(moves: &[[usize; 5]], i: usize) -> [usize; 5]
    requires { i < 256 }
    ensures { (s : List ℕ) → row_key s result ≡ key_at s moves.now i }
{
    moves.get(i).copied().unwrap_or([0; 5])
}

// Puts x at `place` among the first k of `order`: what stands from there on is carried on by one.
fn shift(order: &mut [u8; 256], place: usize, k: usize, x: usize)
    requires { (place ≤ k) × (k < 256) × (x < 256) }
    ensures { order.new ≡ take place order.old ++ ((x ∷ drop place (take k order.old)) ++ drop (k + 1) order.old) }
{
    order[k] = x as u8;
    order[place..k + 1].rotate_right(1);
}

// Whether row a comes before row b.
fn before(text: &[u8], a: [usize; 5], b: [usize; 5]) -> bool
    ensures { result ≡ less_bytes (row_key text.now a) (row_key text.now b) }
{
    let from = a[FROM];
    let other = b[FROM];
    if from != other {
        return from < other;
    }
    let to = a[TO];
    let onto = b[TO];
    if to != onto {
        return to < onto;
    }
    less(
        fields::piece(text, a[ACTION], a[ACTION_END]),
        fields::piece(text, b[ACTION], b[ACTION_END]),
    )
}

// Whether x comes before y by bytes: the first place behind what both share decides.
// Not `x.cmp(&y).is_lt()`: a clean sheet whose actions begin alike (bench's 15-one-state) took a fifth longer.
fn less(x: &[u8], y: &[u8]) -> bool
    ensures { result ≡ less_bytes x.now y.now }
{
    let n = fields::shared(x, y);
    if y.len() <= n {
        return false;
    }
    if x.len() <= n {
        return true;
    }
    x[n] < y[n]
}
