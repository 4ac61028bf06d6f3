// The rows of moves and stops that were read: whether a triple or a state has come already. Rows are
// looked through from the last back; those of moves only where the triple's place has a mark.
ghost use Rattle.std.specs.Prelude.{◌≡◌, List, ◌+◌, ◌*◌, ◌%◌, ◌<◌, min, length, get_or};
ghost use Rattle.sheet.specs.Sheet.{Move, Stop};
ghost use Rattle.sheet.specs.Reading.{is_move, moved, stopped};
ghost use Rattle.sheet.specs.Tables.{Rows, MoveRow, StopRow};
ghost use Rattle.sheet.specs.Inside.{place_of, Marked, Tells};

use tables::{ACTION, ACTION_END, FROM, STATE, TO};

// Whether one of the first `count` moves has this from, action and to; leaves a mark at their place.
pub(crate) fn is_repeat(
    text: &[u8],
    moves: &[[usize; 5]],
    count: usize,
    seen: &mut [u64; 128],
    from: usize,
    action: &[u8],
    to: usize,
) -> bool
    ensures { (ms : List Move) → Rows (λ i m. MoveRow text.now (get_or moves.now i List.[]) m) (min count (length moves.now)) ms → Marked seen.old ms → Tells seen.new from action.now to ms result }
{
    let h = place_of(from, action, to);
    let w = h / 64;
    let b = h % 64;
    let word = seen[w];
    if (word >> b) % 2 == 0 {
        seen[w] = word | (1 << b);
        return false;
    }
    has_move(text, moves, count, from, action, to)
}

// Where a triple has its mark: its states and the last three bytes of its action count.
fn place_of(from: usize, action: &[u8], to: usize) -> usize
    ensures { result ≡ place_of from action.now to }
{
    let low = action.len() - action.len().min(3);
    let mut h = from % 64 * 128 + to % 64;
    for i in (low..action.len()).rev() {
        h = mix(h, action[i]);
    }
    h
}

fn mix(h: usize, b: u8) -> usize
    requires { h < 8192 }
    ensures { result ≡ (h * 37 + b) % 8192 }
{
    (h * 37 + b as usize) % 8192
}

// Whether a move's row has this from, action and to.
fn is_move(text: &[u8], row: [usize; 5], from: usize, action: &[u8], to: usize) -> bool
    ensures { (m : Move) → MoveRow text.now row m → result ≡ is_move from action.now to m }
{
    from == row[FROM]
        && to == row[TO]
        && fields::same_bytes(fields::piece(text, row[ACTION], row[ACTION_END]), action)
}

// Whether one of the first `count` moves has this from, action and to.
fn has_move(
    text: &[u8],
    moves: &[[usize; 5]],
    count: usize,
    from: usize,
    action: &[u8],
    to: usize,
) -> bool
    ensures { (ms : List Move) → Rows (λ i m. MoveRow text.now (get_or moves.now i List.[]) m) (min count (length moves.now)) ms → result ≡ moved from action.now to ms }
{
    for i in (0..count.min(moves.len())).rev() {
        if is_move(text, moves[i], from, action, to) {
            return true;
        }
    }
    false
}

// Whether one of the first `count` stops is for this state.
pub(crate) fn has_stop(stops: &[[usize; 2]], count: usize, state: usize) -> bool
    ensures { (ds : List Stop) → Rows (λ i d. StopRow (get_or stops.now i List.[]) d) (min count (length stops.now)) ds → result ≡ stopped state ds }
{
    for i in (0..count.min(stops.len())).rev() {
        if state == stops[i][STATE] {
            return true;
        }
    }
    false
}
