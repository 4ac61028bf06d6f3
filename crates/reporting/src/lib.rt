// The report of a sheet: one row for each move, named state and stop line, and the depth. It is laid from
// tables that stand for the sheet, read or made; where they come from is not asked here.
#![tactic(auto)]

mod row;

ghost use Rattle.std.specs.Prelude.{◌≡◌, Bool, ◌||◌, List, ◌++◌, ℕ, suc, ◌%◌, ◌≤◌, ◌<◌, min, max, eqb, length, get_or};
ghost use Rattle.text.specs.Text.{Wrote};
ghost use Rattle.products.specs.Sets.{bit, has, one_if};
ghost use Rattle.products.specs.Orders.{Before};
ghost use Rattle.sheet.specs.Sheet.{Sheet};
ghost use Rattle.verdicts.specs.Verdicts.{Named};
ghost use Rattle.verdicts.specs.Judging.{MoveSets, StateSets, StopSets, guards_at, row_at};
ghost use Rattle.family.specs.Ways.{Depth};
ghost use Rattle.reporting.specs.Report.{IsReport, MoveRows, StateRows, StopRows};
ghost use Rattle.reporting.specs.Laying.{ReadyOn, OutwardOn};
ghost use Rattle.reporting.specs.Inside.{Marked, ToldOn};

use desk::Desk;
use products::Order;
use row::{put_depth, put_move, put_state, put_stop};
use tables::{FROM, LINE, STATE, TO};
use verdicts::{Judged, StateVerdict, StopVerdict, Verdict};

// Lays the report of the sheet that the tables stand for from the room's start, with the first products in the
// order; the answer is its length.
pub fn put_report(order: Order, room: &mut [u8], desk: &Desk) -> usize
    ensures { (r : Sheet) → ReadyOn desk.now r → OutwardOn desk.now → Depth r desk.now.depth → (vs : List ℕ) × IsReport (Before order) r vs × Wrote room.old 0 vs room.new result }
{
    let a = put_moves(order, room, 0, desk);
    let b = put_states(order, room, a, desk);
    let c = put_stops(order, room, b, desk);
    put_depth(room, c, desk.depth)
}

// The rows of all moves.
fn put_moves(order: Order, room: &mut [u8], at: usize, desk: &Desk) -> usize
    ensures { (r : Sheet) → ReadyOn desk.now r → (vs : List ℕ) × MoveRows (Before order) r r.moves vs × Wrote room.old at vs room.new result }
{
    let n = desk
        .sheet
        .counts
        .moves
        .min(256)
        .min(desk.sheet.moves.len())
        .min(desk.sheet.move_guards.len());
    let mut next = at;
    for i in 0..n {
        next = put_move(room, next, move_at(order, i, desk));
    }
    next
}

// The move of row i, judged. A state that has no row in `sets` is reached by nobody.
fn move_at(order: Order, i: usize, desk: &Desk) -> Judged
    requires { (i < length desk.now.sheet.moves.now) × (i < length desk.now.sheet.move_guards.now) }
    ensures { (result.line ≡ get_or (get_or desk.now.sheet.moves.now i List.[]) 0 0) × MoveSets (Before order) (get_or desk.now.sets.now (get_or (get_or desk.now.sheet.moves.now i List.[]) 1 0 % 64) List.[]) (get_or desk.now.sheet.move_guards.now i List.[]) result.verdict }
{
    let row = desk.sheet.moves[i];
    let from = row[FROM] % 64;
    if desk.sets.len() <= from {
        return Judged {
            line: row[LINE],
            verdict: Verdict::Dead(None),
        };
    }
    let guard = &desk.sheet.move_guards[i];
    verdicts::judge_move(order, row[LINE], &desk.sets[from], guard)
}

// The rows of all named states, rising.
fn put_states(order: Order, room: &mut [u8], at: usize, desk: &Desk) -> usize
    ensures { (r : Sheet) → ReadyOn desk.now r → OutwardOn desk.now → (vs : List ℕ) × StateRows (Before order) r 64 vs × Wrote room.old at vs room.new result }
{
    let leaves = verdicts::states_at(desk.sheet.counts.moves, desk.sheet.moves, FROM);
    let ends = verdicts::states_at(desk.sheet.counts.moves, desk.sheet.moves, TO);
    let stopped = verdicts::stopped_states(desk.sheet.counts.stops, desk.sheet.stops);
    let named = named_word(desk.sheet.counts.start, leaves, ends, stopped);
    // Behind the highest bit no state is named.
    let behind = 64 - named.leading_zeros() as usize;
    let mut next = at;
    for q in 0..behind {
        if (named >> q) % 2 == 1 {
            next = put_state_at(order, room, next, q, desk, leaves, stopped);
        }
    }
    next
}

// Bit q is 1 if a start, move or stop line names the state q.
fn named_word(start: usize, leaves: u64, ends: u64, stopped: u64) -> u64
    ensures { (a b d : ℕ → Bool) → Marked leaves a → Marked ends b → Marked stopped d → Marked result (λ q. eqb q (start % 64) || (a q || (b q || d q))) }
{
    leaves | ends | stopped | (1 << (start % 64))
}

// The row of the state q, which a line names. A state that has no row in `sets` is reached by nobody.
fn put_state_at(
    order: Order,
    room: &mut [u8],
    at: usize,
    q: usize,
    desk: &Desk,
    leaves: u64,
    stopped: u64,
) -> usize
    requires { q < 64 }
    ensures { (r : Sheet) → ReadyOn desk.now r → ToldOn desk.now leaves stopped → Named r q → (vs : List ℕ) × ((before : List ℕ) → StateRows (Before order) r q before → StateRows (Before order) r (suc q) (before ++ vs)) × Wrote room.old at vs room.new result }
{
    if desk.sets.len() <= q {
        return put_state(room, at, q, StateVerdict::Unreached, 0);
    }
    let v = state_at(order, q, desk, leaves, stopped);
    put_state(room, at, q, v, members::count(desk.sets[q]))
}

// The state q, judged. Excused are the products in which a move line of it holds, and those in which a stop
// line does, if one is for it.
fn state_at(order: Order, q: usize, desk: &Desk, leaves: u64, stopped: u64) -> StateVerdict
    requires { (q < 64) × (q < length desk.now.sets.now) }
    ensures { (n : ℕ) → n ≡ min (min (min desk.now.sheet.counts.stops 64) (length desk.now.sheet.stops.now)) (length desk.now.sheet.stop_guards.now) → bit stopped q ≡ one_if (row_at desk.now.sheet.stops.now 1 q n) → (excused : List ℕ) × ((p : ℕ) → p < 1024 → has excused p ≡ max (has (get_or desk.now.out.now q List.[]) p) (guards_at desk.now.sheet.stops.now desk.now.sheet.stop_guards.now q p n)) × StateSets (Before order) (get_or desk.now.sets.now q List.[]) (eqb (bit leaves q) 1) excused result }
{
    let leaving = (leaves >> q) % 2 == 1;
    if (stopped >> q) % 2 == 0 {
        return verdicts::judge_state(order, &desk.sets[q], leaving, &desk.out[q]);
    }
    let declared = verdicts::declared_at(
        q,
        desk.sheet.counts.stops,
        desk.sheet.stops,
        desk.sheet.stop_guards,
    );
    let excused = products::either(desk.out[q], declared);
    verdicts::judge_state(order, &desk.sets[q], leaving, &excused)
}

// The rows of all stop lines.
fn put_stops(order: Order, room: &mut [u8], at: usize, desk: &Desk) -> usize
    ensures { (r : Sheet) → ReadyOn desk.now r → OutwardOn desk.now → (vs : List ℕ) × StopRows (Before order) r r.stops vs × Wrote room.old at vs room.new result }
{
    let n = desk
        .sheet
        .counts
        .stops
        .min(64)
        .min(desk.sheet.stops.len())
        .min(desk.sheet.stop_guards.len());
    let mut next = at;
    for i in 0..n {
        let line = desk.sheet.stops[i][LINE];
        next = put_stop(room, next, line, stop_at(order, i, desk));
    }
    next
}

// The stop line of row i, judged. A state that has no row in `sets` is reached by nobody.
fn stop_at(order: Order, i: usize, desk: &Desk) -> StopVerdict
    requires { (i < length desk.now.sheet.stops.now) × (i < length desk.now.sheet.stop_guards.now) }
    ensures { StopSets (Before order) (get_or desk.now.sets.now (get_or (get_or desk.now.sheet.stops.now i List.[]) 1 0 % 64) List.[]) (get_or desk.now.sheet.stop_guards.now i List.[]) (get_or desk.now.out.now (get_or (get_or desk.now.sheet.stops.now i List.[]) 1 0 % 64) List.[]) result }
{
    let state = desk.sheet.stops[i][STATE] % 64;
    if desk.sets.len() <= state {
        return StopVerdict::Idle;
    }
    verdicts::judge_stop(
        order,
        desk.sets[state],
        desk.sheet.stop_guards[i],
        desk.out[state],
    )
}
