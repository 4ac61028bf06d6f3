// Lays the clean sheet of the sheet that tables stand for: what each valid product does is kept, in a
// normal form. The sheet may be read or made; where tables, sets and order come from is not asked.
#![tactic(auto)]

mod line;

ghost use Rattle.std.specs.Prelude.{List, ℕ, ◌%◌, ◌<◌, ◌≤◌, min, length, get_or};
ghost use Rattle.text.specs.Text.{Wrote};
ghost use Rattle.sheet.specs.Sheet.{Move, Stop, Sheet};
ghost use Rattle.sheet.specs.Tables.{Rows};
ghost use Rattle.sheet.specs.Spelling.{feature_fields, move_row, stop_row};
ghost use Rattle.normal.specs.Clean.{IsClean};
ghost use Rattle.cleaning.specs.Laying.{names_on, rows_on, RowsWithin, OutsOn, PreparedOn};
ghost use Rattle.cleaning.specs.Inside.{lines_of, RowMove, StopAt, StopsBelow};

use desk::Desk;
use line::{put_feature, put_move, put_start, put_stop, put_valid};
use tables::FROM;

// Lays the clean sheet from the room's start, as far as the room goes; the answer is its length. `sets`
// has the products that reach each state; of these `out` has those in which the guard of a move line out
// of it holds. The first `kept` of `order` are the rows of the moves that are not dead, in order.
pub fn put_clean(room: &mut [u8], desk: &Desk, order: &[u8; 256], kept: usize) -> usize
    requires rows_within { RowsWithin order.now kept desk.now.sheet.moves.now desk.now.sheet.move_guards.now desk.now.sets.now }
    requires outs_laid { OutsOn desk.now }
    ensures { (t h : List (List ℕ)) (r : Sheet) → PreparedOn desk.now t h order.now kept r → (vs : List ℕ) × IsClean r vs × Wrote room.old 0 vs room.new result }
{
    let a = text::put_bytes(room, 0, b"fts\t1\n");
    let b = put_features(room, a, desk);
    let c = put_valid(room, b, desk);
    let d = put_start(room, c, desk.sheet.counts.start);
    let e = put_moves(room, d, desk, order, kept);
    put_stops(room, e, desk)
}

// The feature lines, as they are.
fn put_features(room: &mut [u8], at: usize, desk: &Desk) -> usize
    ensures { Wrote room.old at (lines_of feature_fields (names_on desk.now)) room.new result }
{
    let n = desk.sheet.counts.features.min(10);
    let names = desk.sheet.names;
    let mut next = at;
    for row in &names[..n] {
        next = put_feature(room, next, desk.sheet.text, *row);
    }
    next
}

// The lines of the kept moves, in their order; the rows are there in both tables, and their sources
// have sets.
fn put_moves(room: &mut [u8], at: usize, desk: &Desk, order: &[u8; 256], kept: usize) -> usize
    requires { RowsWithin order.now kept desk.now.sheet.moves.now desk.now.sheet.move_guards.now desk.now.sets.now }
    ensures { (ms : List Move) × Rows (λ i m. RowMove desk.now.sheet.text.now (min desk.now.sheet.counts.features 10) desk.now.sheet.moves.now desk.now.sheet.move_guards.now desk.now.sets.now (get_or order.now i 0 % 256) m) (min kept 256) ms × Wrote room.old at (lines_of (move_row (names_on desk.now)) ms) room.new result }
{
    let n = kept.min(256);
    let mut next = at;
    for i in 0..n {
        let k = usize::from(order[i]);
        let row = desk.sheet.moves[k];
        let from = row[FROM] % 64;
        next = put_move(
            room,
            next,
            desk,
            row,
            &desk.sets[from],
            &desk.sheet.move_guards[k],
        );
    }
    next
}

// The stop lines, by state, up to the last state that a move line leaves; without moves there are none.
fn put_stops(room: &mut [u8], at: usize, desk: &Desk) -> usize
    requires { OutsOn desk.now }
    ensures { (ds : List Stop) × StopsBelow (min desk.now.sheet.counts.features 10) desk.now.sheet.moves.now desk.now.sheet.move_guards.now desk.now.sets.now (rows_on desk.now) 64 ds × Wrote room.old at (lines_of (stop_row (names_on desk.now)) ds) room.new result }
{
    let rows = desk.sheet.counts.moves.min(desk.sheet.move_guards.len());
    let leaves = verdicts::states_at(rows, desk.sheet.moves, FROM);
    let mut next = at;
    // Halved and not a range: behind the last state that a move line leaves it ends by itself.
    let mut left = leaves;
    let mut q = 0;
    while left != 0 {
        if left % 2 == 1 {
            next = put_stop_at(room, next, desk, q);
        }
        left = left / 2;
        q += 1;
    }
    next
}

// The stop line of the state q; one that has no row in `sets` is reached by nobody and has none.
fn put_stop_at(room: &mut [u8], at: usize, desk: &Desk, q: usize) -> usize
    requires { q < 64 }
    ensures { (more : List Stop) × StopAt (min desk.now.sheet.counts.features 10) (get_or desk.now.sets.now q List.[]) (get_or desk.now.out.now q List.[]) q more × Wrote room.old at (lines_of (stop_row (names_on desk.now)) more) room.new result }
{
    if desk.sets.len() <= q {
        return at;
    }
    put_stop(room, at, desk, q, &desk.sets[q], &desk.out[q])
}
