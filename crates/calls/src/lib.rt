// The calls, and the one desk behind them: it owns the tables of a sheet, reads it, spreads it, and then
// does the job asked for. The calls trust nothing and leave every room as it was where they refuse.
#![tactic(auto)]

ghost use Rattle.std.specs.Prelude.{◌≡◌, List, ℕ, ◌*◌, ◌%◌, ◌≤◌, ◌<◌, min, length, replicate};
ghost use Rattle.refusals.specs.Refusal.{refusal};
ghost use Rattle.products.specs.Orders.{Before};
ghost use Rattle.sheet.specs.Sheet.{Sheet};
ghost use Rattle.sheet.specs.Tables.{tables, blank_tables, StandsFor};
ghost use Rattle.family.specs.Rounds.{to_at, highest_to};
ghost use Rattle.reporting.specs.Report.{IsReport};
ghost use Rattle.normal.specs.Clean.{IsClean};
ghost use Rattle.cleaning.specs.Laying.{OutsOn, RowsWithin, PreparedOn};
ghost use Rattle.calls.specs.Promise.{clean_most, ReportPromise, CleanPromise, BothPromise};
ghost use Rattle.calls.specs.Shown.{Put};
ghost use Rattle.calls.specs.Inside.{first_of, Served, Comes, Long, Longer, Fitting, Filling, BothFilling, Left, StandsOn, LaidOn};

use cleaning::put_clean;
use desk::{Desk, SheetTables};
use ordering::order_moves;
use products::Order;
use refusals::{Reason, Refusal, refuse};
use reporting::put_report;
use sheet::read_blank;
use tables::{MOST_BYTES, MOST_MOVES, MOST_STOPS};

// What is asked for of a sheet: the report in an order, the clean sheet, or both, the report in the default
// order.
#[derive(Clone, Copy)]
pub enum Job {
    Report(Order),
    Clean,
    Both,
}

// A desk whose out sets are right for the products that reach each state.
#[derive(Clone, Copy)]
struct SpreadDesk<'a> {
    desk: Desk<'a>,
    ghost outs: { OutsOn desk },
}

// The sizes of tables: how long a text may be, and how many rows there are for its move and stop lines. A
// move line has at least 13 bytes and a stop line 9. Nothing hangs on the sizes but speed.
const SMALL_TEXT: usize = 169;

const SMALL_MOVES: usize = 13;

const SMALL_STOPS: usize = 19;

const MIDDLE_TEXT: usize = 1170;

const MIDDLE_MOVES: usize = 90;

// Where no product reaches a state from here on, the states' sets have so many rows.
const LOW: usize = 8;

const MOST_STATES: usize = 64;

// No report is longer; that is proved.
const REPORT_MOST: usize = 9545;

// The order of the products that `report` and `report_and_clean` name.
const DEFAULT_ORDER: Order = Order::Plainest;

// Lays the report of the sheet `text` into `room`; each of its products is the plainest.
pub fn report(text: &[u8], room: &mut [u8]) -> Result<usize, Refusal>
    ensures { ReportPromise Order.Plainest text.now room.old room.new result }
{
    report_in(DEFAULT_ORDER, text, room)
}

// The same; each of its products is the one with the smallest number.
pub fn report_by_number(text: &[u8], room: &mut [u8]) -> Result<usize, Refusal>
    ensures { ReportPromise Order.ByNumber text.now room.old room.new result }
{
    report_in(Order::ByNumber, text, room)
}

// Lays the report with the first products in the order.
fn report_in(order: Order, text: &[u8], room: &mut [u8]) -> Result<usize, Refusal>
    ensures { ReportPromise order text.now room.old room.new result }
{
    let mut none = [0u8; 0];
    let a = serve(Job::Report(order), text, room, &mut none);
    first_of(a)
}

// Lays the clean form of the sheet `text` into `room`.
pub fn clean(text: &[u8], room: &mut [u8]) -> Result<usize, Refusal>
    ensures { CleanPromise text.now room.old room.new result }
{
    let mut none = [0u8; 0];
    let a = serve(Job::Clean, text, room, &mut none);
    first_of(a)
}

// Lays both, each into its room; the sheet is read once and spread once.
pub fn report_and_clean(
    text: &[u8],
    room: &mut [u8],
    clean_room: &mut [u8],
) -> Result<(usize, usize), Refusal>
    ensures { BothPromise text.now room.old room.new clean_room.old clean_room.new result }
{
    serve(Job::Both, text, room, clean_room)
}

// Makes a room that a call answered for ready to be printed: where the call refused, the line of the
// refusal is laid over the room's start. Answers how many bytes are to be printed.
pub fn put_answer(a: Result<usize, Refusal>, room: &mut [u8]) -> usize
    ensures { Put room.old room.new result a }
{
    match a {
        Ok(n) => n,
        Err(q) => refusals::put_refusal(room, 0, q),
    }
}

// The answer of a job with one room.
fn first_of(a: Result<(usize, usize), Refusal>) -> Result<usize, Refusal>
    ensures { result ≡ first_of a }
{
    let (n, _) = a?;
    Ok(n)
}

// Does the job by way of tables whose size goes by the text's length. What that length alone refuses needs
// no tables.
fn serve(
    job: Job,
    text: &[u8],
    room: &mut [u8],
    second: &mut [u8],
) -> Result<(usize, usize), Refusal>
    ensures { Served job text.now room.old room.new second.old second.new result }
{
    if MOST_BYTES < text.len() {
        return refuse(Reason::SheetTooLong, 0, 0);
    }
    if text.len() == 0 {
        return refuse(Reason::NoLastLineEnd, 0, 0);
    }
    if text.len() <= SMALL_TEXT {
        return serve_in::<SMALL_MOVES, SMALL_STOPS>(job, text, room, second);
    }
    if text.len() <= MIDDLE_TEXT {
        return serve_in::<MIDDLE_MOVES, MOST_STOPS>(job, text, room, second);
    }
    serve_in::<MOST_MOVES, MOST_STOPS>(job, text, room, second)
}

// The same by way of tables that have so many rows, enough for the text.
fn serve_in<const MOVES: usize, const STOPS: usize>(
    job: Job,
    text: &[u8],
    room: &mut [u8],
    second: &mut [u8],
) -> Result<(usize, usize), Refusal>
    requires { (MOVES ≤ 256) × (STOPS ≤ 64) × (min (length text.now) 3328 ≤ 13 * MOVES) × (min (length text.now) 576 ≤ 9 * STOPS) }
    ensures { Served job text.now room.old room.new second.old second.new result }
{
    let mut moves = [[0usize; 5]; MOVES];
    let mut move_guards = [[0u64; 16]; MOVES];
    let mut stops = [[0usize; 2]; STOPS];
    let mut stop_guards = [[0u64; 16]; STOPS];
    serve_by(
        job,
        text,
        room,
        second,
        &mut moves,
        &mut move_guards,
        &mut stops,
        &mut stop_guards,
    )
}

// The same by way of tables that are blank and have rows enough for the text.
fn serve_by(
    job: Job,
    text: &[u8],
    room: &mut [u8],
    second: &mut [u8],
    moves: &mut [[usize; 5]],
    move_guards: &mut [[u64; 16]],
    stops: &mut [[usize; 2]],
    stop_guards: &mut [[u64; 16]],
) -> Result<(usize, usize), Refusal>
    requires tables_blank { tables (replicate 10 (replicate 2 0)) (replicate 16 0) moves.old move_guards.old stops.old stop_guards.old ≡ blank_tables (length moves.old) (length move_guards.old) (length stops.old) (length stop_guards.old) }
    requires tables_suffice { (min (length text.now) 3328 ≤ 13 * length moves.old) × (min (length text.now) 3328 ≤ 13 * length move_guards.old) × (min (length text.now) 576 ≤ 9 * length stops.old) × (min (length text.now) 576 ≤ 9 * length stop_guards.old) }
    ensures { Served job text.now room.old room.new second.old second.new result }
{
    let mut names = [[0usize; 2]; 10];
    let mut valid = [0u64; 16];
    let counts = read_blank(
        text,
        &mut names,
        &mut valid,
        moves,
        move_guards,
        stops,
        stop_guards,
    )?;
    let sheet = SheetTables {
        text,
        counts,
        names: &names,
        valid: &valid,
        moves,
        move_guards,
        stops,
        stop_guards,
    };
    spread_out(job, room, second, &sheet)
}

// Does the job for the sheet that the tables stand for, read or made.
fn spread_out(
    job: Job,
    room: &mut [u8],
    second: &mut [u8],
    sheet: &SheetTables,
) -> Result<(usize, usize), Refusal>
    ensures { (r : Sheet) → StandsOn sheet.now r → Comes r → Left job r room.old room.new second.old second.new result }
{
    if family::highest(sheet.counts.start, sheet.counts.moves, sheet.moves) < LOW {
        return spread_in::<LOW>(job, room, second, sheet);
    }
    spread_in::<MOST_STATES>(job, room, second, sheet)
}

// The same by way of sets for so many states, among them the start and every one that a move leads to.
fn spread_in<const ROWS: usize>(
    job: Job,
    room: &mut [u8],
    second: &mut [u8],
    sheet: &SheetTables,
) -> Result<(usize, usize), Refusal>
    requires { (ROWS ≤ 64) × (highest_to (sheet.now.counts.start % 64) (to_at sheet.now.moves.now) (min (min sheet.now.counts.moves 256) (length sheet.now.moves.now)) < ROWS) }
    ensures { (r : Sheet) → StandsOn sheet.now r → Comes r → Left job r room.old room.new second.old second.new result }
{
    let c = sheet.counts;
    let mut sets = [[0u64; 16]; ROWS];
    let depth = family::spread_low(
        c.start,
        *sheet.valid,
        c.moves,
        sheet.moves,
        sheet.move_guards,
        &mut sets,
    );
    let mut out = [[0u64; 16]; ROWS];
    verdicts::all_out(c.moves, sheet.moves, sheet.move_guards, &mut out);
    let desk = Desk {
        sheet: *sheet,
        sets: &sets,
        out: &out,
        depth,
    };
    lay(job, room, second, &SpreadDesk { desk })
}

// Lays what is asked for, once all that any job needs stands on the desk.
fn lay(
    job: Job,
    room: &mut [u8],
    second: &mut [u8],
    spread: &SpreadDesk,
) -> Result<(usize, usize), Refusal>
    ensures { (r : Sheet) → LaidOn spread.now.desk r → Left job r room.old room.new second.old second.new result }
{
    match job {
        Job::Report(order) => lay_report(order, room, spread),
        Job::Clean => lay_clean(room, spread),
        Job::Both => lay_both(room, second, spread),
    }
}

// The report, if it fits.
fn lay_report(order: Order, room: &mut [u8], spread: &SpreadDesk) -> Result<(usize, usize), Refusal>
    ensures { (r : Sheet) → LaidOn spread.now.desk r → Filling (IsReport (Before order) r) (length room.old) room.old room.new result }
{
    if !report_fits(order, room, spread) {
        return refuse(Reason::RoomTooShort, 0, 0);
    }
    let n = put_report(order, room, &spread.desk);
    Ok((n, 0))
}

// The clean sheet, if it fits.
fn lay_clean(room: &mut [u8], spread: &SpreadDesk) -> Result<(usize, usize), Refusal>
    ensures { (r : Sheet) → LaidOn spread.now.desk r → Filling (IsClean r) (clean_most room.old) room.old room.new result }
{
    let desk = &spread.desk;
    let mut rows = [0u8; 256];
    let kept = order_moves(
        desk.sheet.text,
        desk.sheet.counts.moves,
        desk.sheet.moves,
        desk.sheet.move_guards,
        desk.sets,
        &mut rows,
    );
    let long = clean_length(spread, &rows, kept);
    if room.len().min(MOST_BYTES) < long {
        return refuse(Reason::RoomTooShort, 0, 0);
    }
    let n = put_clean(room, desk, &rows, kept);
    Ok((n, 0))
}

// Both, if both fit: no room is written before both are known to.
fn lay_both(
    room: &mut [u8],
    second: &mut [u8],
    spread: &SpreadDesk,
) -> Result<(usize, usize), Refusal>
    ensures { (r : Sheet) → LaidOn spread.now.desk r → BothFilling r room.old room.new second.old second.new result }
{
    let order = DEFAULT_ORDER;
    let desk = &spread.desk;
    let mut rows = [0u8; 256];
    let kept = order_moves(
        desk.sheet.text,
        desk.sheet.counts.moves,
        desk.sheet.moves,
        desk.sheet.move_guards,
        desk.sets,
        &mut rows,
    );
    let long = clean_length(spread, &rows, kept);
    if second.len().min(MOST_BYTES) < long {
        let line = longer(room, spread);
        return refuse(Reason::RoomTooShort, line, 0);
    }
    if !report_fits(order, room, spread) {
        return refuse(Reason::RoomTooShort, 1, 0);
    }
    let m = put_clean(second, desk, &rows, kept);
    let n = put_report(order, room, desk);
    Ok((n, m))
}

// Whether the report fits into the room, which stays as it is. What no report exceeds needs no run.
fn report_fits(order: Order, room: &mut [u8], spread: &SpreadDesk) -> bool
    ensures { (room.new ≡ room.old) × ((r : Sheet) → LaidOn spread.now.desk r → Fitting (IsReport (Before order) r) (length room.old) result) }
{
    if REPORT_MOST <= room.len() {
        return true;
    }
    let mut none = [0u8; 0];
    let n = put_report(order, &mut none, &spread.desk);
    n <= room.len()
}

// Of which room 11 speaks where the clean sheet is too long: of the report's, 1, if that is too long as
// well. The room stays as it is.
fn longer(room: &mut [u8], spread: &SpreadDesk) -> usize
    ensures { (room.new ≡ room.old) × ((r : Sheet) → LaidOn spread.now.desk r → Longer (IsReport (Before Order.Plainest) r) (length room.old) result) }
{
    let mut no_room = [0u8; 0];
    let n = put_report(DEFAULT_ORDER, &mut no_room, &spread.desk);
    if room.len() < n {
        return 1;
    }
    2
}

// How long the clean sheet is: a run without a room tells it.
fn clean_length(spread: &SpreadDesk, rows: &[u8; 256], kept: usize) -> usize
    requires { RowsWithin rows.now kept spread.now.desk.sheet.moves.now spread.now.desk.sheet.move_guards.now spread.now.desk.sets.now }
    ensures { (t h : List (List ℕ)) (r : Sheet) → PreparedOn spread.now.desk t h rows.now kept r → Long (IsClean r) result }
{
    let mut none = [0u8; 0];
    put_clean(&mut none, &spread.desk, rows, kept)
}
