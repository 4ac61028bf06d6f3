// Reading a sheet: its bytes to tables that stand for it, or the refusal that the table of refusals
// gives. The tables are lent and hold numbers only; names and actions are places in the sheet.
#![tactic(auto)]

mod line;
mod row;

ghost use Rattle.std.specs.Prelude.{◌≡◌, List, ℕ, ◌+◌, ◌-◌, ◌*◌, ◌≤◌, ◌<◌, min, length, get_or, replicate};
ghost use Rattle.refusals.specs.Refusal.{refusal};
ghost use Rattle.fields.specs.Cutting.{lines};
ghost use Rattle.sheet.specs.Reading.{State, ended, read_lines, nothing};
ghost use Rattle.sheet.specs.Tables.{tables, blank_tables, ReadsSheet};
ghost use Rattle.sheet.specs.Inside.{Stands, Ends};

use line::read_line;
use refusals::{Reason, Refusal, refuse};
use tables::MOST_BYTES;

// What an accepted sheet counts, and its start.
#[derive(Clone, Copy)]
pub struct Counts {
    pub features: usize,
    pub start: usize,
    pub moves: usize,
    pub stops: usize,
}

// How far into a sheet the lines so far have come.
#[derive(Clone, Copy, Default)]
pub enum Section {
    #[default]
    BeforeFts,
    AmongFeatures,
    BehindValid,
    BehindStart,
    BehindStop,
}

// What the lines so far say: the section reached, the number of the `valid` line, and the counts.
#[derive(Clone, Copy, Default)]
pub struct Progress {
    pub section: Section,
    pub valid: usize,
    pub features: usize,
    pub start: usize,
    pub moves: usize,
    pub stops: usize,
}

// Where a line stands in the text, from `at` up to `end`, and its number.
#[derive(Clone, Copy)]
pub struct LinePlace {
    pub at: usize,
    pub end: usize,
    pub number: usize,
}

// A move's states.
#[derive(Clone, Copy)]
pub struct Triple {
    pub from: usize,
    pub to: usize,
}

// What a line is, by its word and the section reached.
#[derive(Clone, Copy)]
pub enum LineKind {
    Fts,
    Feature,
    Valid,
    Start,
    Move,
    Stop,
    Misplaced,
}

const LINE_END: u8 = 10;

// Reads the sheet `text` into the six tables: for each feature the name's place and the place behind
// it; the set of valid products; for each move its line, from, the action's place and the place behind
// it, and to, with the guard's set beside; for each stop its line and state, with the guard's set beside.
// Where it refuses, every table is blank.
pub fn read_sheet(
    text: &[u8],
    names: &mut [[usize; 2]; 10],
    valid: &mut [u64; 16],
    moves: &mut [[usize; 5]; 256],
    move_guards: &mut [[u64; 16]; 256],
    stops: &mut [[usize; 2]; 64],
    stop_guards: &mut [[u64; 16]; 64],
) -> Result<Counts, Refusal>
    ensures { ReadsSheet 256 256 64 64 text.now (tables names.new valid.new moves.new move_guards.new stops.new stop_guards.new) result }
{
    clear(names, valid, moves, move_guards, stops, stop_guards);
    read_blank(text, names, valid, moves, move_guards, stops, stop_guards)
}

// The same for tables that are blank already, and that have rows enough for the text: a move line has
// at least 13 bytes and a stop line at least 9, its end counted, and a sheet has at most 256 and 64 of
// them.
pub fn read_blank(
    text: &[u8],
    names: &mut [[usize; 2]; 10],
    valid: &mut [u64; 16],
    moves: &mut [[usize; 5]],
    move_guards: &mut [[u64; 16]],
    stops: &mut [[usize; 2]],
    stop_guards: &mut [[u64; 16]],
) -> Result<Counts, Refusal>
    requires tables_blank { tables names.old valid.old moves.old move_guards.old stops.old stop_guards.old ≡ blank_tables (length moves.old) (length move_guards.old) (length stops.old) (length stop_guards.old) }
    requires tables_suffice { (min (length text.now) 3328 ≤ 13 * length moves.old) × (min (length text.now) 3328 ≤ 13 * length move_guards.old) × (min (length text.now) 576 ≤ 9 * length stops.old) × (min (length text.now) 576 ≤ 9 * length stop_guards.old) }
    ensures { ReadsSheet (length moves.old) (length move_guards.old) (length stops.old) (length stop_guards.old) text.now (tables names.new valid.new moves.new move_guards.new stops.new stop_guards.new) result }
{
    if MOST_BYTES < text.len() {
        return refuse(Reason::SheetTooLong, 0, 0);
    }
    if text.len() == 0 {
        return refuse(Reason::NoLastLineEnd, 0, 0);
    }
    if text[text.len() - 1] != LINE_END {
        return refuse(Reason::NoLastLineEnd, 0, 0);
    }
    let r = read_lines(text, names, valid, moves, move_guards, stops, stop_guards);
    if r.is_err() {
        clear_lent(names, valid, moves, move_guards, stops, stop_guards);
    }
    r
}

// Leaves no row in any table: whole arrays are written at once, where `clear_lent` goes by rows.
fn clear(
    names: &mut [[usize; 2]; 10],
    valid: &mut [u64; 16],
    moves: &mut [[usize; 5]; 256],
    move_guards: &mut [[u64; 16]; 256],
    stops: &mut [[usize; 2]; 64],
    stop_guards: &mut [[u64; 16]; 64],
)
    ensures { tables names.new valid.new moves.new move_guards.new stops.new stop_guards.new ≡ blank_tables 256 256 64 64 }
{
    *names = [[0usize; 2]; 10];
    *valid = [0u64; 16];
    *moves = [[0usize; 5]; 256];
    *move_guards = [[0u64; 16]; 256];
    *stops = [[0usize; 2]; 64];
    *stop_guards = [[0u64; 16]; 64];
}

// The same for tables of any length.
fn clear_lent(
    names: &mut [[usize; 2]; 10],
    valid: &mut [u64; 16],
    moves: &mut [[usize; 5]],
    move_guards: &mut [[u64; 16]],
    stops: &mut [[usize; 2]],
    stop_guards: &mut [[u64; 16]],
)
    ensures { tables names.new valid.new moves.new move_guards.new stops.new stop_guards.new ≡ blank_tables (length moves.new) (length move_guards.new) (length stops.new) (length stop_guards.new) }
{
    *names = [[0usize; 2]; 10];
    *valid = [0u64; 16];
    moves.fill([0usize; 5]);
    move_guards.fill([0u64; 16]);
    stops.fill([0usize; 2]);
    stop_guards.fill([0u64; 16]);
}

// Reads all lines into blank tables; what a refusal leaves in them is not said. `seen` has the marks by
// which repeats are told.
fn read_lines(
    text: &[u8],
    names: &mut [[usize; 2]; 10],
    valid: &mut [u64; 16],
    moves: &mut [[usize; 5]],
    move_guards: &mut [[u64; 16]],
    stops: &mut [[usize; 2]],
    stop_guards: &mut [[u64; 16]],
) -> Result<Counts, Refusal>
    requires blank_and_ended { (tables names.old valid.old moves.old move_guards.old stops.old stop_guards.old ≡ blank_tables (length moves.old) (length move_guards.old) (length stops.old) (length stop_guards.old)) × (get_or text.now (length text.now - 1) 0 ≡ 10) }
    requires tables_suffice { (min (length text.now) 3328 ≤ 13 * length moves.old) × (min (length text.now) 3328 ≤ 13 * length move_guards.old) × (min (length text.now) 576 ≤ 9 * length stops.old) × (min (length text.now) 576 ≤ 9 * length stop_guards.old) }
    ensures { Ends text.now (tables names.new valid.new moves.new move_guards.new stops.new stop_guards.new) result (read_lines 1 0 nothing (lines text.now)) }
{
    let mut seen = [0u64; 128];
    let mut c = Progress::default();
    let mut at = 0;
    let mut number = 1;
    // From line end to line end: an iterator over the lines would not say where each one stands.
    while at < text.len() {
        let end = fields::find(text, LINE_END, at);
        c = read_line(
            text,
            LinePlace { at, end, number },
            c,
            names,
            valid,
            moves,
            move_guards,
            stops,
            stop_guards,
            &mut seen,
        )?;
        at = end + 1;
        number += 1;
    }
    finish(c, number, valid)
}

// The end of the sheet, behind its last line: `line` is the number of the line that would follow. The
// set of valid products is cut down to the products of this sheet's features.
fn finish(c: Progress, line: usize, valid: &mut [u64; 16]) -> Result<Counts, Refusal>
    ensures { (s : List ℕ) (n m g t h : List (List ℕ)) (seen : List ℕ) (st : State) → Stands s (tables n valid.old m g t h) seen c st → Ends s (tables n valid.new m g t h) result (ended line st) }
{
    let (Section::BehindStart | Section::BehindStop) = c.section else {
        return refuse(Reason::BadLine, line, 0);
    };
    let held = *valid;
    let allowed = products::both(held, products::all(c.features));
    if members::is_empty(allowed) {
        return refuse(Reason::NoValidProduct, c.valid, 0);
    }
    *valid = allowed;
    Ok(Counts {
        features: c.features,
        start: c.start,
        moves: c.moves,
        stops: c.stops,
    })
}
