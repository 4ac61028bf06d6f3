// One reader for each kind of line. Each checks in the order of the table: fields (3), counts (8), the
// fields from the left (4 to 7), repeats (9); a refusal is passed up unchanged. `rest` is what stands
// behind the line's word and tab, and `at` its place in the text.
ghost use Rattle.std.specs.Prelude.{◌≡◌, List, ℕ, ◌+◌, ◌*◌, ◌^◌, ◌≤◌, ◌<◌, min, length};
ghost use Rattle.refusals.specs.Refusal.{refusal};
ghost use Rattle.fields.specs.Bytes.{part};
ghost use Rattle.fields.specs.Cutting.{fields, as_one, as_two, as_four};
ghost use Rattle.guards.specs.Reading.{names_in, read_whole};
ghost use Rattle.sheet.specs.Reading.{State, kind_in, fts_line, feature_line, valid_line, start_line, guarded_move, move_line, stop_line, read_line};
ghost use Rattle.sheet.specs.Tables.{Tables, tables, Lies};
ghost use Rattle.sheet.specs.Inside.{number_of, Guards, Tripled, Stands, Says};

use super::row::{has_stop, is_repeat};
use super::{LineKind, LinePlace, Progress, Section, Triple};
use guards::FeatureNames;
use refusals::{Reason, Refusal, refuse};
use tables::{MOST_FEATURES, MOST_MOVES, MOST_STOPS};

const TAB: u8 = 9;

// Where the field behind its word and tab begins in a line of each kind, counted from 1.
const BEHIND_FEATURE: usize = 9;

const BEHIND_VALID: usize = 7;

const BEHIND_START: usize = 7;

const BEHIND_MOVE: usize = 6;

const BEHIND_STOP: usize = 6;

// The line at a place, after what c says.
pub(crate) fn read_line(
    text: &[u8],
    place: LinePlace,
    c: Progress,
    names: &mut [[usize; 2]; 10],
    valid: &mut [u64; 16],
    moves: &mut [[usize; 5]],
    move_guards: &mut [[u64; 16]],
    stops: &mut [[usize; 2]],
    stop_guards: &mut [[u64; 16]],
    seen: &mut [u64; 128],
) -> Result<Progress, Refusal>
    requires line_within { (place.at ≤ place.end) × (place.end ≤ length text.now) × (c.moves * 13 + c.stops * 9 ≤ place.at) }
    requires tables_suffice { (min (length text.now) 3328 ≤ 13 * length moves.old) × (min (length text.now) 3328 ≤ 13 * length move_guards.old) × (min (length text.now) 576 ≤ 9 * length stops.old) × (min (length text.now) 576 ≤ 9 * length stop_guards.old) }
    ensures { (st : State) → Stands text.now (tables names.old valid.old moves.old move_guards.old stops.old stop_guards.old) seen.old c st → Says text.now (tables names.new valid.new moves.new move_guards.new stops.new stop_guards.new) seen.new result (read_line place.number place.at st (part text.now place.at place.end)) }
{
    let LinePlace { at, end, number } = place;
    let l = &text[at..end];
    let w = fields::find(l, TAB, 0);
    if l.len() <= w {
        return refuse(Reason::BadLine, number, 0);
    }
    let rest = &l[w + 1..];
    let next = at + w + 1;
    match line_kind(c.section, &l[0..w]) {
        LineKind::Fts => read_fts(rest, number, c),
        LineKind::Feature => read_feature(text, rest, next, number, c, names),
        LineKind::Valid => read_valid(text, rest, number, c, names, valid),
        LineKind::Start => read_start(rest, number, c),
        LineKind::Move => read_move(text, rest, next, number, c, names, moves, move_guards, seen),
        LineKind::Stop => read_stop(text, rest, number, c, names, stops, stop_guards),
        LineKind::Misplaced => refuse(Reason::BadLine, number, 0),
    }
}

// The one place that knows which lines may come in which section.
fn line_kind(section: Section, word: &[u8]) -> LineKind
    ensures { result ≡ kind_in (number_of section) word.now }
{
    match section {
        Section::BeforeFts if fields::same_bytes(word, b"fts") => LineKind::Fts,
        Section::AmongFeatures if fields::same_bytes(word, b"feature") => LineKind::Feature,
        Section::AmongFeatures if fields::same_bytes(word, b"valid") => LineKind::Valid,
        Section::BehindValid if fields::same_bytes(word, b"start") => LineKind::Start,
        Section::BehindStart | Section::BehindStop if fields::same_bytes(word, b"stop") =>
            LineKind::Stop,
        Section::BehindStart if fields::same_bytes(word, b"move") => LineKind::Move,
        _ => LineKind::Misplaced,
    }
}

// The guard of a line, which begins at `place` in it: its set is laid into `set`. It is refused as the
// guard is, with the line and the faulty byte's place in it.
fn read_guard(
    names: &FeatureNames,
    guard: &[u8],
    line: usize,
    place: usize,
    set: &mut [u64; 16],
) -> Result<(), Refusal>
    requires { place + length guard.now < 2 ^ 64 }
    ensures { Guards line place guard.now result set.new (read_whole (names_in names.now) guard.now) }
{
    match guards::read_whole(names, guard, set) {
        Ok(_) => Ok(()),
        Err(fault) => refuse(fault.reason, line, place + fault.at),
    }
}

fn read_fts(rest: &[u8], line: usize, c: Progress) -> Result<Progress, Refusal>
    ensures { (s : List ℕ) (T : Tables) (seen : List ℕ) (st : State) → Stands s T seen c st → Says s T seen result (fts_line line st (as_one (fields rest.now))) }
{
    if !cutting::is_one(rest) {
        return refuse(Reason::BadLine, line, 0);
    }
    if !fields::same_bytes(rest, b"1") {
        return refuse(Reason::BadLine, line, 0);
    }
    Ok(Progress {
        section: Section::AmongFeatures,
        ..c
    })
}

fn read_feature(
    text: &[u8],
    rest: &[u8],
    at: usize,
    line: usize,
    c: Progress,
    names: &mut [[usize; 2]; 10],
) -> Result<Progress, Refusal>
    requires { at + length rest.now ≤ length text.now }
    ensures { (v : List ℕ) (m g t h : List (List ℕ)) (seen : List ℕ) (st : State) → Stands text.now (tables names.old v m g t h) seen c st → Lies text.now rest.now at → Says text.now (tables names.new v m g t h) seen result (feature_line line at st (as_one (fields rest.now))) }
{
    if !cutting::is_one(rest) {
        return refuse(Reason::BadLine, line, 0);
    }
    let k = c.features;
    if MOST_FEATURES <= k {
        return refuse(Reason::TooManyLines, line, 0);
    }
    if !values::is_name(rest) {
        return refuse(Reason::BadField, line, BEHIND_FEATURE);
    }
    let declared = FeatureNames {
        text,
        rows: names,
        count: k,
    };
    if guards::find_name(&declared, rest).is_some() {
        return refuse(Reason::Repeat, line, BEHIND_FEATURE);
    }
    // NAME and NAME_END.
    names[k] = [at, at + rest.len()];
    Ok(Progress {
        section: Section::AmongFeatures,
        features: k + 1,
        ..c
    })
}

fn read_valid(
    text: &[u8],
    rest: &[u8],
    line: usize,
    c: Progress,
    names: &[[usize; 2]; 10],
    valid: &mut [u64; 16],
) -> Result<Progress, Refusal>
    ensures { (m g t h : List (List ℕ)) (seen : List ℕ) (st : State) → Stands text.now (tables names.now valid.old m g t h) seen c st → Says text.now (tables names.now valid.new m g t h) seen result (valid_line line st (as_one (fields rest.now))) }
{
    if !cutting::is_one(rest) {
        return refuse(Reason::BadLine, line, 0);
    }
    let declared = FeatureNames {
        text,
        rows: names,
        count: c.features,
    };
    read_guard(&declared, rest, line, BEHIND_VALID, valid)?;
    Ok(Progress {
        section: Section::BehindValid,
        valid: line,
        ..c
    })
}

fn read_start(rest: &[u8], line: usize, c: Progress) -> Result<Progress, Refusal>
    ensures { (s : List ℕ) (T : Tables) (seen : List ℕ) (st : State) → Stands s T seen c st → Says s T seen result (start_line line st (as_one (fields rest.now))) }
{
    if !cutting::is_one(rest) {
        return refuse(Reason::BadLine, line, 0);
    }
    let Some(start) = values::read_state(rest) else {
        return refuse(Reason::BadField, line, BEHIND_START);
    };
    Ok(Progress {
        section: Section::BehindStart,
        start,
        ..c
    })
}

fn read_move(
    text: &[u8],
    rest: &[u8],
    at: usize,
    line: usize,
    c: Progress,
    names: &[[usize; 2]; 10],
    moves: &mut [[usize; 5]],
    move_guards: &mut [[u64; 16]],
    seen: &mut [u64; 128],
) -> Result<Progress, Refusal>
    requires rest_within { (at + length rest.now ≤ length text.now) × (c.moves * 13 < length text.now) }
    requires tables_suffice { (min (length text.now) 3328 ≤ 13 * length moves.old) × (min (length text.now) 3328 ≤ 13 * length move_guards.old) }
    ensures { (v : List ℕ) (t h : List (List ℕ)) (st : State) → Stands text.now (tables names.now v moves.old move_guards.old t h) seen.old c st → Lies text.now rest.now at → Says text.now (tables names.now v moves.new move_guards.new t h) seen.new result (move_line line at st (as_four (fields rest.now))) }
{
    let Some(tabs) = cutting::cut_four(rest) else {
        return refuse(Reason::BadLine, line, 0);
    };
    if MOST_MOVES <= c.moves {
        return refuse(Reason::TooManyLines, line, 0);
    }
    let b = tabs.first;
    let m = tabs.second;
    let d = tabs.third;
    let action = &rest[b + 1..m];
    let action_place = BEHIND_MOVE + b + 1;
    let to_place = BEHIND_MOVE + m + 1;
    let guard_place = BEHIND_MOVE + d + 1;
    let t = read_triple(
        line,
        &rest[0..b],
        action,
        action_place,
        &rest[m + 1..d],
        to_place,
    )?;
    keep_move(
        text,
        line,
        c,
        t.from,
        action,
        at + b + 1,
        t.to,
        &rest[d + 1..],
        guard_place,
        names,
        moves,
        move_guards,
        seen,
    )
}

// The fields from, action and to of a move, and where the two last begin in their line.
fn read_triple(
    line: usize,
    from: &[u8],
    action: &[u8],
    action_place: usize,
    to: &[u8],
    to_place: usize,
) -> Result<Triple, Refusal>
    ensures { Tripled line action_place to_place from.now action.now to.now result }
{
    let Some(from) = values::read_state(from) else {
        return refuse(Reason::BadField, line, BEHIND_MOVE);
    };
    if !values::is_action(action) {
        return refuse(Reason::BadField, line, action_place);
    }
    let Some(to) = values::read_state(to) else {
        return refuse(Reason::BadField, line, to_place);
    };
    Ok(Triple { from, to })
}

// A move whose states and action are good: its guard, which begins at `guard_place` in the line and is
// laid straight into the next row of guards, then whether it is a repeat, then its row. `action_at` is the
// action's place in the text.
fn keep_move(
    text: &[u8],
    line: usize,
    c: Progress,
    from: usize,
    action: &[u8],
    action_at: usize,
    to: usize,
    guard: &[u8],
    guard_place: usize,
    names: &[[usize; 2]; 10],
    moves: &mut [[usize; 5]],
    move_guards: &mut [[u64; 16]],
    seen: &mut [u64; 128],
) -> Result<Progress, Refusal>
    requires { (action_at + length action.now ≤ length text.now) × (c.moves < 256) × (c.moves < length moves.old) × (c.moves < length move_guards.old) × (guard_place + length guard.now ≤ length text.now + 6) }
    ensures { (v : List ℕ) (t h : List (List ℕ)) (st : State) → Stands text.now (tables names.now v moves.old move_guards.old t h) seen.old c st → Lies text.now action.now action_at → Says text.now (tables names.now v moves.new move_guards.new t h) seen.new result (guarded_move line guard_place st from action.now action_at to guard.now) }
{
    let k = c.moves;
    let declared = FeatureNames {
        text,
        rows: names,
        count: c.features,
    };
    read_guard(&declared, guard, line, guard_place, &mut move_guards[k])?;
    if is_repeat(text, moves, k, seen, from, action, to) {
        return refuse(Reason::Repeat, line, BEHIND_MOVE);
    }
    // LINE, FROM, ACTION, ACTION_END and TO.
    moves[k] = [line, from, action_at, action_at + action.len(), to];
    Ok(Progress {
        section: Section::BehindStart,
        moves: k + 1,
        ..c
    })
}

// A sheet has at most one stop line for each state, so that there is always a row left for a new one.
fn read_stop(
    text: &[u8],
    rest: &[u8],
    line: usize,
    c: Progress,
    names: &[[usize; 2]; 10],
    stops: &mut [[usize; 2]],
    stop_guards: &mut [[u64; 16]],
) -> Result<Progress, Refusal>
    requires stops_within { c.stops * 9 < length text.now }
    requires tables_suffice { (min (length text.now) 576 ≤ 9 * length stops.old) × (min (length text.now) 576 ≤ 9 * length stop_guards.old) }
    ensures { (v : List ℕ) (m g : List (List ℕ)) (seen : List ℕ) (st : State) → Stands text.now (tables names.now v m g stops.old stop_guards.old) seen c st → Says text.now (tables names.now v m g stops.new stop_guards.new) seen result (stop_line line st (as_two (fields rest.now))) }
{
    let Some(b) = cutting::cut_two(rest) else {
        return refuse(Reason::BadLine, line, 0);
    };
    let Some(state) = values::read_state(&rest[0..b]) else {
        return refuse(Reason::BadField, line, BEHIND_STOP);
    };
    let mut set = [0u64; 16];
    let declared = FeatureNames {
        text,
        rows: names,
        count: c.features,
    };
    read_guard(
        &declared,
        &rest[b + 1..],
        line,
        BEHIND_STOP + b + 1,
        &mut set,
    )?;
    let k = c.stops;
    if has_stop(stops, k, state) {
        return refuse(Reason::Repeat, line, BEHIND_STOP);
    }
    if MOST_STOPS <= k {
        return refuse(Reason::Repeat, line, BEHIND_STOP);
    }
    // LINE and STATE.
    stops[k] = [line, state];
    stop_guards[k] = set;
    Ok(Progress {
        section: Section::BehindStop,
        stops: k + 1,
        ..c
    })
}
