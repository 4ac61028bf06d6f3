// The box that runs from its sheet. Set up with a sheet and a product it stands at the start; an action's
// name takes it to the ends of that name's moves which the product makes from where it stands, and it keeps
// its place from one action to the next. Of a sheet it knows what the reader promises, and nothing else.
#![tactic(auto)]

ghost use Rattle.std.specs.Prelude.{◌≡◌, min, replicate};
ghost use Rattle.text.specs.Text.{Wrote};
ghost use Rattle.running.specs.Promise.{SetsUp, Acts};
ghost use Rattle.running.specs.Shown.{place_text, state_text, Told};
ghost use Rattle.running.specs.Inside.{Starts, Steps, Looks, RowLeads, Added, Gathered, leads_at};

use refusals::{Reason, Refusal, refuse};
use sheet::Counts;
use tables::{ACTION, ACTION_END, FROM, MOST_MOVES, MOST_STOPS, TO};

// A box: its product, and its place, the set of states in which it may be, state q as bit q.
#[derive(Clone, Copy)]
pub struct RunningBox {
    pub product: usize,
    pub place: u64,
}

// A box that was not set up: its place is empty.
const NOWHERE: RunningBox = RunningBox {
    product: 0,
    place: 0,
};

// A call's answer, and the box after it.
#[derive(Clone, Copy)]
pub struct Called {
    pub answer: Result<(), Refusal>,
    pub after: RunningBox,
}

// Sets a box up with the sheet `text` and a product. Refused as the sheet is, then by 12, and then the box has
// product 0 and an empty place.
pub fn set_up(text: &[u8], product: usize) -> Called
    ensures { SetsUp text.now product result.answer result.after }
{
    match start(text, product) {
        Ok(after) => Called {
            answer: Ok(()),
            after,
        },
        Err(refusal) => Called {
            answer: Err(refusal),
            after: NOWHERE,
        },
    }
}

// The box that is set up.
fn start(text: &[u8], product: usize) -> Result<RunningBox, Refusal>
    ensures { Starts text.now product result }
{
    let mut valid = [0u64; 16];
    let mut moves = [[0usize; 5]; MOST_MOVES];
    let mut guards = [[0u64; 16]; MOST_MOVES];
    let c = look(text, &mut valid, &mut moves, &mut guards)?;
    if !members::has(&valid, product) {
        return refuse(Reason::InvalidProduct, 0, 0);
    }
    let place = states::with_state(0, c.start);
    Ok(RunningBox { product, place })
}

// Takes the box one action further by the sheet `text`. Refused as the sheet is, then by 12, then by 19, and
// then the box is left as it was.
pub fn act(text: &[u8], b: RunningBox, action: &[u8]) -> Called
    ensures { Acts text.now b action.now result.answer result.after }
{
    match step(text, b, action) {
        Ok(after) => Called {
            answer: Ok(()),
            after,
        },
        Err(refusal) => Called {
            answer: Err(refusal),
            after: b,
        },
    }
}

// The box one action further.
fn step(text: &[u8], b: RunningBox, action: &[u8]) -> Result<RunningBox, Refusal>
    ensures { Steps text.now b action.now result }
{
    let mut valid = [0u64; 16];
    let mut moves = [[0usize; 5]; MOST_MOVES];
    let mut guards = [[0u64; 16]; MOST_MOVES];
    let c = look(text, &mut valid, &mut moves, &mut guards)?;
    let allowed = members::has(&valid, b.product);
    let place = ends(text, c.moves, &moves, &guards, b, action);
    if !allowed {
        return refuse(Reason::InvalidProduct, 0, 0);
    }
    if place == 0 {
        return refuse(Reason::NoMove, 0, 0);
    }
    Ok(RunningBox { place, ..b })
}

// The same for a box that is lent.
pub fn act_on(text: &[u8], b: &mut RunningBox, action: &[u8]) -> Result<(), Refusal>
    ensures { Acts text.now b.old action.now result b.new }
{
    *b = step(text, *b, action)?;
    Ok(())
}

// Lends a box to `act_on` and hands it back: who calls this needs no reference to a box.
pub fn act_held(text: &[u8], b: RunningBox, action: &[u8]) -> Called
    ensures { Acts text.now b action.now result.answer result.after }
{
    let mut held = b;
    let answer = act_on(text, &mut held, action);
    Called {
        answer,
        after: held,
    }
}

// Lays the line that tells of a call: `place` with the states of the place, rising, or the refusal. Answers
// how many bytes it has.
pub fn put_called(x: Called, room: &mut [u8]) -> usize
    ensures { Told room.old room.new result x }
{
    match x.answer {
        Ok(()) => put_place(room, 0, x.after.place),
        Err(q) => refusals::put_refusal(room, 0, q),
    }
}

// Reads the sheet into blank tables: its valid products, and its moves with their guards. The other tables are
// needed by the reader alone.
fn look(
    text: &[u8],
    valid: &mut [u64; 16],
    moves: &mut [[usize; 5]; 256],
    guards: &mut [[u64; 16]; 256],
) -> Result<Counts, Refusal>
    requires valid_blank { valid.old ≡ replicate 16 0 }
    requires moves_blank { moves.old ≡ replicate 256 (replicate 5 0) }
    requires guards_blank { guards.old ≡ replicate 256 (replicate 16 0) }
    ensures { Looks text.now valid.new moves.new guards.new result }
{
    let mut names = [[0usize; 2]; 10];
    let mut stops = [[0usize; 2]; MOST_STOPS];
    let mut stop_guards = [[0u64; 16]; MOST_STOPS];
    sheet::read_blank(
        text,
        &mut names,
        valid,
        moves,
        guards,
        &mut stops,
        &mut stop_guards,
    )
}

// The states to which the first `count` moves lead the box by the action's name.
fn ends(
    text: &[u8],
    count: usize,
    moves: &[[usize; 5]; 256],
    guards: &[[u64; 16]; 256],
    b: RunningBox,
    action: &[u8],
) -> u64
    ensures { Gathered (leads_at text.now moves.now guards.now b action.now) (min count 256) result }
{
    let n = count.min(MOST_MOVES);
    let mut place = 0u64;
    for i in 0..n {
        place = with_row(text, moves[i], &guards[i], b, action, place);
    }
    place
}

// The set with the state to which this move leads the box, if it leads it anywhere.
fn with_row(
    text: &[u8],
    row: [usize; 5],
    guard: &[u64; 16],
    b: RunningBox,
    action: &[u8],
    set: u64,
) -> u64
    ensures { Added set (RowLeads text.now row guard.now b action.now) result }
{
    if !states::has(b.place, row[FROM]) {
        return set;
    }
    if !members::has(guard, b.product) {
        return set;
    }
    let name = fields::piece(text, row[ACTION], row[ACTION_END]);
    if !fields::same_bytes(name, action) {
        return set;
    }
    states::with_state(set, row[TO])
}

// `place`, and the states of the place, rising.
fn put_place(room: &mut [u8], at: usize, place: u64) -> usize
    ensures { Wrote room.old at (place_text place) room.new result }
{
    let mut next = text::put_bytes(room, at, b"place");
    for q in 0..64 {
        next = put_state(room, next, place, q);
    }
    text::put(room, next, b'\n')
}

// A tab and the state, if the place has it.
fn put_state(room: &mut [u8], at: usize, place: u64, q: usize) -> usize
    ensures { Wrote room.old at (state_text place q) room.new result }
{
    if !states::has(place, q) {
        return at;
    }
    let a = text::put(room, at, b'\t');
    text::put_number(room, a, q)
}
