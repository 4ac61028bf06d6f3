// Lays the report of the sheet on standard input, then the one by number and then its clean form into rooms
// of every size from 0 to eight bytes more than it needs, each with marked bytes around it, and writes for
// each room a line with its size and the answer, and then the room with the marks around it. Then report and
// clean form at once, in pairs of rooms. Nothing is judged here: the walker says what should be written.
#![tactic(auto)]

ghost use Rattle.std.specs.Bool.{OnTrue};
ghost use Rattle.std.specs.Prelude.{◌+◌, ◌≤◌, length};

mod pairs;

use console::Streams;
use refusals::Refusal;
use tables::MOST_BYTES;

// Each text has an area of this size for its rooms and their marks.
const AREA: usize = 8192;

const MARK: u8 = 165;

const AROUND: usize = 32;

const BOTH_SIDES: usize = 2 * AROUND;

// How many bytes the largest room is longer than the text.
const MORE: usize = 8;

// More bytes than any line has that is written here.
const LINE_ROOM: usize = 64;

fn main(rt: HostRuntime) {
    let streams = Streams::new(&rt);
    let mut buf = [0u8; MOST_BYTES + 1];
    let Ok(n) = console::read_input(&streams, &mut buf) else {
        return;
    };
    let mut area = [0u8; AREA];
    let mut clean_area = [0u8; AREA];
    show_all(
        &streams,
        console::first(&buf, n),
        &mut area,
        &mut clean_area,
    );
}

// Every room in turn, as long as all can be written; answers whether it was.
fn show_all(streams: &Streams, text: &[u8], area: &mut [u8], clean_area: &mut [u8]) -> bool {
    rooms(streams, text, area, calls::report)
        && rooms(streams, text, area, calls::report_by_number)
        && rooms(streams, text, clean_area, calls::clean)
        && pairs::pairs(streams, text, area, clean_area)
}

// The text that the call lays, in rooms of each size in turn; answers whether all was written.
fn rooms<C>(streams: &Streams, text: &[u8], area: &mut [u8], call: C) -> bool
where
    C: Fn(&[u8], &mut [u8]) -> Result<usize, Refusal>,
    requires { C.IsAlwaysCallable call }
{
    for size in 0..sizes(call(text, area)) {
        if !room(streams, text, area, size, &call) {
            return false;
        }
    }
    true
}

// How many sizes there are: from 0 to eight more than the length; only 0 where the sheet is refused.
fn sizes(answer: Result<usize, Refusal>) -> usize {
    answer.map_or(1, |n| n.min(AREA) + MORE + 1)
}

// A room of `size` bytes with 32 marked bytes on each side; none where the area is too small for it.
// Answers whether all was written.
fn room<C>(streams: &Streams, text: &[u8], area: &mut [u8], size: usize, call: &C) -> bool
where
    C: Fn(&[u8], &mut [u8]) -> Result<usize, Refusal>,
    requires { C.IsAlwaysCallable call.now }
{
    if !has_place(area, size) {
        return true;
    }
    let marked = &mut area[..size + BOTH_SIDES];
    marked.fill(MARK);
    let answer = call(text, &mut marked[AROUND..AROUND + size]).map(|n| [n]);
    show_answer(streams, [size], answer) && show_room(streams, marked)
}

// Whether the area has place for a room of `size` bytes and its marks.
fn has_place(area: &[u8], size: usize) -> bool
    ensures { OnTrue result (size + 64 ≤ length area.now) }
{
    BOTH_SIDES <= area.len() && size <= area.len() - BOTH_SIDES
}

// A line with the sizes of the rooms and the answer.
fn show_answer<const N: usize>(
    streams: &Streams,
    sizes: [usize; N],
    answer: Result<[usize; N], Refusal>,
) -> bool {
    let mut line = [0u8; LINE_ROOM];
    let mut at = 0;
    for size in sizes {
        at = text::put_number(&mut line, at, size);
        at = text::put(&mut line, at, b'\t');
    }
    let end = match answer {
        Ok(lengths) => put_done(&mut line, at, &lengths),
        Err(q) => refusals::put_refusal(&mut line, at, q),
    };
    console::print(streams, console::first(&line, end))
}

// Lays `done` and the lengths, with byte 10 at the end; answers the next place.
fn put_done(line: &mut [u8], at: usize, lengths: &[usize]) -> usize {
    let mut next = text::put_bytes(line, at, b"done");
    for &n in lengths {
        next = text::put(line, next, b'\t');
        next = text::put_number(line, next, n);
    }
    text::put(line, next, b'\n')
}

fn show_room(streams: &Streams, room: &[u8]) -> bool {
    console::print(streams, room) && console::print(streams, b"\n")
}
