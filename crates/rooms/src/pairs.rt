// Both texts of the sheet at once, in pairs of rooms: each room in turn of no bytes, of one byte less than
// its text, of as many and of one more. For each pair a line with both sizes and the answer is written,
// and then each room with the marks around it.
ghost use Rattle.std.specs.Prelude.{◌≤◌};

use super::{AREA, AROUND, BOTH_SIDES, MARK, has_place, show_answer, show_room};
use console::Streams;
use refusals::Refusal;

// The larger of the two sizes where there is no text.
const WITHOUT_TEXT: usize = 40;

// Answers whether all was written.
pub(crate) fn pairs(
    streams: &Streams,
    text: &[u8],
    area: &mut [u8],
    clean_area: &mut [u8],
) -> bool {
    let sizes = sizes_of(calls::report(text, area));
    let clean_sizes = sizes_of(calls::clean(text, clean_area));
    for &size in sizes.iter().flatten() {
        if !row(streams, text, area, clean_area, size, &clean_sizes) {
            return false;
        }
    }
    true
}

// One size of the report's room with each of the clean sheet's; answers whether all was written.
fn row(
    streams: &Streams,
    text: &[u8],
    area: &mut [u8],
    clean_area: &mut [u8],
    size: usize,
    clean_sizes: &[Option<usize>; 4],
) -> bool {
    for &clean_size in clean_sizes.iter().flatten() {
        if !pair(streams, text, area, clean_area, size, clean_size) {
            return false;
        }
    }
    true
}

// The sizes of a text's rooms, by the answer of the call that lays this text alone.
fn sizes_of(answer: Result<usize, Refusal>) -> [Option<usize>; 4] {
    match answer {
        Ok(n) => sizes_around(n.min(AREA)),
        Err(_) => [Some(0), Some(WITHOUT_TEXT), None, None],
    }
}

// For a length n: 0, n - 1, n and n + 1, each once.
fn sizes_around(n: usize) -> [Option<usize>; 4]
    requires { n ≤ 8192 }
{
    match n {
        0 => [Some(0), None, None, Some(1)],
        1 => [Some(0), None, Some(1), Some(2)],
        _ => [Some(0), Some(n - 1), Some(n), Some(n + 1)],
    }
}

// A pair of rooms with 32 marked bytes on each side of each; none where an area is too small for its room.
// Answers whether all was written.
fn pair(
    streams: &Streams,
    text: &[u8],
    area: &mut [u8],
    clean_area: &mut [u8],
    size: usize,
    clean_size: usize,
) -> bool {
    if !has_place(area, size) || !has_place(clean_area, clean_size) {
        return true;
    }
    let marked = &mut area[..size + BOTH_SIDES];
    let clean_marked = &mut clean_area[..clean_size + BOTH_SIDES];
    marked.fill(MARK);
    clean_marked.fill(MARK);
    let answer = calls::report_and_clean(
        text,
        &mut marked[AROUND..AROUND + size],
        &mut clean_marked[AROUND..AROUND + clean_size],
    );
    show_answer(streams, [size, clean_size], answer.map(|(n, m)| [n, m]))
        && show_room(streams, marked)
        && show_room(streams, clean_marked)
}
