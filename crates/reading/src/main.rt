// Reads one sheet from standard input and writes whether it is accepted, or the refusal: a test of the
// reader alone.
#![tactic(auto)]

use console::Streams;
use tables::MOST_BYTES;

// Not `console::answer_input`, whose room would take 64 KB more of the stack.
fn main(rt: HostRuntime) {
    let streams = Streams::new(&rt);
    let mut buf = [0u8; MOST_BYTES + 1];
    let Ok(n) = console::read_input(&streams, &mut buf) else {
        return;
    };
    let mut room = [0u8; 64];
    let m = answer(console::first(&buf, n), &mut room);
    console::print(&streams, console::first(&room, m));
}

// Lays `accepted` into the room, or the line of the refusal; answers how many bytes that is.
fn answer(text: &[u8], room: &mut [u8]) -> usize {
    let mut names = [[0usize; 2]; 10];
    let mut valid = [0u64; 16];
    let mut moves = [[0usize; 5]; 256];
    let mut move_guards = [[0u64; 16]; 256];
    let mut stops = [[0usize; 2]; 64];
    let mut stop_guards = [[0u64; 16]; 64];
    let r = sheet::read_sheet(
        text,
        &mut names,
        &mut valid,
        &mut moves,
        &mut move_guards,
        &mut stops,
        &mut stop_guards,
    );
    match r {
        Ok(_) => text::put_bytes(room, 0, b"accepted\n"),
        Err(refusal) => refusals::put_refusal(room, 0, refusal),
    }
}
