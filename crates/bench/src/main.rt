// Runs the report, the one by number, the clean sheet or report and clean sheet of the sheet on standard input
// many times over and writes what the last run gave: `bench report 1000`, `bench report_by_number 1000`,
// `bench clean 1000` or `bench both 1000`. Nothing is measured here.
#![tactic(auto)]

use console::Streams;
use refusals::Refusal;
use tables::MOST_BYTES;

// The call that is run. Its name comes when the program runs, so it is no parameter of the code.
#[derive(Clone, Copy)]
enum Mode {
    Report,
    ByNumber,
    Clean,
    Both,
}

fn main(rt: HostRuntime) {
    let streams = Streams::new(&rt);
    let mut buf = [0u8; MOST_BYTES + 1];
    let Ok(n) = console::read_input(&streams, &mut buf) else {
        return;
    };
    let mut word = [0u8; 16];
    let a = console::word(&rt, 1, &mut word);
    let Some(mode) = mode_of(console::first(&word, a)) else {
        tell_usage(&streams);
        return;
    };
    let b = console::word(&rt, 2, &mut word);
    let turns = console::number(console::first(&word, b)).unwrap_or(0);
    run(&streams, console::first(&buf, n), mode, turns);
}

fn tell_usage(streams: &Streams) {
    console::tell(
        streams,
        b"bench: report, report_by_number, clean or both, and a number\n",
    );
}

// By the word's first letter, and of the reports by the word's length.
fn mode_of(word: &[u8]) -> Option<Mode> {
    match word.first()? {
        b'r' if word.len() == 16 => Some(Mode::ByNumber),
        b'r' => Some(Mode::Report),
        b'c' => Some(Mode::Clean),
        b'b' => Some(Mode::Both),
        _ => None,
    }
}

// So many turns, of which the last is shown.
fn run(streams: &Streams, text: &[u8], mode: Mode, turns: usize) {
    let mut room = [0u8; MOST_BYTES];
    let mut clean_room = [0u8; MOST_BYTES];
    let mut last = None;
    for _ in 0..turns {
        last = Some(turn(text, &mut room, &mut clean_room, mode));
    }
    if let Some(answer) = last {
        show(streams, answer, &mut room, &clean_room);
    }
}

// Nothing but the call, with how many bytes of each room it laid.
fn turn(
    text: &[u8],
    room: &mut [u8],
    clean_room: &mut [u8],
    mode: Mode,
) -> Result<(usize, usize), Refusal> {
    match mode {
        Mode::Report => Ok((calls::report(text, room)?, 0)),
        Mode::ByNumber => Ok((calls::report_by_number(text, room)?, 0)),
        Mode::Clean => Ok((calls::clean(text, room)?, 0)),
        Mode::Both => calls::report_and_clean(text, room, clean_room),
    }
}

// Writes what a turn gave: the text, or both texts, or the line of the refusal. The second text is not
// written where the first could not be.
fn show(
    streams: &Streams,
    answer: Result<(usize, usize), Refusal>,
    room: &mut [u8],
    clean_room: &[u8],
) {
    let (n, m) = match answer {
        Ok(lengths) => lengths,
        Err(q) => (refusals::put_refusal(room, 0, q), 0),
    };
    if console::print(streams, console::first(room, n)) {
        console::print(streams, console::first(clean_room, m));
    }
}
