// Runs a box: `run PRODUCT SHEET` sets it up with the sheet in the file named and the product, and takes it
// through the action names on standard input, one a line. After the set-up and after each name it writes the
// box's place or the refusal. A refused name leaves the place, a refused set-up ends the run.
#![tactic(auto)]

ghost use Rattle.std.specs.Prelude.{◌≡◌, ◌≤◌, length, take, IsErr};
ghost use Rattle.running.specs.Shown.{called_text};
ghost use Rattle.console.specs.Reading.{Held};

use console::{Broken, Streams};
use running::Called;
use std::fs::Files;
use std::io::Read;
use std::{fs, str};
use tables::MOST_BYTES;

// The longest path there can be, and more digits than anybody needs.
const MOST_WORD: usize = 4095;

// One byte more than an action can have: of a longer name so many are enough to know that no move has it.
const NAME_ROOM: usize = 25;

// No line that is written here is longer.
const LINE_ROOM: usize = 198;

fn main(rt: HostRuntime) {
    let streams = Streams::new(&rt);
    let mut word = [0u8; MOST_WORD];
    let n = console::word(&rt, 1, &mut word);
    let Some(product) = console::number(console::first(&word, n)) else {
        tell_usage(&streams);
        return;
    };
    if !console::has_word(&rt, 2) || console::has_word(&rt, 3) {
        tell_usage(&streams);
        return;
    }
    let m = console::word(&rt, 2, &mut word);
    run_from(&rt, &streams, console::first(&word, m), product);
}

fn tell_usage(streams: &Streams) {
    console::tell(
        streams,
        b"run wants a product, a decimal number, and the name of a sheet's file\n",
    );
}

// Runs a box with the sheet in the file named.
fn run_from<F: Files>(files: &F, streams: &Streams, path: &[u8], product: usize) {
    let mut buf = [0u8; MOST_BYTES + 1];
    let Ok(n) = read_file(files, streams, path, &mut buf) else {
        return;
    };
    run(streams, console::first(&buf, n), product);
}

// Reads the sheet in the file named.
fn read_file<F: Files>(
    files: &F,
    streams: &Streams,
    path: &[u8],
    buf: &mut [u8],
) -> Result<usize, Broken>
    ensures { Held buf.old buf.new result }
{
    let Some(mut file) = open(files, path) else {
        return tell_unopened(streams);
    };
    console::read_from(streams, &mut file, buf)
}

// A sheet that could not be opened is no empty sheet.
fn tell_unopened(streams: &Streams) -> Result<usize, Broken>
    ensures { IsErr result }
{
    console::tell(streams, b"the sheet could not be opened\n");
    Err(Broken)
}

// Only a name in UTF-8 can be handed to the system, so with any other the sheet cannot be opened.
fn open<F: Files>(files: &F, path: &[u8]) -> Option<F::File> {
    let name = str::from_utf8(path).ok()?;
    fs::open(files, name).ok()
}

// Sets the box up and takes it from name to name, as long as a name comes and all can be written.
fn run(streams: &Streams, text: &[u8], product: usize) {
    let first = running::set_up(text, product);
    if !show(streams, first) || first.answer.is_err() {
        return;
    }
    let mut b = first.after;
    let mut stdin = streams.stdin;
    for _ in 0..u64::MAX {
        let mut name = [0u8; NAME_ROOM];
        let Some(n) = next_name(streams, &mut stdin, &mut name) else {
            return;
        };
        let x = running::act_held(text, b, console::first(&name, n));
        if !show(streams, x) {
            return;
        }
        b = x.after;
    }
}

// Reads the next name, and answers how many bytes it has; none where no name comes any more.
fn next_name<R: Read>(streams: &Streams, reader: &mut R, name: &mut [u8]) -> Option<usize> {
    let line = console::read_line(reader, name);
    if line.is_err() {
        console::tell(streams, b"the names could not be read to their end\n");
    }
    line.ok()?
}

// Writes the line that tells of a call; answers whether all was written.
fn show(streams: &Streams, x: Called) -> bool {
    let mut room = [0u8; LINE_ROOM];
    let n = line_of(x, &mut room);
    console::print(streams, console::first(&room, n))
}

// Lays the line; answers how many bytes it has.
fn line_of(x: Called, room: &mut [u8]) -> usize
    requires { 198 ≤ length room.old }
    ensures { take result room.new ≡ called_text x }
{
    running::put_called(x, room)
}
