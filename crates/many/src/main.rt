// Answers for many sheets in one run, so that thousands can be held against the walker in seconds.
// Standard input has one frame after another: a length in decimal digits, byte 10, and that many
// bytes, a sheet. For each sheet four frames are written: what the programs `report`, `report_by_number` and
// `clean` write for it, and what the call with two rooms gave. That is the line of the refusal; or `done`,
// the report's length and the clean sheet's, tab-parted, byte 10, and then both texts. Nothing is judged here.
#![tactic(auto)]

ghost use Rattle.std.specs.Prelude.{◌≤◌, length};

use console::{Broken, Streams};
use refusals::Refusal;
use std::io::Read;
use tables::MOST_BYTES;

// The most digits that a frame's length is written with.
const MOST_DIGITS: usize = 20;

// How many bytes are passed over at once.
const AT_ONCE: usize = 4096;

// More bytes than any line has that is written here.
const LINE_ROOM: usize = 64;

fn main(rt: HostRuntime) {
    let streams = Streams::new(&rt);
    let mut buf = [0u8; MOST_BYTES + 1];
    let mut room = [0u8; MOST_BYTES];
    let mut clean_room = [0u8; MOST_BYTES];
    answer_all(&streams, &mut buf, &mut room, &mut clean_room);
}

// A proved loop has to end, and nothing says that an input does: so the loop has more turns than any run
// uses up.
fn answer_all(streams: &Streams, buf: &mut [u8], room: &mut [u8], clean_room: &mut [u8]) {
    for _ in 0..u64::MAX {
        if !answer_next(streams, buf, room, clean_room) {
            return;
        }
    }
}

// Reads one frame and writes its four answers; answers whether there was one and all was written. Where the
// sheet is longer than buf it is answered by what fits, as the programs do.
fn answer_next(streams: &Streams, buf: &mut [u8], room: &mut [u8], clean_room: &mut [u8]) -> bool {
    let mut stdin = streams.stdin;
    match read_frame(&mut stdin, buf) {
        Ok(Some(n)) => answer(streams, console::first(buf, n), room, clean_room),
        Ok(None) => false,
        Err(Broken) => {
            console::tell(streams, b"the frames could not be read to their end\n");
            false
        }
    }
}

// Reads one frame, and answers how long its sheet is; none where no frame comes any more. Of a line that is
// too long for a length the first bytes are judged, and the last line may lack its end.
fn read_frame<R: Read>(reader: &mut R, buf: &mut [u8]) -> Result<Option<usize>, Broken> {
    let mut word = [0u8; MOST_DIGITS];
    let Some(n) = console::read_line(reader, &mut word)? else {
        return Ok(None);
    };
    let length = console::number(console::first(&word, n)).ok_or(Broken)?;
    read_sheet(reader, buf, length)?;
    Ok(Some(length))
}

// Reads a sheet of this length. As much as fits is laid at the start of buf, and the rest is passed over.
fn read_sheet<R: Read>(reader: &mut R, buf: &mut [u8], length: usize) -> Result<(), Broken> {
    let most = length.min(buf.len());
    let n = fill(reader, &mut buf[..most]);
    pass(reader, length - n)
}

// Reads until buf is full, the input ends or a read fails; answers how many bytes came. Not `read_exact`: where a read
// gave nothing, what comes after it is passed over.
fn fill<R: Read>(reader: &mut R, buf: &mut [u8]) -> usize
    ensures { result ≤ length buf.new }
{
    let mut done = 0;
    while done < buf.len() {
        let n = reader.read(&mut buf[done..]).unwrap_or(0);
        if n == 0 {
            return done;
        }
        done += n;
    }
    done
}

// Passes over this many bytes. Not `io::copy`, for the same reason.
fn pass<R: Read>(reader: &mut R, length: usize) -> Result<(), Broken> {
    let mut some = [0u8; AT_ONCE];
    let mut left = length;
    while 0 < left {
        let n = fill(reader, &mut some[..left.min(AT_ONCE)]);
        if n == 0 {
            return Err(Broken);
        }
        left -= n;
    }
    Ok(())
}

// Answers whether all was written.
fn answer(streams: &Streams, text: &[u8], room: &mut [u8], clean_room: &mut [u8]) -> bool {
    answer_one(streams, text, room, calls::report)
        && answer_one(streams, text, room, calls::report_by_number)
        && answer_one(streams, text, room, calls::clean)
        && answer_both(streams, text, room, clean_room)
}

// What a call with one room gave, as a frame; answers whether all was written.
fn answer_one<C>(streams: &Streams, text: &[u8], room: &mut [u8], call: C) -> bool
where
    C: FnOnce(&[u8], &mut [u8]) -> Result<usize, Refusal>,
    requires { C.IsAlwaysCallable call }
{
    let answer = call(text, room);
    let n = calls::put_answer(answer, room);
    print_frame(streams, console::first(room, n))
}

// What the call with two rooms gave, as a frame; answers whether all was written.
fn answer_both(streams: &Streams, text: &[u8], room: &mut [u8], clean_room: &mut [u8]) -> bool {
    match calls::report_and_clean(text, room, clean_room) {
        Ok((n, m)) => print_both(
            streams,
            console::first(room, n),
            console::first(clean_room, m),
        ),
        Err(q) => {
            let n = refusals::put_refusal(room, 0, q);
            print_frame(streams, console::first(room, n))
        }
    }
}

// The line with both lengths and then both texts, laid side by side, since one frame holds all of it.
fn print_both(streams: &Streams, report: &[u8], clean: &[u8]) -> bool {
    let mut both = [0u8; 2 * MOST_BYTES + LINE_ROOM];
    let a = text::put_bytes(&mut both, 0, b"done\t");
    let b = text::put_number(&mut both, a, report.len());
    let c = text::put(&mut both, b, b'\t');
    let d = text::put_number(&mut both, c, clean.len());
    let e = text::put(&mut both, d, b'\n');
    let f = text::put_bytes(&mut both, e, report);
    let g = text::put_bytes(&mut both, f, clean);
    print_frame(streams, console::first(&both, g))
}

// The bytes as a frame; answers whether all was written.
fn print_frame(streams: &Streams, bytes: &[u8]) -> bool {
    let mut head = [0u8; LINE_ROOM];
    let a = text::put_number(&mut head, 0, bytes.len());
    let b = text::put(&mut head, a, b'\n');
    console::print(streams, console::first(&head, b)) && console::print(streams, bytes)
}
