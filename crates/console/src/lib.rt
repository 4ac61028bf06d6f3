// What the programs share: one sheet read to its end, lines of an input, numbers in decimal digits, words of
// the command line, and bytes on standard output. What the operating system reads and writes no contract can
// say. So all that shapes bytes stands in functions that promise them, and the two that hand bytes over,
// `print` and `tell`, promise nothing.
#![tactic(auto)]

ghost use Rattle.std.specs.Prelude.{◌≡◌, ◌≤◌, length, take, IfSome};
ghost use Rattle.console.specs.Reading.{Held, Told, Laid, Came, Lined, CameNext, ToldLine, piece_of};
ghost use Rattle.console.specs.Numbers.{number_of};

use std::env::{Env, FillError};
use std::io;
use std::io::{Read, Stderr, Stdin, Stdout};
use tables::MOST_BYTES;

// Where a program reads, where its answers go, and where it says what went wrong.
#[derive(Clone, Copy)]
pub struct Streams {
    pub stdin: Stdin,
    pub stdout: Stdout,
    pub stderr: Stderr,
}

impl Streams {
    // Those of the program itself.
    pub fn new(rt: &HostRuntime) -> Streams {
        Streams {
            stdin: rt.stdin(),
            stdout: rt.stdout(),
            stderr: rt.stderr(),
        }
    }
}

// An input could not be read to its end.
#[derive(Clone, Copy, Debug, PartialEq, Eq)]
pub struct Broken;

impl From<io::Error> for Broken {
    fn from(_error: io::Error) -> Broken {
        Broken
    }
}

const LINE_END: u8 = 10;

// So many bytes of a sheet are read at once.
const AT_ONCE: usize = 4096;

// A number above this one is told as this one.
const MOST_NUMBER: usize = 1_000_000_000;

// Reads the sheet on standard input and writes what `answer` lays for it into a room; `answer` says how many
// bytes that is. Where the sheet cannot be read to its end nothing is written.
pub fn answer_input<F: FnOnce(&[u8], &mut [u8]) -> usize>(rt: &HostRuntime, answer: F)
    requires { (text : _) (room : _) → length room.now ≡ 65536 → F.pre answer text room }
{
    let streams = Streams::new(rt);
    let mut buf = [0u8; MOST_BYTES + 1];
    let Ok(n) = read_input(&streams, &mut buf) else {
        return;
    };
    let mut room = [0u8; MOST_BYTES];
    let m = answer(first(&buf, n), &mut room);
    print(&streams, first(&room, m));
}

// Reads the sheet on standard input to its end, and answers how many of its bytes stand in buf. As much of
// it as fits is laid at the start of buf, and the rest is passed over. Where a read fails a message goes to
// standard error.
pub fn read_input(streams: &Streams, buf: &mut [u8]) -> Result<usize, Broken>
    ensures { Held buf.old buf.new result }
{
    let mut stdin = streams.stdin;
    read_from(streams, &mut stdin, buf)
}

// The same for a file that is open, or whatever else is read.
pub fn read_from<R: Read>(
    streams: &Streams,
    reader: &mut R,
    buf: &mut [u8],
) -> Result<usize, Broken>
    ensures held { Held buf.old buf.new result }
    ensures told { IfSome (R.remaining reader.old) (λ bytes. Told bytes buf.old buf.new result) }
{
    let input = read_all(reader, buf);
    if input.is_err() {
        tell(streams, b"the sheet could not be read to its end\n");
    }
    input
}

// The same without the message. A proved loop has to end, and nothing says that an input does: so the
// loop has more turns than any run uses up.
#[tactic(auto, using(crate::proofs::Sofar::sofar_more))]
fn read_all<R: Read>(reader: &mut R, buf: &mut [u8]) -> Result<usize, Broken>
    ensures held { Held buf.old buf.new result }
    ensures told { IfSome (R.remaining reader.old) (λ bytes. Told bytes buf.old buf.new result) }
{
    let mut at = 0;
    for _ in 0..u64::MAX {
        let Some(next) = read_piece(reader, buf, at)? else {
            return Ok(at.min(buf.len()));
        };
        at = next;
    }
    Err(Broken)
}

// Reads once, and lays what came into buf from the place `at` on, as far as it fits. Answers the place behind
// it; none at the end of the input.
#[tactic(auto, using(crate::proofs::Came::some_spent, crate::proofs::Came::none_left))]
fn read_piece<R: Read>(reader: &mut R, buf: &mut [u8], at: usize) -> Result<Option<usize>, Broken>
    ensures laid { Laid buf.old at buf.new result }
    ensures came { Came (R.remaining reader.old) (R.remaining reader.new) buf.old at buf.new result }
{
    let mut some = [0u8; AT_ONCE];
    let got = reader.read(&mut some);
    let Some(n) = piece_of(got, &some)? else {
        return Ok(None);
    };
    Ok(Some(text::put_bytes(buf, at, first(&some, n))))
}

// What a read that was handed `some` says by its answer: how many bytes came; none at the end of the
// input.
#[tactic(auto, unfolding(crate::specs::Reading::piece_of))]
fn piece_of(got: io::Result<usize>, some: &[u8]) -> Result<Option<usize>, Broken>
    ensures { result ≡ piece_of got (length some.now) }
{
    let n = got?;
    if n == 0 {
        return Ok(None);
    }
    Ok(Some(n.min(some.len())))
}

// Reads one line, byte by byte, so that nothing behind it is taken, and answers how many bytes it has; none
// where no line comes any more. As much of it as fits is laid at the start of buf, its end left out; the last
// line may lack its end.
#[tactic(auto, using(crate::proofs::Lined::begun_more))]
pub fn read_line<R: Read>(reader: &mut R, buf: &mut [u8]) -> Result<Option<usize>, Broken>
    ensures lined { Lined buf.old buf.new result }
    ensures told { IfSome (R.remaining reader.old)
        (λ bytes. ToldLine bytes (R.remaining reader.new) buf.old buf.new result) }
{
    let mut n = 0;
    for _ in 0..u64::MAX {
        let Some(b) = read_byte(reader)? else {
            if n == 0 {
                return Ok(None);
            }
            return Ok(Some(n));
        };
        if b == LINE_END {
            return Ok(Some(n));
        }
        n = text::put(buf, n, b);
    }
    Err(Broken)
}

// Reads one byte; none at the end of the input.
fn read_byte<R: Read>(reader: &mut R) -> Result<Option<u8>, Broken>
    ensures { CameNext (R.remaining reader.old) (R.remaining reader.new) result }
{
    let mut byte = [0u8; 1];
    let got = reader.read(&mut byte);
    let piece = piece_of(got, &byte)?;
    Ok(piece.map(|_| byte[0]))
}

// Lays word i of the command line at the start of buf, and answers how many bytes it has: 0 also where there
// is no such word, or where it does not fit. Word 0 is the program's own name.
pub fn word<E: Env>(env: &E, i: usize, buf: &mut [u8]) -> usize
    ensures { result ≤ length buf.new }
{
    env.arg(i, buf).unwrap_or(0)
}

// Whether the command line has a word i.
pub fn has_word<E: Env>(env: &E, i: usize) -> bool {
    let mut room = [0u8; 1];
    !matches!(env.arg(i, &mut room), Err(FillError::NotPresent))
}

// The number that a word spells, one decimal digit or more.
#[tactic(auto, using(crate::proofs::Spelt::spelt_more, crate::proofs::Spelt::spelt_no_digit, crate::proofs::Spelt::spelt_all))]
pub fn number(word: &[u8]) -> Option<usize>
    ensures { result ≡ number_of word.now }
{
    if word.is_empty() {
        return None;
    }
    let mut n = 0;
    for &b in word {
        if !b.is_ascii_digit() {
            return None;
        }
        n = (n * 10 + (b - b'0') as usize).min(MOST_NUMBER);
    }
    Some(n)
}

// The first n bytes of the room, all of it where it is shorter.
pub fn first(room: &[u8], n: usize) -> &[u8]
    ensures { result.now ≡ take n room.now }
{
    &room[..n.min(room.len())]
}

// Writes to standard output; answers whether all was written. Where it was not, a message goes to
// standard error.
pub fn print(streams: &Streams, bytes: &[u8]) -> bool {
    if streams.stdout.write_all(bytes).is_ok() {
        return true;
    }
    tell(streams, b"the answer could not be written in full\n");
    false
}

// Writes to standard error. Where that fails too there is nobody left to be told.
pub fn tell(streams: &Streams, bytes: &[u8]) {
    let _ = streams.stderr.write_all(bytes);
}
