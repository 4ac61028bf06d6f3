// Laying bytes and decimal numbers into a lent room at a place. Each function answers the next place
// and writes only below the room's length: on an empty room a run of calls tells how long a text
// would be. Nothing here knows what is written.
#![tactic(auto)]

ghost use Rattle.std.specs.Prelude.{◌≡◌, List, ◌∷◌, ℕ, ◌+◌, ◌<◌, length};
ghost use Rattle.text.specs.Text.{Wrote, behind, decimal};

// No room is so long; a place stays here.
const LIMIT: usize = 0x8000_0000_0000_0000;

// Lays the byte b.
pub fn put(room: &mut [u8], at: usize, b: u8) -> usize
    ensures { Wrote room.old at (b ∷ List.[]) room.new result }
{
    if at < room.len() {
        room[at] = b;
    }
    if at < LIMIT {
        return at + 1;
    }
    at
}

// Lays all of `bytes`: of a room that is too short only as many as it takes.
pub fn put_bytes(room: &mut [u8], at: usize, bytes: &[u8]) -> usize
    ensures { Wrote room.old at bytes.now room.new result }
{
    let next = place_behind(at, bytes.len());
    if room.len() <= at {
        return next;
    }
    let fits = bytes.len().min(room.len() - at);
    room[at..at + fits].copy_from_slice(&bytes[..fits]);
    next
}

// The place behind n bytes from `at` on.
pub fn place_behind(at: usize, n: usize) -> usize
    ensures { result ≡ behind at n }
{
    at.saturating_add(n).min(LIMIT).max(at)
}

// The digit n, below 10, as a byte.
fn digit(n: usize) -> u8
    requires { n < 10 }
    ensures { result ≡ n + 48 }
{
    n as u8 + 48
}

// Lays n in decimal digits, without leading zeros. Numbers below 1000 need no call that nests; from 1000 on it
// calls itself on what stands before the last digit, so at most 17 deep.
pub fn put_number(room: &mut [u8], at: usize, n: usize) -> usize
    ensures { Wrote room.old at (decimal n) room.new result }
{
    if n < 1000 {
        return put_small(room, at, n);
    }
    let next = put_number(room, at, n / 10);
    put(room, next, digit(n % 10))
}

// The same for n below 1000.
fn put_small(room: &mut [u8], at: usize, n: usize) -> usize
    requires { n < 1000 }
    ensures { Wrote room.old at (decimal n) room.new result }
{
    let last = digit(n % 10);
    if n < 10 {
        return put(room, at, last);
    }
    let tens = digit(n / 10 % 10);
    if n < 100 {
        let a = put(room, at, tens);
        return put(room, a, last);
    }
    let b = put(room, at, digit(n / 100 % 10));
    let c = put(room, b, tens);
    put(room, c, last)
}
