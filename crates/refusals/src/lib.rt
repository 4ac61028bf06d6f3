// A refusal, which every answer that can refuse carries, and the line that the programs print for it,
// laid into a lent room. When a sheet is refused, and who writes the line where, stands elsewhere.
#![tactic(auto)]

ghost use Rattle.std.specs.Prelude.{◌≡◌, Err};
ghost use Rattle.text.specs.Text.{Wrote};
ghost use Rattle.refusals.specs.Refusal.{number_of, refusal, refusal_text};

// Why something is refused, each with its number in the table of refusals.
#[derive(Clone, Copy, PartialEq, Eq)]
pub enum Reason {
    SheetTooLong = 1,
    NoLastLineEnd = 2,
    BadLine = 3,
    BadField = 4,
    BadGuard = 5,
    UndeclaredName = 6,
    NestedTooDeep = 7,
    TooManyLines = 8,
    Repeat = 9,
    NoValidProduct = 10,
    RoomTooShort = 11,
    InvalidProduct = 12,
    NoMove = 19,
}

impl From<Reason> for u8 {
    ghost from_gives = { λ reason number. number ≡ number_of reason };

    fn from(reason: Reason) -> u8 {
        reason as u8
    }
}

// Its number in the table of refusals; the line it speaks of, 0 for none; and the place in that line,
// counted from 1, 0 for none. Not a `Reason`, of which there are thirteen: any number can be printed.
#[derive(Clone, Copy)]
pub struct Refusal {
    pub number: u8,
    pub line: usize,
    pub place: usize,
}

// The answer of whatever is refused for this reason.
pub fn refuse<T>(reason: Reason, line: usize, place: usize) -> Result<T, Refusal>
    ensures { result ≡ Err (refusal reason line place) }
{
    Err(Refusal {
        number: u8::from(reason),
        line,
        place,
    })
}

// Lays `refused`, number, line, place, tab-parted, with byte 10 at the end; answers where the room goes on
// behind them.
pub fn put_refusal(room: &mut [u8], at: usize, refusal: Refusal) -> usize
    ensures { Wrote room.old at (refusal_text refusal) room.new result }
{
    let number = refusal.number as usize;
    let line = refusal.line;
    let place = refusal.place;
    let a = text::put_bytes(room, at, b"refused\t");
    let b = text::put_number(room, a, number);
    let c = text::put(room, b, b'\t');
    let d = text::put_number(room, c, line);
    let e = text::put(room, d, b'\t');
    let f = text::put_number(room, e, place);
    text::put(room, f, b'\n')
}
