// The demands on one page. The laws stand in specs/Demands.antt and specs/Table.antt; what a call promises
// is said here, by a call of it and nothing else.
#![tactic(auto)]

ghost use Rattle.products.specs.declared.Order.{Order};
ghost use Rattle.calls.specs.Promise.{ReportPromise, CleanPromise, BothPromise};
ghost use Rattle.running.specs.Promise.{SetsUp, Acts};

use refusals::Refusal;

// Report promise: for every sheet and every room, refused with the table's number, line and place and
// every byte of the room kept; or 11, every byte kept, exactly if the report is longer than the room; or
// done with its length, the first bytes the report of this sheet and the rest kept. Each product in it is
// the plainest.
pub fn report_promise(text: &[u8], room: &mut [u8]) -> Result<usize, Refusal>
    ensures { ReportPromise Order.Plainest text.now room.old room.new result }
{
    calls::report(text, room)
}

// Report promise, by number: the same, and each product is the one with the smallest number.
pub fn report_by_number_promise(text: &[u8], room: &mut [u8]) -> Result<usize, Refusal>
    ensures { ReportPromise Order.ByNumber text.now room.old room.new result }
{
    calls::report_by_number(text, room)
}

// Clean promise: the same of the clean sheet, with 11 also where it is longer than 65,536 bytes.
pub fn clean_promise(text: &[u8], room: &mut [u8]) -> Result<usize, Refusal>
    ensures { CleanPromise text.now room.old room.new result }
{
    calls::clean(text, room)
}

// Both promise: the same of both texts, each in its room; 11 speaks of line 1 if the report is longer than
// its room, else of line 2 if the clean sheet is longer than its own or than 65,536 bytes, and then both
// rooms keep every byte.
pub fn both_promise(
    text: &[u8],
    room: &mut [u8],
    clean_room: &mut [u8],
) -> Result<(usize, usize), Refusal>
    ensures { BothPromise text.now room.old room.new clean_room.old clean_room.new result }
{
    calls::report_and_clean(text, room, clean_room)
}

// Set-up promise: for every sheet and every number, refused with the table's number, line and place, or by
// 12 with line and place 0, and the box has product 0 and an empty place; or done, and the box has this
// product and stands at the start.
pub fn set_up_promise(text: &[u8], product: usize) -> running::Called
    ensures { SetsUp text.now product result.answer result.after }
{
    running::set_up(text, product)
}

// Act promise: for every sheet, every box, made up by hand or not, and every name, refused with the table's
// number, line and place, or by 12 or 19 with line and place 0, and the box is as it was; or done, and the
// box stands exactly at the ends of that name's moves which its product makes from its place. The box is
// lent to `act_on` for this, which promises the same of it.
pub fn act_promise(text: &[u8], b: running::RunningBox, action: &[u8]) -> running::Called
    ensures { Acts text.now b action.now result.answer result.after }
{
    running::act_held(text, b, action)
}
