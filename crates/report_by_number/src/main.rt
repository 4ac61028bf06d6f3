// Reads one sheet from standard input and writes its report, or the refusal, to standard output. Each product
// in it is the one with the smallest number.
#![tactic(auto)]

ghost use Rattle.std.specs.Prelude.{◌≤◌, length, take};
ghost use Rattle.products.specs.declared.Order.{Order};
ghost use Rattle.calls.specs.Promise.{ReportPromise};
ghost use Rattle.calls.specs.Shown.{Printed};

fn main(rt: HostRuntime) {
    console::answer_input(&rt, answer);
}

// Lays the report into the room, or the line of the refusal; answers how many bytes that is.
fn answer(sheet: &[u8], room: &mut [u8]) -> usize
    requires { 54 ≤ length room.old }
    ensures { Printed (ReportPromise Order.ByNumber sheet.now) room.old (take result room.new) }
{
    let a = calls::report_by_number(sheet, room);
    calls::put_answer(a, room)
}
