// Reads one sheet from standard input and writes its clean form, or the refusal, to standard output.
#![tactic(auto)]

ghost use Rattle.std.specs.Prelude.{◌≤◌, length, take};
ghost use Rattle.calls.specs.Promise.{CleanPromise};
ghost use Rattle.calls.specs.Shown.{Printed};

fn main(rt: HostRuntime) {
    console::answer_input(&rt, answer);
}

// Lays the clean sheet into the room, or the line of the refusal; answers how many bytes that is.
fn answer(sheet: &[u8], room: &mut [u8]) -> usize
    requires { 54 ≤ length room.old }
    ensures { Printed (CleanPromise sheet.now) room.old (take result room.new) }
{
    let a = calls::clean(sheet, room);
    calls::put_answer(a, room)
}
