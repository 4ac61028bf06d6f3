// A line cut into the one, two or four fields that it must have.
#![tactic(auto)]

ghost use Rattle.std.specs.Prelude.{◌<◌, length, MatchOption};
ghost use Rattle.fields.specs.Bytes.{FirstAt};
ghost use Rattle.fields.specs.Cutting.{IsOne, CutsTwo, CutsFour};

use fields::Tabs;

// Whether l is one field.
pub fn is_one(l: &[u8]) -> bool
    ensures { IsOne l.now result }
{
    tab(l, 0).is_none()
}

// Cuts l where it is two fields.
pub fn cut_two(l: &[u8]) -> Option<usize>
    ensures { CutsTwo l.now result }
{
    let b = tab(l, 0)?;
    match tab(l, b + 1) {
        Some(_) => None,
        None => Some(b),
    }
}

// Cuts l where it is four fields.
pub fn cut_four(l: &[u8]) -> Option<Tabs>
    ensures { CutsFour l.now result }
{
    let first = tab(l, 0)?;
    let second = tab(l, first + 1)?;
    let third = tab(l, second + 1)?;
    match tab(l, third + 1) {
        Some(_) => None,
        None => Some(Tabs {
            first,
            second,
            third,
        }),
    }
}

// Where the first tab of l from `from` on is.
fn tab(l: &[u8], from: usize) -> Option<usize>
    ensures { MatchOption result (FirstAt l.now 9 from (length l.now)) (λ at. FirstAt l.now 9 from at × (at < length l.now)) }
{
    let at = fields::find(l, b'\t', from);
    if at < l.len() { Some(at) } else { None }
}
