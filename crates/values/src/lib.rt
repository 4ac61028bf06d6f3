// What one field says: a name, an action or the number of a state.
#![tactic(auto)]

ghost use Rattle.std.specs.Prelude.{◌≡◌, List, ◌∷◌, ◌+◌, ◌-◌, ◌<◌};
ghost use Rattle.fields.specs.Bytes.{all_name_bytes, is_name, is_action, read_state};

// All bytes are looked at, without a branch for each.
fn all_name_bytes(s: &[u8]) -> bool
    ensures { result ≡ all_name_bytes s.now }
{
    let mut good = true;
    for b in s {
        good &= fields::is_name_byte(*b);
    }
    good
}

// Whether s is a good feature name.
pub fn is_name(s: &[u8]) -> bool
    ensures { result ≡ is_name s.now }
{
    if s.len() == 0 {
        return false;
    }
    if !fields::is_letter(s[0]) {
        return false;
    }
    if 12 < s.len() {
        return false;
    }
    all_name_bytes(s)
}

// Whether s is a good action.
pub fn is_action(s: &[u8]) -> bool
    ensures { result ≡ is_action s.now }
{
    if s.len() < 1 {
        return false;
    }
    if 24 < s.len() {
        return false;
    }
    all_name_bytes(s)
}

// The state that s spells.
pub fn read_state(s: &[u8]) -> Option<usize>
    ensures { result ≡ read_state s.now }
{
    match s {
        [a] => one_digit(*a),
        [a, b] => two_digits(*a, *b),
        _ => None,
    }
}

fn one_digit(a: u8) -> Option<usize>
    ensures { result ≡ read_state (a ∷ List.[]) }
{
    if a.is_ascii_digit() {
        return Some(usize::from(a - b'0'));
    }
    None
}

fn two_digits(a: u8, b: u8) -> Option<usize>
    ensures { result ≡ read_state (a ∷ b ∷ List.[]) }
{
    let tens = one_digit(a)?;
    let ones = one_digit(b)?;
    let v = tens * 10 + ones;
    if 10 <= v && v <= 63 { Some(v) } else { None }
}
