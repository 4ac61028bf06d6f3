// Reading a guard: its bytes to the set of products in which it holds, or a refusal with the place of
// the leftmost faulty byte. The guard reader and the chain reader call each other; the parts of one
// chain go in a loop, so that calls are never nested deeper than the guard is.
#![tactic(auto)]

ghost use Rattle.std.specs.Prelude.{Err, ◌≡◌, true, ℕ, ◌+◌, ◌≤◌, ◌<◌, min, length, get_or, drop, List};
ghost use Rattle.fields.specs.Bytes.{piece_of, same_bytes, is_letter};
ghost use Rattle.guards.specs.Guard.{Guard, Operator, Parts, byte_of, Means, PartsMean};
ghost use Rattle.guards.specs.Reading.{number, names_in, named, parts, otherwise, opened, Inside, read_guard, read_whole, fault, Reads, Follows};

use refusals::Reason;
use tables::{NAME, NAME_END};

// Why a guard is refused, and the place of the faulty byte.
#[derive(Clone, Copy)]
pub struct Fault {
    pub reason: Reason,
    pub at: usize,
}

const MOST_NESTING: usize = 32;

// The names of a sheet's features: places in `text`, in the first `count` rows; a count above ten is taken for
// ten.
#[derive(Clone, Copy)]
pub struct FeatureNames<'a> {
    pub text: &'a [u8],
    pub rows: &'a [[usize; 2]; 10],
    pub count: usize,
}

// The guard that the whole of `field` spells. The set of products in which it holds is laid into `set`; after a
// refusal it is empty.
pub fn read_whole(names: &FeatureNames, field: &[u8], set: &mut [u64; 16]) -> Result<usize, Fault>
    ensures { Reads field.now 0 result set.new (read_whole (names_in names.now) field.now) }
{
    let r = read_guard(names, field, 0, MOST_NESTING, set);
    let Ok(next) = r else {
        *set = [0u64; 16];
        return r;
    };
    if next < field.len() {
        *set = [0u64; 16];
        return refuse(Reason::BadGuard, next);
    }
    r
}

// The number of the feature that `name` names. It is asked for at every name of a guard, and a call would be a
// sixth of its time.
#[inline(always)]
pub fn find_name(names: &FeatureNames, name: &[u8]) -> Option<usize>
    ensures { result ≡ number (names_in names.now) name.now }
{
    for i in (0..names.count.min(10)).rev() {
        let row = names.rows[i];
        if stands_at(names.text, row[NAME], row[NAME_END], name) {
            return Some(i);
        }
    }
    None
}

// Whether the bytes of `text` from place `from` up to place `upto` are those of `name`; where the text has
// no such part they are none. With `fields::piece` in the place of the tests, which was tried, finding a
// name takes 4 in 100 steps more.
fn stands_at(text: &[u8], from: usize, upto: usize, name: &[u8]) -> bool
    ensures { result ≡ same_bytes (piece_of text.now from upto) name.now }
{
    if upto < from || text.len() < upto {
        return name.is_empty();
    }
    fields::same_bytes(&text[from..upto], name)
}

fn refuse(reason: Reason, at: usize) -> Result<usize, Fault>
    ensures { result ≡ Err (fault reason at) }
{
    Err(Fault { reason, at })
}

// The guard that begins at `at`, where `left` more may be nested. What the set holds after a refusal is
// left open, here and in the five readers that follow.
#[cycle(guard)]
fn read_guard(
    names: &FeatureNames,
    field: &[u8],
    at: usize,
    left: usize,
    set: &mut [u64; 16],
) -> Result<usize, Fault>
    requires { at ≤ length field.now }
    ensures { Follows field.now at result set.new (read_guard (names_in names.now) left (drop at field.now)) }
{
    // A slice taken anew is handed on as two words; a copy of the whole would wait for memory.
    let field = &field[0..field.len()];
    if at == field.len() {
        return refuse(Reason::BadGuard, at);
    }
    let b = field[at];
    if b == b'!' {
        if left == 0 {
            return refuse(Reason::NestedTooDeep, at);
        }
        let next = read_guard(names, field, at + 1, left - 1, set)?;
        let denied = *set;
        *set = set_not(denied);
        return Ok(next);
    }
    if b == b'(' {
        if left == 0 {
            return refuse(Reason::NestedTooDeep, at);
        }
        return read_open(names, field, at + 1, left - 1, set);
    }
    read_plain(names, field, at, set)
}

// The guard that begins at `at` with neither `!` nor `(`: `0`, `1` or a name, however much may be nested.
fn read_plain(
    names: &FeatureNames,
    field: &[u8],
    at: usize,
    set: &mut [u64; 16],
) -> Result<usize, Fault>
    requires { at < length field.now }
    ensures { (left : ℕ) → (get_or field.now at 0 ≡ 33 → ⊥) → (get_or field.now at 0 ≡ 40 → ⊥) → Follows field.now at result set.new (read_guard (names_in names.now) left (drop at field.now)) }
{
    let b = field[at];
    if b == b'0' {
        *set = set_never();
        return Ok(at + 1);
    }
    if b == b'1' {
        *set = set_always();
        return Ok(at + 1);
    }
    if !fields::is_letter(b) {
        return refuse(Reason::BadGuard, at);
    }
    read_name(names, field, at, set)
}

// The name that begins at `at`, where a letter stands: the set of its feature.
fn read_name(
    names: &FeatureNames,
    field: &[u8],
    at: usize,
    set: &mut [u64; 16],
) -> Result<usize, Fault>
    requires { at < length field.now }
    ensures { is_letter (get_or field.now at 0) ≡ true → Follows field.now at result set.new (named (names_in names.now) (drop at field.now)) }
{
    let e = fields::run_end(field, at);
    let Some(i) = find_name(names, &field[at..e]) else {
        return refuse(Reason::UndeclaredName, at);
    };
    lay_feature(i, set);
    Ok(e)
}

// What stands behind an opened bracket: a choice or a chain, by what follows its first guard.
#[cycle(guard)]
fn read_open(
    names: &FeatureNames,
    field: &[u8],
    at: usize,
    left: usize,
    set: &mut [u64; 16],
) -> Result<usize, Fault>
    requires { at ≤ length field.now }
    ensures { Follows field.now at result set.new (opened (Inside.inside (read_guard (names_in names.now) left)) List.[] (drop at field.now)) }
{
    let next = read_guard(names, field, at, left, set)?;
    if next == field.len() {
        return refuse(Reason::BadGuard, next);
    }
    let op = field[next];
    if op == b'?' {
        return read_choice(names, field, next + 1, left, set);
    }
    if op == b'&' {
        return read_chain(names, field, next + 1, left, op, set);
    }
    if op == b'|' {
        return read_chain(names, field, next + 1, left, op, set);
    }
    refuse(Reason::BadGuard, next)
}

// The two guards of a choice, whose condition holds in the set lent.
#[cycle(guard)]
fn read_choice(
    names: &FeatureNames,
    field: &[u8],
    at: usize,
    left: usize,
    set: &mut [u64; 16],
) -> Result<usize, Fault>
    requires { at ≤ length field.now }
    ensures { (c : Guard) → Means set.old c → Follows field.now at result set.new (otherwise (read_guard (names_in names.now) left) c (read_guard (names_in names.now) left (drop at field.now))) }
{
    let mut there = [0u64; 16];
    let colon = read_guard(names, field, at, left, &mut there)?;
    if colon == field.len() {
        return refuse(Reason::BadGuard, colon);
    }
    if field[colon] != b':' {
        return refuse(Reason::BadGuard, colon);
    }
    let mut elsewhere = [0u64; 16];
    let end = read_guard(names, field, colon + 1, left, &mut elsewhere)?;
    if end == field.len() {
        return refuse(Reason::BadGuard, end);
    }
    if field[end] != b')' {
        return refuse(Reason::BadGuard, end);
    }
    let condition = *set;
    *set = set_choice(condition, there, elsewhere);
    Ok(end + 1)
}

// The parts of a chain behind the operator `op`, whose first part holds in the set lent.
#[cycle(guard)]
fn read_chain(
    names: &FeatureNames,
    field: &[u8],
    from: usize,
    left: usize,
    op: u8,
    set: &mut [u64; 16],
) -> Result<usize, Fault>
    requires { from ≤ length field.now }
    ensures { (o : Operator) (ps : Parts) → op ≡ byte_of o → PartsMean set.old o ps → Follows field.now from result set.new (parts (read_guard (names_in names.now) left) (length (drop from field.now)) o ps (drop from field.now)) }
{
    let mut at = from;
    let mut part = [0u64; 16];
    // No `for`: how many parts there are is told only as they are read.
    loop {
        let next = read_guard(names, field, at, left, &mut part)?;
        if next == field.len() {
            return refuse(Reason::BadGuard, next);
        }
        let b = field[next];
        let first = *set;
        *set = set_joined(op, first, part);
        if b == b')' {
            return Ok(next + 1);
        }
        if b != op {
            return refuse(Reason::BadGuard, next);
        }
        at = next + 1;
    }
}

// A function for each form of guard: what it promises is what the form means.
fn set_never() -> [u64; 16]
    ensures { Means result Guard.never }
{
    [0u64; 16]
}

fn set_always() -> [u64; 16]
    ensures { Means result Guard.always }
{
    [0xffff_ffff_ffff_ffffu64; 16]
}

fn lay_feature(i: usize, set: &mut [u64; 16])
    ensures { Means set.new (Guard.feature i) }
{
    products::lay_feature(i, set);
}

fn set_not(a: [u64; 16]) -> [u64; 16]
    ensures { (g : Guard) → Means a g → Means result (Guard.neg g) }
{
    products::without(set_always(), a)
}

fn set_choice(c: [u64; 16], a: [u64; 16], b: [u64; 16]) -> [u64; 16]
    ensures { (k g h : Guard) → Means c k → Means a g → Means b h → Means result (Guard.choice k g h) }
{
    products::choice(c, a, b)
}

// The sets of two parts of a chain with the operator `op`.
fn set_joined(op: u8, a: [u64; 16], b: [u64; 16]) -> [u64; 16]
    ensures { (o : Operator) (ps : Parts) (g : Guard) → op ≡ byte_of o → PartsMean a o ps → Means b g → PartsMean result o (Parts.more ps g) }
{
    if op == b'&' {
        return products::both(a, b);
    }
    products::either(a, b)
}
