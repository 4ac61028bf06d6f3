// The desk that the texts are laid from. Where it comes from is not asked here. No function stands here.
#![tactic(auto)]

ghost use Rattle.std.specs.Prelude.{◌≤◌, min, length};

use sheet::Counts;

// The bytes of a sheet, read or made, and the tables that stand for it.
#[derive(Clone, Copy)]
pub struct SheetTables<'a> {
    pub text: &'a [u8],
    pub counts: Counts,
    pub names: &'a [[usize; 2]; 10],
    pub valid: &'a [u64; 16],
    pub moves: &'a [[usize; 5]],
    pub move_guards: &'a [[u64; 16]],
    pub stops: &'a [[usize; 2]],
    pub stop_guards: &'a [[u64; 16]],
}

// A sheet; the products that reach each state, and of these the ones in which the guard of a move line out of it
// holds; and the depth.
#[derive(Clone, Copy)]
pub struct Desk<'a> {
    pub sheet: SheetTables<'a>,
    pub sets: &'a [[u64; 16]],
    pub out: &'a [[u64; 16]],
    pub depth: usize,
    // Each state that has a set has an out set.
    ghost enough: { min 64 (length sets.now) ≤ length out.now },
}
