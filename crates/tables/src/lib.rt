// The tables that a sheet is read into: how many rows each may need, and what the columns of a row hold.
// A place is counted from 0 in the sheet's bytes. No function stands here.
#![tactic(auto)]

// How long a sheet can be, and how many lines of each kind it can have.
pub const MOST_BYTES: usize = 65536;

pub const MOST_FEATURES: usize = 10;

pub const MOST_MOVES: usize = 256;

pub const MOST_STOPS: usize = 64;

// A feature's row: where its name begins, and the place behind it.
pub const NAME: usize = 0;

pub const NAME_END: usize = 1;

// A move's row: its line, the state it leaves, where its action begins and the place behind it, and the
// state it leads to. A stop's row: its line and its state.
pub const LINE: usize = 0;

pub const FROM: usize = 1;

pub const ACTION: usize = 2;

pub const ACTION_END: usize = 3;

pub const TO: usize = 4;

pub const STATE: usize = 1;
