// What an arc file handed over in parts is: the definitions and the laws of it, with the position by value and the answer of its entries.
// The code is in the crates below this one.
#![tactic(auto)]

use num_limits::{PARAMETERS_MOST, PARTIAL_SIZE, RECORD_FIXED};
use refusal::{Fault, Refusal};

// The bytes of a heading with its counts, at most: 4 and 12 of settings, 4 and 50·16 of parameters, 4 and 16·8 of stations, 4 of records.
pub const OPENED_MOST: usize = 956;

// The bytes of a record of fifty parameters: 132.
pub const RECORD_SIZE_MOST: usize = RECORD_FIXED + PARTIAL_SIZE * PARAMETERS_MOST;

// The bytes that a position has room for: a heading with its counts, a record but one byte, and one more. 1,088.
pub const POSITION_MOST: usize = OPENED_MOST + RECORD_SIZE_MOST;

// The bytes handed over without those of the records taken, from the front of `kept` on, with zeros after them; how many they are; how many
// records were taken; and whether the file is over.
#[derive(Clone, Copy)]
pub struct Position {
    pub kept: [u8; POSITION_MOST],
    pub length: usize,
    pub taken: usize,
    pub over: bool,
}

// 28, 20 or 6, which change nothing; or a refusal in the file's form, with the number of all records taken.
#[derive(Clone, Copy)]
pub enum PartRefusal {
    Stopped(Refusal),
    Broken(Fault, usize),
}

// What finish answers, and where it leads: the number of records that a part completed, or a refusal.
#[derive(Clone, Copy)]
pub struct Finished {
    pub answer: Result<usize, PartRefusal>,
    pub position: Position,
}
