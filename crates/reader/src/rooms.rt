// How many nodes the programs lend to a reading, and in words.
use arena::STRIDE;

pub const PROGRAM_NODES: usize = 2048;

pub const PROGRAM_WORDS: usize = PROGRAM_NODES * STRIDE;
