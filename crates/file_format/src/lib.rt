// The sizes of a plate file's blocks (document 02, ticket 2).
#![tactic(auto)]

pub const BLOCK_BYTES: usize = 512;

pub const BLOCK_POINTS: usize = 31;

// Where the parts of a block begin, behind its number.
pub const COUNT_AT: usize = 4;

pub const ZEROS_AT: usize = 6;

pub const PLACES_AT: usize = 8;

pub const FIRST_CHECK_AT: usize = 504;

pub const SECOND_CHECK_AT: usize = 508;
