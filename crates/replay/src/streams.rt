// The numbers of the two streams.
pub const INPUT: i32 = 0;

pub const OUTPUT: i32 = 1;
