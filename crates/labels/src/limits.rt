// The limits of labels. Each stands here once.
pub const MODULUS: u16 = 929;

pub const HIGHEST_LEVEL: u64 = 8;

pub const MOST_WORDS: usize = 928;

// 2^(s+1) at the highest level.
pub const MOST_CHECKS: usize = 512;
