// The limits of document 01. Each stands here once.
pub const LARGEST_MODULUS: u64 = 65536;

pub const MOST_COEFFICIENTS: u64 = 8;

pub const LARGEST_BATCH: u64 = 1048576;

pub const WIDEST: u64 = 63;

pub const WORD_BITS: u64 = 64;

pub const LARGEST_TABLE_MODULUS: u64 = 127;

pub const LONGEST_FACTOR: usize = 4096;

pub const MOST_PAIRS: u64 = 1000000;

// 2k-1 for the largest k
pub const RESIDUE_PLACES: usize = 15;
