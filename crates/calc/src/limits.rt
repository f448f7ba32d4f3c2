// What calc holds: there is no heap, so each buffer has a fixed size.

// The most elements of a list, and of what is lent.
pub const LIST: usize = 16384;

// The most bytes of an answer.
pub const ANSWER: usize = 65536;

// What stands in every element that is lent.
pub const MARK: u64 = 7;
