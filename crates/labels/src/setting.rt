// The setting in which labels are worked: one coefficient to a word, and a batch that no label passes.
use crate::limits::{MODULUS, MOST_WORDS};
use settings::setting::Setting;

pub const LABELS: Setting = Setting {
    p: MODULUS as u64,
    k: 1,
    t: 30,
    n: MOST_WORDS as u64,
};
