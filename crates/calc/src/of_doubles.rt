// The verbs that are given doubles, and the others of the lane.
use crate::call::Call;
use crate::faults::Failure;
use crate::held::Held;
use crate::reals::{double_at, put_double};
use crate::shown_records::lane_line;
use crate::verbs::Verb;
use lane::Lane;
use texts::putting::put;

pub fn answer_doubles(
    verb: Verb,
    held: &mut Held,
    call: Call,
    text: &[u8],
    out: &mut [u8],
) -> Result<usize, Failure> {
    let p = double_at(text, 0)?;
    if verb == Verb::LaneReduce {
        return Ok(put_lane_word(lane::reduce(held.lane, p)?, out));
    }
    held.lane = Lane {
        setting: call.setting(),
        p,
        q: double_at(text, 1)?,
        inverse: double_at(text, 2)?,
    };
    Ok(lane_line(held.lane, out))
}

pub fn put_lane_word(word: f64, out: &mut [u8]) -> usize {
    let at = put(b"word", out, 0);
    put_double(word, out, at)
}
