// The state that takes a job's bytes: start, take, finish. It holds no more than a header, or an open pair and a running record.
ghost use Rattle.jobs.specs.States.{Starts, Takes, Finishes};

use crate::adding::take_pairs;
use crate::coherent::state_cause;
use crate::header::{blank, take_header};
use crate::line::put_line;
use packed::running::Record;
use settings::refusals::{Numbered, Refusal};
use texts::putting::put;

// A buffer of so many bytes has room for every line.
pub const LONGEST_LINE: usize = 126;

// Room for a header, and for a pair of the longest polynomials.
pub const HELD: usize = 32;

#[derive(Clone, Copy)]
pub enum Stage {
    // The header is not complete.
    Header,
    // Pairs are added up.
    Pairs,
    // No further byte can change the answer: a refusal in numbers, so that a state which no bytes give has any two, and is told.
    Refused(Numbered),
}

// The bytes that wait for more, of the header or of the open pair, with zeros after them; how many pairs the header declares; and what was
// added up. Any values can stand in the fields: `Takes` and `Finishes` say what is answered for them.
#[derive(Clone, Copy)]
pub struct State {
    pub stage: Stage,
    pub held: [u8; HELD],
    pub size: usize,
    pub pairs: u64,
    pub running: Record,
}

pub fn start() -> State
    ensures { Starts result }
{
    State {
        stage: Stage::Header,
        held: [0u8; HELD],
        size: 0,
        pairs: 0,
        running: blank(),
    }
}

// The next bytes of the job. A state that is not coherent is handed back as it was.
#[tactic(auto, unfolding(crate::specs::States::state_cause, crate::specs::States::taken_by))]
pub fn take(state: State, piece: &[u8]) -> State
    ensures { Takes state piece.now result }
{
    if state_cause(state) {
        return state;
    }
    match state.stage {
        Stage::Header => take_header(state, piece),
        Stage::Pairs => take_pairs(state, piece),
        Stage::Refused(_) => state,
    }
}

// The job has ended: its line, into a lent buffer: 10.
pub fn finish(state: State, out: &mut [u8]) -> Result<usize, Refusal>
    ensures { Finishes state out.old result out.new }
{
    let mut line = [0u8; LONGEST_LINE];
    let size = put_line(state, &mut line);
    if out.len() < size {
        return Err(Refusal::Short);
    }
    Ok(put(&line[..size], out, 0))
}
