// 12 for a state: whether it is one that no bytes give.
ghost use Rattle.std.specs.Prelude.{◌≡◌};
ghost use Rattle.packed.specs.Running.{record_cause};
ghost use Rattle.jobs.specs.States.{unused_cause, blank_cause, idle_cause, heading_cause, refusal_cause, settled_cause, adding_cause, state_cause};

use crate::adding::{bytes_to_come, pair_bytes};
use crate::bytes::first_bad;
use crate::header::{HEADER_SIZE, blank};
use crate::state::{HELD, Stage, State};
use packed::running::{Record, feed};
use settings::limits::{MOST_COEFFICIENTS, MOST_PAIRS};
use settings::refusals::Numbered;

// The indices of coefficients in a job of the most and the longest pairs.
const MOST_INDICES: u64 = 2 * MOST_COEFFICIENTS * MOST_PAIRS;

#[tactic(auto, unfolding(crate::specs::States::state_cause))]
pub fn state_cause(state: State) -> bool
    ensures { result ≡ state_cause state }
{
    match state.stage {
        Stage::Header => heading_cause(state),
        Stage::Pairs => adding_cause(state),
        Stage::Refused(why) => settled_cause(why, state),
    }
}

fn heading_cause(state: State) -> bool
    ensures { result ≡ heading_cause state }
{
    HEADER_SIZE <= state.size || unused_cause(state.size, &state.held) || idle_cause(state)
}

fn settled_cause(why: Numbered, state: State) -> bool
    ensures { result ≡ settled_cause why state }
{
    refusal_cause(why)
        || state.size != 0
        || unused_cause(state.size, &state.held)
        || idle_cause(state)
}

fn adding_cause(state: State) -> bool
    ensures { result ≡ adding_cause state }
{
    let running = state.running;
    if record_cause(running) {
        return true;
    }
    let k = running.setting.k;
    let total = running.sum.total;
    if MOST_PAIRS < state.pairs || state.pairs < total {
        return true;
    }
    let size = state.size;
    if pair_bytes(k) as usize <= size || bytes_to_come(k, state.pairs - total) < size {
        return true;
    }
    let held = state.held;
    first_bad(running.setting.p, &held[..size]).is_some() || unused_cause(size, &held)
}

// A record that feed refuses whatever it is fed, and so no pairs at all.
fn record_cause(running: Record) -> bool
    ensures { result ≡ record_cause running }
{
    feed(running, &[], &[]).answer.is_err()
}

// A byte after those that are held is not zero.
fn unused_cause(size: usize, held: &[u8]) -> bool
    ensures { result ≡ unused_cause size held.now }
{
    held.iter().skip(size).any(|byte| *byte != 0)
}

fn idle_cause(state: State) -> bool
    ensures { result ≡ idle_cause state }
{
    state.pairs != 0 || blank_cause(state.running)
}

fn blank_cause(running: Record) -> bool
    ensures { result ≡ blank_cause running }
{
    running != blank()
}

// A refusal that no bytes give: those that bytes give are 8, with an index in the job, and 1 to 6, 13 and 17, with place 0.
fn refusal_cause(why: Numbered) -> bool
    ensures { result ≡ refusal_cause why }
{
    match why.number {
        8 => MOST_INDICES <= why.place,
        1..=6 | 13 | 17 => why.place != 0,
        _ => true,
    }
}
