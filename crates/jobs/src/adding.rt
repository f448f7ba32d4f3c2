// Pairs: coefficients are tested in input order, whole pairs are fed to the running record in blocks, and the rest is held.
ghost use Rattle.std.specs.Prelude.{◌≡◌, false, ◌++◌, ◌+◌, ◌*◌, ◌^◌, ◌≤◌};
ghost use Rattle.settings.specs.Limits.{most_coefficients, most_pairs};
ghost use Rattle.packed.specs.Running.{record_of};
ghost use Rattle.jobs.specs.Jobs.{pair_bytes};
ghost use Rattle.jobs.specs.States.{held_in, room, whole_bytes, sum_after, pairs_after, adding_cause};
ghost use Rattle.jobs.specs.Adding.{Adding, Feedable, Block};

use crate::bytes::{BLOCK, first_bad, joined, take_apart};
use crate::header::refused;
use crate::state::{Stage, State};
use packed::running::{Record, feed};
use settings::refusals::Refusal;

// The open pair is made whole first, if there is enough for it.
pub fn take_pairs(state: State, piece: &[u8]) -> State
    requires { adding_cause state ≡ false }
    ensures { result ≡ pairs_after state.running.setting state.running.sum state.pairs (held_in state ++ piece.now) }
{
    let size = state.size;
    let held = state.held;
    let running = state.running;
    let whole = pair_bytes(running.setting.k) as usize;
    let end = (whole - size).min(piece.len());
    let pair = joined(&held[..size], &piece[..end]);
    let next = add_bytes(running, state.pairs, &pair[..size + end]);
    if size + end < whole {
        return next;
    }
    match next.stage {
        Stage::Pairs => add_bytes(next.running, next.pairs, &piece[end..]),
        _ => next,
    }
}

// Bytes from the start of a pair on.
pub fn add_bytes(running: Record, pairs: u64, bytes: &[u8]) -> State
    requires { Adding running.setting running.sum pairs }
    ensures { result ≡ pairs_after running.setting running.sum pairs bytes.now }
{
    let s = running.setting;
    let sum = running.sum;
    let room = bytes_to_come(s.k, pairs - sum.total);
    let end = room.min(bytes.len());
    if let Some(bad) = first_bad(s.p, &bytes[..end]) {
        return refused(Refusal::Coefficient(index_in_job(s.k, sum.total, bad)));
    }
    if room < bytes.len() {
        return refused(Refusal::Job);
    }
    let whole = whole_bytes(s.k, bytes.len());
    State {
        stage: Stage::Pairs,
        held: joined(&bytes[whole..], &[]),
        size: bytes.len() - whole,
        pairs,
        running: feed_bytes(running, &bytes[..whole]),
    }
}

// Whole pairs.
fn feed_bytes(running: Record, bytes: &[u8]) -> Record
    requires { Feedable running.setting running.sum bytes.now }
    ensures { result ≡ record_of running.setting (sum_after running.setting running.sum bytes.now) }
{
    let s = running.setting;
    let most = BLOCK / s.k as usize * pair_bytes(s.k) as usize;
    let mut fed = running;
    for block in bytes.chunks(most) {
        fed = feed_block(fed, block);
    }
    fed
}

// As many as are taken apart at a time. No refusal of feed can arise: its causes were tested, and the record is coherent.
fn feed_block(running: Record, bytes: &[u8]) -> Record
    requires { Block running.setting running.sum bytes.now }
    ensures { result ≡ record_of running.setting (sum_after running.setting running.sum bytes.now) }
{
    let s = running.setting;
    let k = s.k as usize;
    let m = bytes.len() / pair_bytes(s.k) as usize;
    let mut xs = [0u16; BLOCK];
    let mut ys = [0u16; BLOCK];
    take_apart(k, m, bytes, &mut xs, &mut ys);
    feed(running, &xs[..m * k], &ys[..m * k]).running
}

// 4k. Here and below k is a number: a record holds a plain setting, which would have to be accepted a second time.
pub fn pair_bytes(k: u64) -> u64
    requires { k ≤ most_coefficients }
    ensures { result ≡ pair_bytes k }
{
    4 * k
}

// The bytes of pairs that are still to come.
pub fn bytes_to_come(k: u64, pairs: u64) -> usize
    requires { (k ≤ most_coefficients) × (pairs ≤ most_pairs) }
    ensures { result ≡ pair_bytes k * pairs }
{
    (pair_bytes(k) * pairs) as usize
}

// The index in the job of a coefficient, from its index among those after so many pairs.
fn index_in_job(k: u64, pairs: u64, i: usize) -> usize
    requires { (k ≤ most_coefficients) × (pairs ≤ most_pairs) × (i ≤ 2 ^ 62) }
    ensures { result ≡ 2 * k * pairs + i }
{
    (2 * k * pairs) as usize + i
}

// The bytes of the whole pairs among them.
fn whole_bytes(k: u64, bytes: usize) -> usize
    requires { (1 ≤ k) × (k ≤ most_coefficients) }
    ensures { result ≡ whole_bytes k bytes }
{
    let pair = pair_bytes(k) as usize;
    bytes / pair * pair
}
