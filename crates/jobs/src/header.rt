// The header: its bytes are held until it is complete, and then its checks are made.
ghost use Rattle.std.specs.Prelude.{◌≡◌, ◌++◌, ◌<◌};
ghost use Rattle.settings.specs.Answers.{fine};
ghost use Rattle.settings.specs.Refusals.{number_of, place_told, says};
ghost use Rattle.jobs.specs.Jobs.{header_bytes, setting_in, declared_pairs, header_checks};
ghost use Rattle.jobs.specs.States.{held_in, header_after, settled};
ghost use Rattle.jobs.specs.States.{blank as States·blank};

use crate::adding::{add_bytes, pair_bytes};
use crate::bytes::{four, joined, one};
use crate::state::{HELD, Stage, State};
use packed::running::{Record, fresh};
use settings::limits::MOST_PAIRS;
use settings::refusals::Refusal;
use settings::setting::{Setting, check};

pub const HEADER_SIZE: usize = 15;

// What the length counts of the header.
const COUNTED: u64 = 11;

pub fn take_header(state: State, piece: &[u8]) -> State
    requires { state.size < header_bytes }
    ensures { result ≡ header_after (held_in state ++ piece.now) }
{
    let size = state.size;
    let held = state.held;
    let end = (HEADER_SIZE - size).min(piece.len());
    let header = joined(&held[..size], &piece[..end]);
    if size + end < HEADER_SIZE {
        return State {
            stage: Stage::Header,
            held: header,
            size: size + end,
            pairs: 0,
            running: blank(),
        };
    }
    let mut complete = [0u8; HEADER_SIZE];
    complete.copy_from_slice(&header[..HEADER_SIZE]);
    open(&complete, &piece[end..])
}

// The header is complete.
fn open(header: &[u8; HEADER_SIZE], rest: &[u8]) -> State
    ensures { result ≡ header_after (header.now ++ rest.now) }
{
    match check_header(header) {
        Ok(()) => add_bytes(
            fresh(setting_in(header)).running,
            declared_pairs(header),
            rest,
        ),
        Err(why) => refused(why),
    }
}

// 17, 1 to 6, 17, 13.
fn check_header(header: &[u8; HEADER_SIZE]) -> Result<(), Refusal>
    ensures { says result ≡ header_checks header.now }
{
    if one(header, 4) != 1 {
        return Err(Refusal::Job);
    }
    let length = four(header, 0);
    if length < COUNTED {
        return Err(Refusal::Job);
    }
    let s = setting_in(header);
    check(s)?;
    if (length - COUNTED) % pair_bytes(s.k) != 0 {
        return Err(Refusal::Job);
    }
    if MOST_PAIRS < (length - COUNTED) / pair_bytes(s.k) {
        return Err(Refusal::Full);
    }
    Ok(())
}

fn setting_in(header: &[u8; HEADER_SIZE]) -> Setting
    ensures { result ≡ setting_in header.now }
{
    Setting {
        p: four(header, 5),
        k: one(header, 9),
        t: one(header, 10),
        n: four(header, 11),
    }
}

fn declared_pairs(header: &[u8; HEADER_SIZE]) -> u64
    requires { header_checks header.now ≡ fine }
    ensures { result ≡ declared_pairs header.now }
{
    (four(header, 0) - COUNTED) / pair_bytes(one(header, 9))
}

// A refusal that no further byte can change.
pub fn refused(why: Refusal) -> State
    ensures { result ≡ settled (number_of why) (place_told why) }
{
    State {
        stage: Stage::Refused(why.into()),
        held: [0u8; HELD],
        size: 0,
        pairs: 0,
        running: blank(),
    }
}

// A record where there is none.
pub fn blank() -> Record
    ensures { result ≡ States·blank }
{
    let none = Setting {
        p: 0,
        k: 0,
        t: 0,
        n: 0,
    };
    fresh(none).running
}
