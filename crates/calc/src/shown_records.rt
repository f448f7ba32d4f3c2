// What calc holds, shown: the running record, the lane record, the state of a job.
use crate::reals::put_double;
use jobs::state::{Stage, State};
use lane::Lane;
use packed::running::Record;
use settings::setting::Setting;
use texts::putting::{put, put_list};

pub fn record_line(running: Record, out: &mut [u8]) -> usize {
    let at = put(b"record", out, 0);
    put_record(running, out, at)
}

fn put_record(running: Record, out: &mut [u8], at: usize) -> usize {
    let sum = running.sum;
    let setting = put_setting(running.setting, out, at);
    let numbers = put_list(&[sum.total, sum.word], out, setting);
    let colon = put(b" :", out, numbers);
    put_list(&sum.residues, out, colon)
}

fn put_setting(s: Setting, out: &mut [u8], at: usize) -> usize {
    put_list(&[s.p, s.k, s.t, s.n], out, at)
}

pub fn lane_line(lane: Lane, out: &mut [u8]) -> usize {
    let at = put(b"lane", out, 0);
    let setting = put_setting(lane.setting, out, at);
    let p = put_part(lane.p, out, setting);
    let q = put_part(lane.q, out, p);
    put_part(lane.inverse, out, q)
}

fn put_part(x: f64, out: &mut [u8], at: usize) -> usize {
    let colon = put(b" :", out, at);
    put_double(x, out, colon)
}

pub fn job_line(state: State, out: &mut [u8]) -> usize {
    let [stage, number, place] = stage_numbers(state.stage);
    let at = put(b"job", out, 0);
    let numbers = put_list(
        &[stage, number, place, state.size as u64, state.pairs],
        out,
        at,
    );
    let colon = put(b" :", out, numbers);
    let held = put_list(&state.held, out, colon);
    let last = put(b" :", out, held);
    put_record(state.running, out, last)
}

// Where there is no refusal two zeros stand for it.
fn stage_numbers(stage: Stage) -> [u64; 3] {
    match stage {
        Stage::Header => [0, 0, 0],
        Stage::Pairs => [1, 0, 0],
        Stage::Refused(why) => [2, why.number, why.place],
    }
}
