// The verbs that are given bytes: those of tables, and of a job.
use crate::call::Call;
use crate::copies::bytes;
use crate::held::Held;
use crate::limits::{LIST, MARK};
use crate::places::part;
use crate::shown::put_writing;
use crate::shown_records::job_line;
use crate::verbs::Verb;
use jobs::state::{HELD, Stage, State, take};
use packed::running::Record;
use settings::refusals::Numbered;
use settings::setting::Setting;
use tables::{pick, reduce_by_table};
use texts::putting::{put, put_list, put_spaced};

// The first byte of a table's entries.
const ENTRIES: usize = 8;

// Not inlined: its buffers take stack only while it runs.
#[inline(never)]
pub fn answer_bytes(
    verb: Verb,
    held: &mut Held,
    call: Call,
    xs: &[u64],
    ys: &[u64],
    out: &mut [u8],
) -> usize {
    let mut buffer = [0u8; LIST];
    let first = bytes(xs, &mut buffer);
    match verb {
        Verb::Take => {
            held.job = take(held.job, first);
            put(b"taken", out, 0)
        }
        Verb::ByTable => reduced_line(call, first, ys, out),
        _ => pick_line(call.setting(), first, ys, out),
    }
}

// Not inlined, as the one below: a function sets its buffers to zero when it is entered, and `take` needs neither.
#[inline(never)]
fn reduced_line(call: Call, table: &[u8], xs: &[u64], out: &mut [u8]) -> usize {
    put_writing(
        call.options,
        &mut [MARK; LIST],
        out,
        |list: &mut [u64]| reduce_by_table(call.setting(), table, xs, list),
    )
}

#[inline(never)]
fn pick_line(s: Setting, first: &[u8], xs: &[u64], out: &mut [u8]) -> usize {
    let mut buffer = [0u8; LIST];
    picked_line(s, first, bytes(xs, &mut buffer), out)
}

// The held job's state is set to these numbers, whatever they are.
pub fn set_job(held: &mut Held, call: Call, xs: &[u64], out: &mut [u8]) -> usize {
    held.job = job_of(call, held.running, xs);
    job_line(held.job, out)
}

// The state with the held record in it. Bytes that are not given are zeros.
fn job_of(call: Call, running: Record, xs: &[u64]) -> State {
    let [stage, number, place, size, pairs, _] = call.numbers;
    let mut held = [0u8; HELD];
    bytes(xs, &mut held);
    State {
        stage: stage_of(stage, Numbered { number, place }),
        held,
        size: size as usize,
        pairs,
        running,
    }
}

fn stage_of(stage: u64, why: Numbered) -> Stage {
    match stage {
        0 => Stage::Header,
        1 => Stage::Pairs,
        _ => Stage::Refused(why),
    }
}

// Where the entries stand is not seen in them. So pick is asked again, with nothing for the second buffer: what it hands back then is a part of the first.
fn picked_line(s: Setting, first: &[u8], second: &[u8], out: &mut [u8]) -> usize {
    let entries = pick(s, first, second);
    if entries.is_empty() {
        return put(b"none", out, 0);
    }
    if pick(s, first, &first[..0]).is_empty() {
        let at = put(b"second", out, 0);
        put_entries(entries, second, out, at)
    } else {
        let at = put(b"first", out, 0);
        put_entries(entries, first, out, at)
    }
}

// Their place is that of the table's layout, and is told where they do stand there.
fn put_entries(entries: &[u8], buffer: &[u8], out: &mut [u8], at: usize) -> usize {
    if part(buffer, ENTRIES, entries.len().saturating_add(ENTRIES)) != entries {
        return put(b" elsewhere", out, at);
    }
    let place = put_spaced(ENTRIES as u64, out, at);
    let colon = put(b":", out, place);
    put_list(entries, out, colon)
}
