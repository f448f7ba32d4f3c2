// The verbs that are given numbers alone.
use crate::call::{Call, Options};
use crate::held::Held;
use crate::limits::{LIST, MARK};
use crate::places::part;
use crate::shown::{
    put_accepted, put_kept, put_named, put_unwritten, put_writing, put_written, put_wrote,
};
use crate::shown_records::{job_line, lane_line, record_line};
use crate::verbs::{Verb, help_line};
use jobs::state::{State, finish, start};
use lane::make;
use packed::running::{Record, close, fresh};
use settings::refusals::Refusal;
use settings::setting::{accept, check, choose};
use tables::build;
use texts::putting::put;

pub fn answer_numbers(
    verb: Verb,
    held: &mut Held,
    call: Call,
    out: &mut [u8],
) -> Result<usize, Refusal> {
    let s = call.setting();
    Ok(match verb {
        Verb::Choose => width_line(call, out)?,
        Verb::Check => put_accepted(check(s), out)?,
        // The fresh record is held also where its setting is refused; the lane that was held stays then.
        Verb::Fresh => {
            let begun = fresh(s);
            held.running = begun.running;
            put_accepted(begun.answer, out)?
        }
        Verb::Make => {
            held.lane = make(s)?;
            lane_line(held.lane, out)
        }
        Verb::Start => {
            held.job = start();
            put(b"started", out, 0)
        }
        Verb::Record => record_line(held.running, out),
        Verb::Lane => lane_line(held.lane, out),
        Verb::Job => job_line(held.job, out),
        Verb::Help => help_line(out),
        Verb::Build => table_line(call, out),
        Verb::Close => close_line(held.running, call.options, out),
        _ => finish_line(held.job, call.options, out),
    })
}

fn width_line(call: Call, out: &mut [u8]) -> Result<usize, Refusal> {
    let [p, k, n, ..] = call.numbers;
    // The width is taken out by `let .. else`, as the project asks of whoever calls choose.
    let chosen = choose(p, k, n);
    let Ok(width) = chosen else {
        // What stands in the way of a width.
        return chosen.map(|_| 0);
    };
    Ok(put_named(b"width", width, out))
}

// Not inlined, as the two below: a function sets its buffers to zero when it is entered, and so each verb that is lent one has a function of its own.
#[inline(never)]
fn table_line(call: Call, out: &mut [u8]) -> usize {
    let s = call.setting();
    put_writing(
        call.options,
        &mut [MARK as u8; LIST],
        out,
        |list: &mut [u8]| build(s, list),
    )
}

#[inline(never)]
fn close_line(running: Record, options: Options, out: &mut [u8]) -> usize {
    let mut list = [MARK as u16; LIST];
    match close(running, options.lend(&mut list)) {
        Ok(m) => put_written(b"reductions", m, places(running), options, &list, out),
        Err(why) => put_unwritten(why, options, &list, out),
    }
}

// How many coefficients closing writes, where it does: its setting is accepted then.
fn places(running: Record) -> usize {
    accept(running.setting).map_or(0, |s| s.places())
}

#[inline(never)]
fn finish_line(job: State, options: Options, out: &mut [u8]) -> usize {
    let mut line = [MARK as u8; LIST];
    match finish(job, options.lend(&mut line)) {
        Ok(size) if !options.is_digest => put_text(size, options, &line, out),
        answer => put_wrote(answer, options, &line, out),
    }
}

// The job's line as text, without its end.
fn put_text(size: usize, options: Options, line: &[u8], out: &mut [u8]) -> usize {
    let at = put_named(b"wrote", size as u64, out);
    let colon = put(b": ", out, at);
    let text = put(part(line, 0, size.saturating_sub(1)), out, colon);
    put_kept(size, options, line, out, text)
}
