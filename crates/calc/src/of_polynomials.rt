// The verbs that are given coefficients.
use crate::call::Call;
use crate::copies::coefficients;
use crate::held::Held;
use crate::limits::{LIST, MARK};
use crate::of_doubles::put_lane_word;
use crate::shown::{put_accepted, put_named, put_writing};
use crate::shown_records::record_line;
use crate::verbs::Verb;
use packed::packing::pack;
use packed::products::product;
use packed::running::{Record, Sum, feed};
use settings::coefficients::{check_coefficients, first_bad};
use settings::limits::RESIDUE_PLACES;
use settings::refusals::Refusal;
use texts::putting::put;

// Not inlined: its buffers take stack only while it runs.
#[inline(never)]
pub fn answer_coefficients(
    verb: Verb,
    held: &mut Held,
    call: Call,
    xs: &[u64],
    ys: &[u64],
    out: &mut [u8],
) -> Result<usize, Refusal> {
    let mut first = [0u16; LIST];
    let xs = coefficients(xs, &mut first);
    let mut second = [0u16; LIST];
    let ys = coefficients(ys, &mut second);
    let [n, ..] = call.numbers;
    Ok(match verb {
        Verb::Feed => {
            let fed = feed(held.running, xs, ys);
            held.running = fed.running;
            put_named(b"took", fed.answer? as u64, out)
        }
        Verb::Coefficients => put_accepted(check_coefficients(n, xs, ys), out)?,
        Verb::First => put_named(b"index", first_bad(n, xs).unwrap_or(xs.len()) as u64, out),
        Verb::Pack => put_named(b"word", pack(call.setting(), xs)?, out),
        Verb::Passes => put_passing(labels::check(n, xs)?, out),
        Verb::LaneSum => put_lane_word(lane::sum(held.lane, xs, ys)?, out),
        Verb::Product => product_line(call, xs, ys, out),
        _ => label_line(call, xs, out),
    })
}

fn product_line(call: Call, xs: &[u16], ys: &[u16], out: &mut [u8]) -> usize {
    let s = call.setting();
    put_writing(
        call.options,
        &mut [MARK as u16; LIST],
        out,
        |list: &mut [u16]| product(s, xs, ys, list),
    )
}

fn label_line(call: Call, content: &[u16], out: &mut [u8]) -> usize {
    let [level, ..] = call.numbers;
    put_writing(
        call.options,
        &mut [MARK as u16; LIST],
        out,
        |list: &mut [u16]| labels::write(level, content, list),
    )
}

fn put_passing(passes: bool, out: &mut [u8]) -> usize {
    if passes {
        put(b"passes", out, 0)
    } else {
        put(b"fails", out, 0)
    }
}

// The held record is set to these numbers, whatever they are.
pub fn set_record(held: &mut Held, call: Call, xs: &[u64], out: &mut [u8]) -> usize {
    held.running = record_of(call, xs);
    record_line(held.running, out)
}

// Residues that are not given are zeros.
fn record_of(call: Call, xs: &[u64]) -> Record {
    let [_, _, _, _, total, word] = call.numbers;
    let mut residues = [0u16; RESIDUE_PLACES];
    coefficients(xs, &mut residues);
    Record {
        setting: call.setting(),
        sum: Sum {
            total,
            word,
            residues,
        },
    }
}
