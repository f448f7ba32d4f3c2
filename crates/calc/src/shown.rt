// Answers, put into the buffer for them. Each function answers the place after what it has put.
use crate::call::Options;
use crate::faults::Fault;
use crate::limits::MARK;
use settings::refusals::Refusal;
use texts::putting::{put, put_list, put_refusal, put_spaced};
use texts::whole::Whole;

pub fn put_fault(fault: Fault, out: &mut [u8]) -> usize {
    match fault {
        Fault::What(place) => put_named(b"what?", place as u64, out),
        Fault::Large(place) => put_named(b"too large", place as u64, out),
        Fault::Many(place) => put_named(b"too many", place as u64, out),
    }
}

// A word and a number.
pub fn put_named(name: &[u8], n: u64, out: &mut [u8]) -> usize {
    let at = put(name, out, 0);
    put_spaced(n, out, at)
}

// What a check says.
pub fn put_accepted(answer: Result<(), Refusal>, out: &mut [u8]) -> Result<usize, Refusal> {
    answer?;
    Ok(put(b"accepted", out, 0))
}

// A call that writes is lent the first elements of a list of marks, which goes on after them: a call that wrote beyond its end would be seen.
pub fn put_writing<T: Whole, F: FnOnce(&mut [T]) -> Result<usize, Refusal>>(
    options: Options,
    list: &mut [T],
    out: &mut [u8],
    write: F,
) -> usize
    requires { F.IsAlwaysCallable write }
{
    let answer = write(options.lend(list));
    put_wrote(answer, options, list, out)
}

// What a call wrote into the list.
pub fn put_wrote<T: Whole>(
    answer: Result<usize, Refusal>,
    options: Options,
    list: &[T],
    out: &mut [u8],
) -> usize {
    match answer {
        Ok(m) => put_written(b"wrote", m as u64, m, options, list, out),
        Err(why) => put_unwritten(why, options, list, out),
    }
}

// A word, a number, and the elements that were written.
pub fn put_written<T: Whole>(
    name: &[u8],
    n: u64,
    count: usize,
    options: Options,
    list: &[T],
    out: &mut [u8],
) -> usize {
    let at = put_named(name, n, out);
    let colon = put(b":", out, at);
    let elements = put_elements(count, options, list, out, colon);
    put_kept(count, options, list, out, elements)
}

// The refusal, and that nothing of what was lent was written.
pub fn put_unwritten<T: Whole>(
    why: Refusal,
    options: Options,
    list: &[T],
    out: &mut [u8],
) -> usize {
    let at = put_refusal(why.into(), out, 0);
    put_kept(0, options, list, out, at)
}

fn put_elements<T: Whole>(
    count: usize,
    options: Options,
    list: &[T],
    out: &mut [u8],
    at: usize,
) -> usize {
    let Some(written) = list.get(..count) else {
        return at;
    };
    if options.is_digest {
        let name = put(b" digest", out, at);
        put_spaced(digest(written), out, name)
    } else {
        put_list(written, out, at)
    }
}

// A number in which every element counts with its place.
fn digest<T: Whole>(xs: &[T]) -> u64 {
    let mut sum = 0u64;
    for x in xs {
        sum = (sum * 257 + x.value() % 1000003) % 1000003;
    }
    sum
}

// Where a list of some length was asked for: how many elements after the first ones still have the mark.
pub fn put_kept<T: Whole>(
    count: usize,
    options: Options,
    list: &[T],
    out: &mut [u8],
    at: usize,
) -> usize {
    let Some(lent) = options.lent else {
        return at;
    };
    if let Some(changed) = unmarked(count, list) {
        let name = put(b"; changed at", out, at);
        return put_spaced(changed as u64, out, name);
    }
    if lent < count {
        return at;
    }
    let name = put(b"; kept", out, at);
    put_spaced((lent - count) as u64, out, name)
}

// The first place from i on that has no mark.
fn unmarked<T: Whole>(i: usize, list: &[T]) -> Option<usize> {
    for at in i..list.len() {
        if list[at].value() != MARK {
            return Some(at);
        }
    }
    None
}
