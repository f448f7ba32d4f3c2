// Lists that are too long to be typed: `all`, `powers`, `built`.
use crate::copies::copied;
use crate::faults::Fault;
use crate::limits::LIST;
use crate::numbers::read_exactly;
use crate::places::{part, word_end};
use settings::setting::Setting;
use tables::build;

// The largest modulus of `powers`.
const LARGEST_MODULUS: u64 = 65537;

// The list that the word at `start` makes of the numbers from there up to `end`: the part of the buffer that has it.
pub fn made<'a>(
    section: &[u8],
    start: usize,
    end: usize,
    most: u64,
    out: &'a mut [u64],
) -> Result<&'a mut [u64], Fault> {
    let from = word_end(section, start);
    match part(section, start, from) {
        b"all" => all(
            read_exactly(section, from, end, u64::MAX)?,
            start,
            most,
            out,
        ),
        b"powers" => powers(
            read_exactly(section, from, end, u64::MAX)?,
            start,
            most,
            out,
        ),
        b"built" => built(read_exactly(section, from, end, u64::MAX)?, start, out),
        _ => Err(Fault::What(start)),
    }
}

// all M X
fn all<'a>(
    [count, element]: [u64; 2],
    start: usize,
    most: u64,
    out: &'a mut [u64],
) -> Result<&'a mut [u64], Fault> {
    let list = out.get_mut(..count as usize).ok_or(Fault::Many(start))?;
    if most < element {
        return Err(Fault::Large(start));
    }
    list.fill(element);
    Ok(list)
}

// powers M A B C D
fn powers<'a>(
    [count, first, ratio, modulus, below]: [u64; 5],
    start: usize,
    most: u64,
    out: &'a mut [u64],
) -> Result<&'a mut [u64], Fault> {
    if modulus == 0 || LARGEST_MODULUS < modulus || below == 0 {
        return Err(Fault::What(start));
    }
    let list = out.get_mut(..count as usize).ok_or(Fault::Many(start))?;
    let mut power = first % modulus;
    for place in list.iter_mut() {
        let element = power % below;
        if most < element {
            return Err(Fault::Large(start));
        }
        *place = element;
        power = power * (ratio % modulus) % modulus;
    }
    Ok(list)
}

// built P K T N
fn built<'a>(
    [p, k, t, n]: [u64; 4],
    start: usize,
    out: &'a mut [u64],
) -> Result<&'a mut [u64], Fault> {
    let mut table = [0u8; LIST];
    match build(Setting { p, k, t, n }, &mut table) {
        Ok(size) => Ok(copied(part(&table, 0, size), out, |x| u64::from(x))),
        Err(_) => Err(Fault::What(start)),
    }
}
