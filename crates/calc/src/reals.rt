// Doubles, as they are typed and shown: `4290`, `1 over 3`, `bits 1`, `nan`, and each of them after `minus`.
use crate::faults::Fault;
use crate::numbers::read_exactly;
use crate::places::{check_end, filled, is_word, letter, part, section, section_start, word_end};
use std::num::{nearest_u64_to_f64, truncating_f64_to_u64};
use texts::putting::{put, put_spaced};

// The bit of a double's sign.
const SIGN: u64 = 0x8000_0000_0000_0000;

// The bits that are set in infinity. A NaN has the same, and others.
const INFINITY: u64 = 0x7ff0_0000_0000_0000;

// The double after the colon that has j others before it.
pub fn double_at(text: &[u8], j: usize) -> Result<f64, Fault> {
    signed(section(text, j)).map_err(|fault| fault.moved(section_start(text, j)))
}

fn signed(alone: &[u8]) -> Result<f64, Fault> {
    let start = filled(alone, 0);
    if is_word(alone, start, b"minus") {
        Ok(-unsigned(alone, filled(alone, word_end(alone, start)))?)
    } else {
        unsigned(alone, start)
    }
}

fn unsigned(alone: &[u8], start: usize) -> Result<f64, Fault> {
    let from = word_end(alone, start);
    match part(alone, start, from) {
        b"nan" => {
            check_end(alone, from)?;
            Ok(f64::NAN)
        }
        b"bits" => {
            let [bits] = read_exactly::<1>(alone, from, alone.len(), u64::MAX)?;
            Ok(of_bits(bits))
        }
        _ => quotient(alone, start),
    }
}

// A number, or a number over another.
fn quotient(alone: &[u8], start: usize) -> Result<f64, Fault> {
    let end = letter(alone, start);
    let [above] = read_exactly::<1>(alone, start, end, u64::MAX)?;
    if alone.len() <= end {
        return Ok(nearest_u64_to_f64(above));
    }
    if !is_word(alone, end, b"over") {
        return Err(Fault::What(end));
    }
    let [below] = read_exactly::<1>(alone, word_end(alone, end), alone.len(), u64::MAX)?;
    Ok(nearest_u64_to_f64(above) / nearest_u64_to_f64(below))
}

pub fn put_double(x: f64, out: &mut [u8], at: usize) -> usize {
    if x.is_nan() {
        return put(b" nan", out, at);
    }
    let bits = x.to_bits();
    if bits < SIGN {
        return put_size(x, bits, out, at);
    }
    let minus = put(b" minus", out, at);
    put_size(-x, bits - SIGN, out, minus)
}

// A double with no sign, and its bits.
fn put_size(x: f64, bits: u64, out: &mut [u8], at: usize) -> usize {
    if x > -1.0 && x < 18446744073709551616.0 {
        let whole = truncating_f64_to_u64(x);
        if nearest_u64_to_f64(whole) == x {
            return put_spaced(whole, out, at);
        }
    }
    let name = put(b" bits", out, at);
    put_spaced(bits, out, name)
}

// No NaN can be made of its bits: another stands for it.
fn of_bits(bits: u64) -> f64 {
    if INFINITY < bits % SIGN {
        f64::NAN
    } else {
        f64::from_bits(bits)
    }
}
