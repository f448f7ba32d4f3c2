// Numbers of a section of the line.
use crate::faults::Fault;
use crate::places::{part, section_end, section_start};
use texts::reading::read_numbers;

// Those between two places of the section, as many as there is room for, none above most: the part of the list that has them.
pub fn read<'a>(
    section: &[u8],
    from: usize,
    to: usize,
    most: u64,
    out: &'a mut [u64],
) -> Result<&'a mut [u64], Fault> {
    match read_numbers(part(section, from, to), most, out) {
        Ok(n) => Ok(&mut out[..n]),
        Err(stop) => Err(Fault::from(stop).moved(from)),
    }
}

// The same where the numbers are no list: one more than there is room for is no call.
pub fn read_few<'a>(
    section: &[u8],
    from: usize,
    to: usize,
    most: u64,
    out: &'a mut [u64],
) -> Result<&'a mut [u64], Fault> {
    match read(section, from, to, most, out) {
        Err(Fault::Many(i)) => Err(Fault::What(i)),
        read => read,
    }
}

// As many numbers as there is room for: one more is no call, and one less neither.
pub fn read_all(
    section: &[u8],
    from: usize,
    to: usize,
    most: u64,
    out: &mut [u64],
) -> Result<(), Fault> {
    let room = out.len();
    if read_few(section, from, to, most, out)?.len() < room {
        return Err(Fault::What(to));
    }
    Ok(())
}

pub fn read_exactly<const N: usize>(
    section: &[u8],
    from: usize,
    to: usize,
    most: u64,
) -> Result<[u64; N], Fault> {
    let mut numbers = [0u64; N];
    read_all(section, from, to, most, &mut numbers)?;
    Ok(numbers)
}

// The one number after the colon that has j others before it.
pub fn number_after(text: &[u8], j: usize) -> Result<u64, Fault> {
    let start = section_start(text, j);
    let [n] = read_exactly::<1>(text, start, section_end(text, j), u64::MAX)?;
    Ok(n)
}
