// The lists that a call is given.
use crate::faults::Fault;
use crate::limits::LIST;
use crate::lists::read_list;
use crate::places::{section, section_start};
use jobs::state::HELD;
use settings::limits::RESIDUE_PLACES;

// What a list is made of, and so the most that an element may be.
#[derive(Clone, Copy)]
pub enum Given {
    Double,
    // One number, and no word that says what the list is.
    OneWord,
    Words,
    Bytes,
    // Bytes, and no more than a job's state has.
    HeldBytes,
    Coefficients,
    // Coefficients, and no more than a record has residues.
    Residues,
}

impl Given {
    fn most(self) -> u64 {
        match self {
            Given::Double | Given::OneWord | Given::Words => u64::MAX,
            Given::Bytes | Given::HeldBytes => u64::from(u8::MAX),
            Given::Coefficients | Given::Residues => u64::from(u16::MAX),
        }
    }

    fn longest(self) -> usize {
        match self {
            Given::HeldBytes => HELD,
            Given::Residues => RESIDUE_PLACES,
            _ => LIST,
        }
    }
}

// The list after the colon that has j others before it: the empty one, where the verb takes none.
pub fn read_given<'a>(
    text: &[u8],
    j: usize,
    given: Option<Given>,
    out: &'a mut [u64],
) -> Result<&'a [u64], Fault> {
    let Some(given) = given else {
        return Ok(&out[..0]);
    };
    let start = section_start(text, j);
    let list = read_list(section(text, j), given.most(), out).map_err(|fault| fault.moved(start))?;
    if given.longest() < list.len() {
        return Err(Fault::Many(start));
    }
    Ok(list)
}
