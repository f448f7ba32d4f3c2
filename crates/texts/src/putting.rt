// Text is put into a lent buffer from a place on, since there is no heap, and each call answers the place for the next. Where the buffer ends first, what
// has room stands there, and the place is one more than the buffer has: so one test at the end tells whether all had room.
ghost use Rattle.std.specs.Prelude.{[], ◌∷◌, map};
ghost use Rattle.layout.specs.Decimals.{decimal};
ghost use Rattle.texts.specs.Putting.{spaced, refused_text, Puts};

use crate::whole::Whole;
use settings::refusals::Numbered;

// The digits of the largest number.
const MOST_DIGITS: usize = 20;

pub fn put(text: &[u8], out: &mut [u8], at: usize) -> usize
    ensures { Puts at text.now out.old result out.new }
{
    let size = out.len();
    if size < at {
        return size + 1;
    }
    for (i, byte) in text.iter().enumerate() {
        let place = at + i;
        if size <= place {
            return size + 1;
        }
        out[place] = *byte;
    }
    at + text.len()
}

// Its digits, from the last one on. The loop ends where nothing is left: a `for` over the places would go on to a return that no number reaches.
pub fn put_number(n: u64, out: &mut [u8], at: usize) -> usize
    ensures { Puts at (decimal n) out.old result out.new }
{
    let mut bytes = [0u8; MOST_DIGITS];
    let mut rest = n;
    let mut i = MOST_DIGITS;
    loop {
        i -= 1;
        bytes[i] = b'0' + (rest % 10) as u8;
        rest /= 10;
        if rest == 0 {
            return put(&bytes[i..], out, at);
        }
    }
}

// A space, and the number.
pub fn put_spaced(n: u64, out: &mut [u8], at: usize) -> usize
    ensures { Puts at (spaced (n ∷ [])) out.old result out.new }
{
    let next = put(b" ", out, at);
    put_number(n, out, next)
}

// Numbers, a space before each. A place that is too far is answered as the one after the last, also where the list is empty.
pub fn put_list<T: Whole>(ns: &[T], out: &mut [u8], at: usize) -> usize
    ensures { Puts at (spaced (map T.value ns.now)) out.old result out.new }
{
    let mut next = put(b"", out, at);
    for n in ns {
        next = put_spaced(n.value(), out, next);
    }
    next
}

// `refused`, number and place.
pub fn put_refusal(why: Numbered, out: &mut [u8], at: usize) -> usize
    ensures { Puts at (refused_text why.number why.place) out.old result out.new }
{
    let number = put(b"refused", out, at);
    let place = put_spaced(why.number, out, number);
    put_spaced(why.place, out, place)
}
