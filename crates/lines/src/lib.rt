// The lines of exports_cases, piece by piece, on what is given to print on. Numbers are decimal, with a space before each.
#![tactic(auto)]

ghost use Rattle.lines.specs.Lines.{Prints, PrintsList};

pub fn text(rt: &impl Print, piece: &[u8])
    ensures { PrintsList piece.now piece.now result }
{
    // As before, a write that fails is passed over.
    let _ = rt.write_all(piece);
}

pub fn end(rt: &impl Print)
    ensures { Prints result }
{
    text(rt, b"\n");
}

pub fn number(rt: &impl Print, n: u64)
    ensures { Prints result }
{
    text(rt, b" ");
    let _ = rt.print(n);
}

pub fn setting(rt: &impl Print, setting: [u64; 4])
    ensures { Prints result }
{
    numbers(rt, &setting);
}

// The elements of a list, of any type that 64 bits hold.
pub fn numbers<T: Copy + Into<u64>>(rt: &impl Print, xs: &[T])
    ensures { PrintsList xs.now xs.now result }
{
    for x in xs {
        number(rt, (*x).into());
    }
}

// A list, or of a long one its length and its digest.
pub fn list(rt: &impl Print, xs: &[u16])
    ensures { PrintsList xs.now xs.now result }
{
    if xs.len() <= 16 {
        numbers(rt, xs);
        return;
    }
    number(rt, xs.len() as u64);
    text(rt, b" with digest");
    number(rt, digest(xs));
}

// A number in which every coefficient counts with its place: times 257 and the next one added, again and again, modulo the prime 1,000,003.
fn digest(xs: &[u16]) -> u64 {
    let mut sum = 0;
    for x in xs {
        sum = (sum * 257 + u64::from(*x)) % 1000003;
    }
    sum
}
