// Lists are copied between elements of 8, 16 and 64 bits.

// Each element as `turn` makes it, as many as there is room for: the part of the buffer that has them.
pub fn copied<'a, A: Copy, B: Copy, F: Fn(A) -> B>(
    xs: &[A],
    out: &'a mut [B],
    turn: F,
) -> &'a mut [B]
    requires { F.IsAlwaysCallable turn }
{
    let n = xs.len().min(out.len());
    for (x, place) in xs.iter().zip(out.iter_mut()) {
        *place = turn(*x);
    }
    &mut out[..n]
}

// The elements of a list of bytes are below 256: reading saw to that.
pub fn bytes<'a>(xs: &[u64], out: &'a mut [u8]) -> &'a mut [u8] {
    copied(xs, out, |x| (x % 256) as u8)
}

// The same below 65,536.
pub fn coefficients<'a>(xs: &[u64], out: &'a mut [u16]) -> &'a mut [u16] {
    copied(xs, out, |x| (x % 65536) as u16)
}
