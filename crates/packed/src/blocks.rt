// A list as the words of its blocks: k coefficients to a word, the last block filled with zeros. No block is packed twice.
ghost use Rattle.std.specs.Prelude.{◌≡◌, ◌+◌, ◌^◌, ◌≤◌, length};
ghost use Rattle.polynomials.specs.Indices.{filled};
ghost use Rattle.polynomials.specs.Blocks.{block_at};
ghost use Rattle.settings.specs.Limits.{longest_factor};
ghost use Rattle.packed.specs.Taken.{taken};
ghost use Rattle.packed.specs.Gathering.{Packable, packed_back};

use crate::arithmetic::pack_taken;
use settings::accepted::Accepted;

// The words of the first count blocks, the lowest first.
pub fn pack_blocks(s: Accepted, xs: &[u16], count: usize, out: &mut [u64])
    requires { Packable s.setting xs.now × (count ≤ longest_factor) × (count ≤ length out.old) }
    ensures { out.new ≡ filled count (block_at (2 ^ s.setting.t) s.setting.k (taken s.setting.p xs.now)) out.old }
{
    for i in 0..count {
        out[i] = pack_block(s, xs, i);
    }
}

// The words of count blocks, the highest first, after a zero for each of three columns that follow a first one: blocks past the last are empty.
pub fn pack_back(s: Accepted, xs: &[u16], count: usize, out: &mut [u64])
    requires { Packable s.setting xs.now × (count ≤ longest_factor) × (count + 3 ≤ length out.old) }
    ensures { out.new ≡ filled (count + 3) (packed_back s.setting xs.now count) out.old }
{
    for i in 0..count + 3 {
        out[i] = pack_block(s, xs, count + 2 - i);
    }
}

// The word of block i.
fn pack_block(s: Accepted, xs: &[u16], i: usize) -> u64
    requires { Packable s.setting xs.now × (i ≤ longest_factor + 2) }
    ensures { result ≡ block_at (2 ^ s.setting.t) s.setting.k (taken s.setting.p xs.now) i }
{
    let k = s.setting.k as usize;
    let start = (i * k).min(xs.len());
    let end = (start + k).min(xs.len());
    pack_taken(s.setting.p, s.setting.t, &xs[start..end])
}
