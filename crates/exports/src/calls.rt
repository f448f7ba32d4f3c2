// Pairs fed to a record in calls of a given size.
ghost use Rattle.std.specs.Prelude.{◌≡◌, ◌<◌, length};
ghost use Rattle.packed.specs.Running.{Coherent, Feeds};

use packed::running::{Fed, Record, feed};

// What one call with all pairs gives, size pairs at a time. Lists of two lengths have no pairs, and a size of 0 cuts nothing: they go to feed as they are.
pub fn feed_in_calls(running: Record, xs: &[u16], ys: &[u16], size: usize) -> Fed
    requires { Coherent running.setting running.sum }
    ensures { Feeds running xs.now ys.now result }
{
    let k = running.setting.k as usize;
    if xs.len() != ys.len() || size == 0 || xs.len() / k < size {
        return feed(running, xs, ys);
    }
    feed_steps(running, xs, ys, size * k)
}

// The same, step coefficients of each list at a time. Where a call is refused, feed is asked about all pairs, so that the refusal and its place speak of the
// whole lists.
fn feed_steps(running: Record, xs: &[u16], ys: &[u16], step: usize) -> Fed
    requires { Coherent running.setting running.sum × (length xs.now ≡ length ys.now) × (0 < step) }
    ensures { Feeds running xs.now ys.now result }
{
    let mut so_far = running;
    let mut pairs = 0;
    for at in (0..xs.len()).step_by(step) {
        let end = at + step.min(xs.len() - at);
        let fed = feed(so_far, &xs[at..end], &ys[at..end]);
        let Ok(more) = fed.answer else {
            return feed(running, xs, ys);
        };
        pairs += more;
        let next = fed.running;
        so_far = next;
    }
    Fed {
        running: so_far,
        answer: Ok(pairs),
    }
}
