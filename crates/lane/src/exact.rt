// Sums, differences and products of whole numbers in doubles. What each asks keeps its result below 2^53, where a double holds it exactly. sum
// forms no double but by these and by the cast of a coefficient; reduce forms others in `quotients`, where one product is rounded.
ghost use Rattle.std.specs.Prelude.{◌+◌, ◌-◌, ◌*◌, ◌<◌, ◌≤◌};
ghost use Rattle.doubles.specs.Whole.{exact_below, whole_part, Held, Exact};

pub fn plus(x: f64, y: f64) -> f64
    requires { Exact x × Exact y × (whole_part x + whole_part y < exact_below) }
    ensures { Held result (whole_part x + whole_part y) }
{
    x + y
}

pub fn less(x: f64, y: f64) -> f64
    requires { Exact x × Exact y × (whole_part y ≤ whole_part x) }
    ensures { Held result (whole_part x - whole_part y) }
{
    x - y
}

pub fn times(x: f64, y: f64) -> f64
    requires { Exact x × Exact y × (whole_part x * whole_part y < exact_below) }
    ensures { Held result (whole_part x * whole_part y) }
{
    x * y
}
