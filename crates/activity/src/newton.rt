// The whole root of a number, by Newton's steps: a guess becomes the mean of itself and the number divided by it. From
// any guess above 0 the first step is not below the root, and each further one is nearer to it. Two or three divisions
// are enough; the library's `isqrt` halves 32 times, and a bracket then takes more than twice as long.
ghost use Rattle.std.specs.Prelude.{◌≡◌, ◌+◌, ◌*◌, ◌/◌, ◌≤◌, ◌<◌};
ghost use Rattle.activity.specs.Strength.{strongest};
ghost use Rattle.activity.specs.Steps.{greatest_root};

// No root of a strength is above this one, so no guess need be: the square of a guess has room.
const GREATEST_ROOT: u64 = 282843;

// The greatest whole number whose square is at most x.
pub fn whole_root(x: u64) -> u64
    requires { x ≤ greatest_root * greatest_root }
    ensures { (result * result ≤ x) × (x < (result + 1) * (result + 1)) }
{
    // A guess that is not below the root.
    let mut root = step(x, start(x)).min(GREATEST_ROOT);
    while x < root * root {
        root = step(x, root);
    }
    root
}

// Newton's step.
fn step(x: u64, guess: u64) -> u64
    requires { (0 < guess) × (guess ≤ strongest) × (x ≤ strongest) }
    ensures { result ≡ (guess + x / guess) / 2 }
{
    (guess + x / guess) / 2
}

// A number near the root: x has about twice `half` bits, and this is Newton's step from 2^half, by a shift in place of a
// division. Any number above 0 would do, so nothing else is promised of it.
fn start(x: u64) -> u64
    requires { x ≤ greatest_root * greatest_root }
    ensures { (0 < result) × (result ≤ strongest) }
{
    let half = (u64::BITS - x.leading_zeros()) / 2;
    ((1 << half) + (x >> half)) / 2 + 1
}
