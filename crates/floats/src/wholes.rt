// A float to a whole number: the nearest, and the least above.
ghost use Rattle.std.specs.Prelude.{◌≡◌};
ghost use Rattle.floats.specs.Wholes.{round_of, ceil_of};

use crate::bits::whole_of;

// Inner: Rust's `x.round() as u64`: the nearest whole number, a half away from zero. From 2 ^ 52 on a float is whole already, and
// below it twice x is exact, so that no half is lost.
pub fn round_of(x: f64) -> u64
    ensures { result ≡ round_of x }
{
    if x < 4503599627370496.0 {
        let twice = whole_of(x + x);
        return twice / 2 + twice % 2;
    }
    whole_of(x)
}

// Inner: Rust's `x.ceil() as u64`: the least whole number that is no less than x.
pub fn ceil_of(x: f64) -> u64
    ensures { result ≡ ceil_of x }
{
    let t = whole_of(x);
    if t < 4503599627370496 {
        if std::num::nearest_u64_to_f64(t) < x {
            return t + 1;
        }
    }
    t
}
