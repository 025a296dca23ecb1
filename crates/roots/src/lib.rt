// The square root, correctly rounded.
//
// Document 01, Leaves. An inner call: the crates above share it, and it refuses nothing.
//
// The root is guessed with a few rounded operations, and one test with whole numbers tells whether the guess is the nearest.
// Where it isn't, the root is taken digit by digit. So nothing need be known of the guess.
#![tactic(auto)]

ghost use Rattle.std.specs.Prelude.{◌≡◌, true, ◌+◌, ◌*◌, ◌^◌, ◌≤◌, ◌<◌};
ghost use Rattle.roots.specs.Roots.{nearest_whole, root_bits, sqrt_of, infinite};

use floats::bits::{bits_of, float_of};

// 2 ^ 52, the weight of the exponent's field in a float's bits
const HIDDEN: u64 = 0x10_0000_0000_0000;
// the bits of the infinity
const INFINITE: u64 = 0x7ff0_0000_0000_0000;
// half the bits of 1, less a little, so that a guess starts at most one part in twenty off
const HALF_OF_ONE: u64 = 0x1ff7_a3be_a91d_9b1b;
// 3 * 2 ^ 52: a sum with it is an even whole number
const CUT: f64 = 13510798882111488.0;

// the whole part of the root of a * 2 ^ 54, by one binary digit after another
fn root_by_digits(a: u64) -> u64
    requires { a < 2 ^ 54 }
    ensures { (result * result ≤ a * 2 ^ 54) × (a * 2 ^ 54 < (result + 1) * (result + 1)) × (result < 2 ^ 54) }
{
    let mut rest = 0u64;
    let mut root = 0u64;
    let mut left = a;
    for i in 0u64..54 {
        let t = rest * 4 + left / HIDDEN;
        left = left % HIDDEN * 4;
        if root * 4 < t {
            rest = t - (root * 4 + 1);
            root = root * 2 + 1;
        } else {
            rest = t;
            root = root * 2;
        }
    }
    root
}

// Whether y is the whole number nearest to the root of a * 2 ^ 52, for any y. No product of 64 bits holds the square of y, so
// it is taken in two parts: y is p * 2 ^ 26 + q, and its square high * 2 ^ 52 + low. low is kept 2 ^ 52 too large, so that nothing
// here is below zero.
fn is_nearest(a: u64, y: u64) -> bool
    requires { (a < 2 ^ 54) × (y < 2 ^ 53) }
    ensures { result ≡ nearest_whole a y }
{
    let p = y / 0x400_0000;
    let q = y % 0x400_0000;
    let cross = p * q;
    let high = p * p + cross / 0x200_0000;
    let low = cross % 0x200_0000 * 0x800_0000 + q * q + HIDDEN;
    if a + 1 < high {
        return false;
    }
    let apart = a + 1 - high;
    if apart > 4 {
        return false;
    }
    let rest = apart * HIDDEN;
    low < rest + y && rest <= low + y
}

// Halley's step: s with three times as many right digits of the root of x
fn halley(s: f64, x: f64) -> f64 {
    let square = s * s;
    s * (square + 3.0 * x) / (3.0 * square + x)
}

// A guess at the whole number nearest to the root of a * 2 ^ 52, of which its fifty-three digits alone are promised: two of Halley's steps from
// half the bits, and the remainder of that root cut to 26 digits, whose square is exact. It is wrong at 2 ^ 54 - 2 at least, where
// it rounds up to the next power of two: what fails the test goes digit by digit.
fn guess(a: u64) -> u64
    requires { a < 2 ^ 54 }
    ensures { result < 2 ^ 53 }
{
    let x = float_of(if a < 0x20_0000_0000_0000 {
        a + 0x4320_0000_0000_0000
    } else {
        a / 2 + 0x4330_0000_0000_0000
    });
    let s = halley(halley(float_of(bits_of(x) / 2 + HALF_OF_ONE), x), x);
    let cut = s + CUT - CUT;
    let root = cut + (x - cut * cut) / (cut + s);
    bits_of(root) % HIDDEN + HIDDEN
}

// the whole number nearest to the root of a * 2 ^ 52, where any guess will do
fn nearest_whole(a: u64, guessed: u64) -> u64
    requires { (2 ^ 52 ≤ a) × (a + 2 ≤ 2 ^ 54) }
    ensures { nearest_whole a result ≡ true }
{
    let y = guessed % 0x20_0000_0000_0000;
    if is_nearest(a, y) {
        return y;
    }
    (root_by_digits(a) + 1) / 2
}

// The same for a subnormal: its digits are multiplied by four until they are fifty-three or fifty-four.
fn lifted_root_bits(n: u64) -> u64
    requires { (0 < n) × (n < 2 ^ 52) }
    ensures { result ≡ root_bits n }
{
    let mut a = n;
    let mut power = 511u64;
    // Kept as a while: it ends by the value, power by power.
    while a < HIDDEN {
        a = a * 4;
        power = power - 1;
    }
    nearest_whole(a, guess(a)) + power * HIDDEN
}

// the bits of the root of a finite float above zero, from its bits and a guess at their digits
fn root_bits(n: u64, guessed: u64) -> u64
    requires { (0 < n) × (n < infinite) }
    ensures { result ≡ root_bits n }
{
    if n < HIDDEN {
        return lifted_root_bits(n);
    }
    let power = n / HIDDEN - 1;
    let digits = n % HIDDEN + HIDDEN;
    let a = if power % 2 == 0 { digits } else { digits * 2 };
    nearest_whole(a, guessed) + (power / 2 + 511) * HIDDEN
}

// Inner: a guess at the digits of x's root, for `sqrt_from`. It has at most fifty-three binary digits; nothing else is promised of it, since
// any guess will do. It has no branch, so that a loop of guesses runs on several lanes.
pub fn guess_root(x: f64) -> u64
    ensures { result < 2 ^ 53 }
{
    let n = bits_of(x);
    let digits = n % HIDDEN + HIDDEN;
    guess(if n / HIDDEN % 2 == 0 {
        digits * 2
    } else {
        digits
    })
}

// Inner: the square root, correctly rounded, whatever was guessed: of +0, -0 and the infinity themselves, of anything below zero a NaN.
// `sqrt_of` computes it digit by digit. Of a finite x above zero it is document 01's root, the nearest float, told by comparing squares, and
// there is one: laws `sqrt_rounded` and `rounded_unique`, proofs/Roots.
pub fn sqrt_from(x: f64, guessed: u64) -> f64
    ensures { result ≡ sqrt_of x }
{
    if x > 0.0 {
        let n = bits_of(x);
        if n < INFINITE {
            return float_of(root_bits(n, guessed));
        }
        return x;
    }
    if x == 0.0 {
        return x;
    }
    0.0 / 0.0
}

// Inner: the square root, by a guess of its own; document 01's by the laws named above `sqrt_from`.
pub fn sqrt(x: f64) -> f64
    ensures { result ≡ sqrt_of x }
{
    sqrt_from(x, guess_root(x))
}
