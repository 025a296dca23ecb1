// The exponential, in libm's sequence, with its scalbn.
//
// The Rust: `libm::exp` in tempo.rs (the prior) and structure.rs (the kernel).
ghost use Rattle.std.specs.Prelude.{◌≡◌};
ghost use Rattle.floats.specs.Exps.{times_up, times_down, scale_up, scale_down, exp_near, exp_less, exp_by, folds_of, exp_sized, exp_of};

use crate::bits::{bits_of, float_of, whole_of};

// The coefficients, the two parts of ln 2, and 1 / ln 2: libm's names and values.
const P1: f64 = 1.66666666666666019037e-01;

const P2: f64 = -2.77777777770155933842e-03;

const P3: f64 = 6.61375632143793436117e-05;

const P4: f64 = -1.65339022054652515390e-06;

const P5: f64 = 4.13813679705723846039e-08;

const LN2HI: f64 = 6.93147180369123816490e-01;

const LN2LO: f64 = 1.90821492927058770002e-10;

const INVLN2: f64 = 1.44269504088896338700e+00;

// 2 ^ 1023, and 2 ^ -1022 times 2 ^ 53.
const X1P1023: f64 = 8.98846567431158e307;

const X1P_1022: f64 = 2.2250738585072014e-308;

const X1P53: f64 = 9007199254740992.0;

// y times 2 ^ n, for n up to 1023.
fn times_up(y: f64, n: u64) -> f64
    ensures { result ≡ times_up y n }
{
    if n > 1023 {
        return y * float_of(2046 * 0x10_0000_0000_0000);
    }
    y * float_of((1023 + n) * 0x10_0000_0000_0000)
}

// y times 2 ^ -n, for n up to 1022.
fn times_down(y: f64, n: u64) -> f64
    ensures { result ≡ times_down y n }
{
    if n > 1022 {
        return y * float_of(0x10_0000_0000_0000);
    }
    y * float_of((1023 - n) * 0x10_0000_0000_0000)
}

// libm's scalbn for n at least 0.
fn scale_up(y: f64, n: u64) -> f64
    ensures { result ≡ scale_up y n }
{
    if n > 1023 {
        if n - 1023 > 1023 {
            return times_up(y * X1P1023 * X1P1023, n - 1023 - 1023);
        }
        return times_up(y * X1P1023, n - 1023);
    }
    times_up(y, n)
}

// libm's scalbn for -n.
fn scale_down(y: f64, n: u64) -> f64
    ensures { result ≡ scale_down y n }
{
    if n > 1022 {
        if n - 969 > 1022 {
            return times_down(y * (X1P_1022 * X1P53) * (X1P_1022 * X1P53), n - 969 - 969);
        }
        return times_down(y * (X1P_1022 * X1P53), n - 969);
    }
    times_down(y, n)
}

// exp of hi - lo, where r is that difference.
fn exp_near(r: f64, hi: f64, lo: f64) -> f64
    ensures { result ≡ exp_near r hi lo }
{
    let rr = r * r;
    let c = r - rr * (P1 + rr * (P2 + rr * (P3 + rr * (P4 + rr * P5))));
    1.0 + (r * c / (2.0 - c) - lo + hi)
}

// exp of x less k times ln 2.
fn exp_less(x: f64, k: f64) -> f64
    ensures { result ≡ exp_less x k }
{
    let hi = x - k * LN2HI;
    let lo = k * LN2LO;
    exp_near(hi - lo, hi, lo)
}

// exp by the power k, which is m, or -m for a negative x.
fn exp_by(x: f64, negative: bool, m: u64) -> f64
    ensures { result ≡ exp_by x negative m }
{
    let k = std::num::nearest_u64_to_f64(m);
    if negative {
        return scale_down(exp_less(x, -k), m);
    }
    scale_up(exp_less(x, k), m)
}

// How often ln 2 is taken from |x|.
fn folds_of(x: f64, negative: bool) -> u64
    ensures { result ≡ folds_of x negative }
{
    if negative {
        return whole_of(-(INVLN2 * x + -0.5));
    }
    whole_of(INVLN2 * x + 0.5)
}

// exp by the size of x: h is the high word of |x|.
fn exp_sized(x: f64, negative: bool, h: u64) -> f64
    ensures { result ≡ exp_sized x negative h }
{
    if h >= 0x3ff0_a2b2 {
        return exp_by(x, negative, folds_of(x, negative));
    }
    if h > 0x3fd6_2e42 {
        return exp_by(x, negative, 1);
    }
    if h > 0x3e30_0000 {
        return exp_near(x, x, 0.0);
    }
    1.0 + x
}

// Inner: the exponential.
pub fn exp(x: f64) -> f64
    ensures { result ≡ exp_of x }
{
    let n = bits_of(x);
    let h = n / 0x1_0000_0000 % 0x8000_0000;
    let negative = n >= 0x8000_0000_0000_0000;
    if h < 0x4086_232b {
        return exp_sized(x, negative, h);
    }
    if x != x {
        return x;
    }
    if x > 709.782712893383973096 {
        return x * X1P1023;
    }
    if x < -745.13321910194110842 {
        return 0.0;
    }
    exp_sized(x, negative, h)
}
