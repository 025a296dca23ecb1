// The natural and the binary logarithm, in libm's sequence.
//
// The Rust: `libm::log` in tempo.rs (beats), `libm::log2` in tempo.rs (the prior).
ghost use Rattle.std.specs.Prelude.{◌≡◌};
ghost use Rattle.floats.specs.Logs.{in_sequence, apart_of, scaled_bits, bias_of, power_of, rest_of, half_square, series_of, log_of, upper_half, log2_of};

use crate::bits::{bits_of, float_of};

// The coefficients of the series, and the two parts of ln 2 and of 1 / ln 2: libm's names and values.
const LG1: f64 = 6.666666666666735130e-01;

const LG2: f64 = 3.999999999940941908e-01;

const LG3: f64 = 2.857142874366239149e-01;

const LG4: f64 = 2.222219843214978396e-01;

const LG5: f64 = 1.818357216161805012e-01;

const LG6: f64 = 1.531383769920937332e-01;

const LG7: f64 = 1.479819860511658591e-01;

const LN2_HI: f64 = 6.93147180369123816490e-01;

const LN2_LO: f64 = 1.90821492927058770002e-10;

const IVLN2HI: f64 = 1.44269504072144627571e+00;

const IVLN2LO: f64 = 1.67517131648865118353e-10;

// What both logarithms of x go on with, x being 2 ^ k * (1 + f).
#[derive(Clone, Copy)]
struct Parts {
    k: f64,
    f: f64,
    hfsq: f64,
    series: f64,
}

// Whether the sequence is run: x, whose bits are n, is positive, finite and not 1.
fn in_sequence(n: u64) -> bool
    ensures { result ≡ in_sequence n }
{
    0 < n && (n < 0x7ff0_0000_0000_0000 && n != 0x3ff0_0000_0000_0000)
}

// The answer of both logarithms where the sequence is not run.
fn apart_of(x: f64, n: u64) -> f64
    ensures { result ≡ apart_of x n }
{
    if n % 0x8000_0000_0000_0000 == 0 {
        return -1.0 / (x * x);
    }
    if n >= 0x8000_0000_0000_0000 {
        return (x - x) / 0.0;
    }
    if n >= 0x7ff0_0000_0000_0000 {
        return x;
    }
    0.0
}

// The reduction of the bits u under a bias of their exponent.
fn reduced_bits(u: u64, bias: f64) -> Parts
    ensures { (result.k ≡ power_of u bias)
        × (result.f ≡ rest_of u)
        × (result.hfsq ≡ half_square (rest_of u))
        × (result.series ≡ series_of (rest_of u)) }
{
    let h = u / 0x1_0000_0000 + 0x9_5f62;
    let k = ((h / 0x10_0000) as u32) as f64 - bias;
    let f = float_of((h % 0x10_0000 + 0x3fe6_a09e) * 0x1_0000_0000 + u % 0x1_0000_0000) - 1.0;
    let hfsq = 0.5 * f * f;
    let s = f / (2.0 + f);
    let z = s * s;
    let w = z * z;
    let t1 = w * (LG2 + w * (LG4 + w * LG6));
    let t2 = z * (LG1 + w * (LG3 + w * (LG5 + w * LG7)));
    let series = s * (hfsq + (t2 + t1));
    Parts { k, f, hfsq, series }
}

// The reduction of x, whose bits are n: a subnormal x is first multiplied by 2 ^ 54.
fn reduced(x: f64, n: u64) -> Parts
    ensures { (result.k ≡ power_of (scaled_bits x n) (bias_of n))
        × (result.f ≡ rest_of (scaled_bits x n))
        × (result.hfsq ≡ half_square (rest_of (scaled_bits x n)))
        × (result.series ≡ series_of (rest_of (scaled_bits x n))) }
{
    if n < 0x10_0000_0000_0000 {
        return reduced_bits(bits_of(x * 18014398509481984.0), 1077.0);
    }
    reduced_bits(n, 1023.0)
}

// Inner: the natural logarithm.
pub fn log(x: f64) -> f64
    ensures { result ≡ log_of x }
{
    let n = bits_of(x);
    if in_sequence(n) {
        let v = reduced(x, n);
        return v.series + v.k * LN2_LO - v.hfsq + v.f + v.k * LN2_HI;
    }
    apart_of(x, n)
}

// The float of the upper 32 bits of x, the lower 32 cleared.
fn upper_half(x: f64) -> f64
    ensures { result ≡ upper_half x }
{
    let b = bits_of(x);
    float_of(b - b % 0x1_0000_0000)
}

// Inner: the binary logarithm.
pub fn log2(x: f64) -> f64
    ensures { result ≡ log2_of x }
{
    let n = bits_of(x);
    if in_sequence(n) {
        let v = reduced(x, n);
        let hi = upper_half(v.f - v.hfsq);
        let lo = v.f - hi - v.hfsq + v.series;
        let val_hi = hi * IVLN2HI;
        let val_lo = (lo + hi) * IVLN2LO + lo * IVLN2HI;
        let w = v.k + val_hi;
        return val_lo + (v.k - w + val_hi) + w;
    }
    apart_of(x, n)
}
