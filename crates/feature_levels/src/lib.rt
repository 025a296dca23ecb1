// The root mean square of a feature row's samples, four feature rows side by side.
//
// Document 02, No. 7. The Rust: structure.rs `feature_vectors`. A sum of squares is one chain of additions; four rows of one length run side by side, each in
// its own ascending order. Inner calls: no caller of the library needs them.
#![tactic(auto)]

ghost use Rattle.std.specs.Prelude.{◌≡◌, true, map, ◌+◌, ◌≤◌, ◌<◌, length, get_or};
ghost use Rattle.std.specs.Float.{nan};
ghost use Rattle.numbers.specs.Rounded.{◌⊘◌, real, sum_of, squared};
ghost use Rattle.numbers.specs.Limits.{most_length};
ghost use Rattle.numbers.specs.Lists.{every, row};
ghost use Rattle.roots.specs.Roots.{sqrt_of};
ghost use Rattle.feature_levels.specs.Levels.{sample_fine, rms_at};

use flux_rows::Four;
use lists::float_of;
use roots::sqrt;

fn wide(s: &[f32], i: usize) -> f64
    requires { (i < length s.now) × (every sample_fine s.now ≡ true) }
    ensures { result ≡ get_or s.now i nan }
{
    s[i] as f64
}

// The sum of the squares.
fn squares(s: &[f32]) -> f64
    requires { every sample_fine s.now ≡ true }
    ensures { result ≡ sum_of (map squared s.now) }
{
    let mut sum = 0.0;
    for i in 0..s.len() {
        let x = wide(s, i);
        sum = sum + x * x;
    }
    sum
}

// The same of four slices of one length.
fn squares_four(a: &[f32], b: &[f32], c: &[f32], d: &[f32]) -> Four
    requires b_len { (length b.now ≡ length a.now) × (length c.now ≡ length a.now) × (length d.now ≡ length a.now) }
    requires a_value { (every sample_fine a.now ≡ true)
        × (every sample_fine b.now ≡ true)
        × (every sample_fine c.now ≡ true)
        × (every sample_fine d.now ≡ true) }
    ensures { (result.a ≡ sum_of (map squared a.now))
        × (result.b ≡ sum_of (map squared b.now))
        × (result.c ≡ sum_of (map squared c.now))
        × (result.d ≡ sum_of (map squared d.now)) }
{
    let mut sums = Four {
        a: 0.0,
        b: 0.0,
        c: 0.0,
        d: 0.0,
    };
    for i in 0..a.len() {
        let x = wide(a, i);
        let y = wide(b, i);
        let z = wide(c, i);
        let w = wide(d, i);
        sums = Four {
            a: sums.a + x * x,
            b: sums.b + y * y,
            c: sums.c + z * z,
            d: sums.d + w * w,
        };
    }
    sums
}

// The same of any four: side by side where they have one length.
fn squares_of(a: &[f32], b: &[f32], c: &[f32], d: &[f32]) -> Four
    requires { (every sample_fine a.now ≡ true)
        × (every sample_fine b.now ≡ true)
        × (every sample_fine c.now ≡ true)
        × (every sample_fine d.now ≡ true) }
    ensures { (result.a ≡ sum_of (map squared a.now))
        × (result.b ≡ sum_of (map squared b.now))
        × (result.c ≡ sum_of (map squared c.now))
        × (result.d ≡ sum_of (map squared d.now)) }
{
    let n = a.len();
    if b.len() == n {
        if c.len() == n {
            if d.len() == n {
                return squares_four(a, b, c, d);
            }
        }
    }
    Four {
        a: squares(a),
        b: squares(b),
        c: squares(c),
        d: squares(d),
    }
}

// The samples of feature row i, of `size` samples or what is left.
fn part(samples: &[f32], size: usize, i: usize) -> &[f32]
    requires { (size ≤ most_length) × (i ≤ 65536) }
    ensures { result.now ≡ row samples.now size i }
{
    let n = samples.len();
    let from = (i * size).min(n);
    let end = (from + size).min(n);
    &samples[from..end]
}

fn root_mean(sum: f64, n: usize) -> f64
    ensures { result ≡ sqrt_of (sum ⊘ real n) }
{
    sqrt(sum / float_of(n))
}

// Inner: the root mean squares of feature rows i to i + 3; past the last row that of no samples, a NaN, which nobody reads.
pub fn levels_of(samples: &[f32], size: usize, i: usize) -> Four
    requires { (every sample_fine samples.now ≡ true) × (size ≤ most_length) × (i + 3 ≤ 65536) }
    ensures { (result.a ≡ rms_at samples.now size i)
        × (result.b ≡ rms_at samples.now size (i + 1))
        × (result.c ≡ rms_at samples.now size (i + 2))
        × (result.d ≡ rms_at samples.now size (i + 3)) }
{
    let a = part(samples, size, i);
    let b = part(samples, size, i + 1);
    let c = part(samples, size, i + 2);
    let d = part(samples, size, i + 3);
    let sums = squares_of(a, b, c, d);
    Four {
        a: root_mean(sums.a, a.len()),
        b: root_mean(sums.b, b.len()),
        c: root_mean(sums.c, c.len()),
        d: root_mean(sums.d, d.len()),
    }
}
