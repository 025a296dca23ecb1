// One slot of the similarity: how alike two rows of features are.
//
// Document 01, Sections. The Rust: structure.rs `BandedSimilarity`.
#![tactic(auto)]

ghost use Rattle.std.specs.Prelude.{◌≡◌, ◌+◌, ◌-◌, ◌*◌, ◌<◌, length};
ghost use Rattle.std.specs.Float.Ieee.{neg, lt};
ghost use Rattle.numbers.specs.Rounded.{nought, pick, held};
ghost use Rattle.numbers.specs.Limits.{feature_width, similarity_top};
ghost use Rattle.row_pairs.specs.Pairs.{feature_row, dot_of, is_zero, settled, slot_at};

use numbers::FEATURE_WIDTH;
use roots::sqrt;

// Inner: row i of the features.
pub fn feature_row(features: &[f64], rows: usize, i: usize) -> &[f64]
    requires { (length features.now ≡ rows * feature_width) × (i < rows) }
    ensures { result.now ≡ feature_row features.now i }
{
    let from = i * FEATURE_WIDTH;
    let past = from + FEATURE_WIDTH;
    &features[from..past]
}

// Inner: the sum of the products of two rows.
pub fn dot(a: &[f64], b: &[f64]) -> f64
    requires { (length a.now ≡ feature_width) × (length b.now ≡ feature_width) }
    ensures { result ≡ dot_of a.now b.now }
{
    let mut sum = 0.0;
    for k in 0..FEATURE_WIDTH {
        sum = sum + a[k] * b[k];
    }
    sum
}

// x, or -1 where it is less: a select, which the compiler runs on several lanes, as are the two below
fn raised(x: f64) -> f64
    ensures { result ≡ pick (lt x (neg similarity_top)) (neg similarity_top) x }
{
    if x < -1.0 { -1.0 } else { x }
}

// x held to -1..1; -0 stays
fn hold(x: f64) -> f64
    ensures { result ≡ held (neg similarity_top) similarity_top x }
{
    let low = raised(x);
    if low > 1.0 { 1.0 } else { low }
}

// +0 where the norm is 0
fn unless_zero(norm: f64, value: f64) -> f64
    ensures { result ≡ pick (is_zero norm) nought value }
{
    if norm == 0.0 { 0.0 } else { value }
}

// Inner: +0 where a norm is 0, and else the quotient held.
pub fn settle(quotient: f64, norm: f64, other: f64) -> f64
    ensures { result ≡ settled quotient norm other }
{
    unless_zero(norm, unless_zero(other, hold(quotient)))
}

// Inner: slot (i, d) of the similarity, by itself.
pub fn similarity_slot(features: &[f64], rows: usize, i: usize, d: usize) -> f64
    requires { (length features.now ≡ rows * feature_width) × (i < rows) }
    ensures { result ≡ slot_at features.now rows i d }
{
    if rows - i <= d {
        return 0.0;
    }
    let own = feature_row(features, rows, i);
    let other = feature_row(features, rows, i + d);
    let norm = sqrt(dot(own, own));
    let norm2 = sqrt(dot(other, other));
    settle(dot(own, other) / (norm * norm2), norm, norm2)
}
