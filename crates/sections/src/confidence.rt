// How far the boundaries stand out: their mean prominence over the median, as a part of the whole range over it.
//
// Document 01, Sections. The Rust: structure.rs `confidence_of`.
ghost use Rattle.std.specs.Prelude.{◌≡◌, ◌<◌, true, map, length};
ghost use Rattle.std.specs.Float.Ieee.{lt};
ghost use Rattle.numbers.specs.Rounded.{nought, pick, sum_of, held, one};
ghost use Rattle.median.specs.Median.{median_of};
ghost use Rattle.onsets.specs.Peaks.{point_into};
ghost use Rattle.sections.specs.Confidence.{lowest_float, greatest_from, prominence, confidence_of};

pub fn confidence_of(novelty: &[f64], med: f64, rows: &[u32]) -> f64
    requires { (med ≡ median_of novelty.now) × (point_into (length novelty.now) rows.now ≡ true) }
    ensures { result ≡ confidence_of novelty.now rows.now }
{
    if rows.len() == 0 {
        return 0.0;
    }
    let range = greatest_of(novelty) - med;
    if range <= 0.0 {
        return 0.0;
    }
    let mean = prominences(novelty, med, rows) / std::num::nearest_u64_to_f64(rows.len() as u64);
    unit_of(mean / range)
}

fn greatest_of(values: &[f64]) -> f64
    ensures { result ≡ greatest_from lowest_float values.now }
{
    let mut top = -1.7976931348623157e308;
    for i in 0..values.len() {
        top = greater(top, values[i]);
    }
    top
}

fn greater(top: f64, x: f64) -> f64
    ensures { result ≡ pick (lt top x) x top }
{
    if top < x { x } else { top }
}

// The sum of the rows' prominences.
fn prominences(novelty: &[f64], med: f64, rows: &[u32]) -> f64
    requires { point_into (length novelty.now) rows.now ≡ true }
    ensures { result ≡ sum_of (map (prominence novelty.now med) rows.now) }
{
    let mut sum = 0.0;
    for i in 0..rows.len() {
        sum += prominence_of(novelty, med, rows[i] as usize);
    }
    sum
}

fn prominence_of(novelty: &[f64], med: f64, row: usize) -> f64
    requires { row < length novelty.now }
    ensures { result ≡ prominence novelty.now med row }
{
    let over = novelty[row] - med;
    if over > 0.0 { over } else { 0.0 }
}

// x held to 0..1
fn unit_of(x: f64) -> f64
    ensures { result ≡ held nought one x }
{
    if x < 0.0 {
        return 0.0;
    }
    if x > 1.0 { 1.0 } else { x }
}
