// A feature row's sixteen values from its sums: pitch classes over the greatest, bands over their total, and the RMS.
//
// Document 02, No. 7. The Rust: structure.rs `feature_vectors`. Inner calls: no caller of the library needs them.
#![tactic(auto)]

ghost use Rattle.std.specs.Prelude.{◌≡◌, ◌+◌, ◌*◌, ◌≤◌, ◌<◌, length};
ghost use Rattle.std.specs.Float.Ieee.{lt};
ghost use Rattle.numbers.specs.Rounded.{pick};
ghost use Rattle.numbers.specs.Limits.{feature_width, most_features};
ghost use Rattle.numbers.specs.Lists.{curve, filled};
ghost use Rattle.feature_parts.specs.Parts.{class_count, greatest_of, part_of, value_from, lane_sum, lane_total, lane_value, lane_filled, lanes_filled};

use flux_rows::Four;
use numbers::FEATURE_WIDTH;

// A part of a whole, and 0 where the whole is not above 0.
fn part_of(part: f64, whole: f64) -> f64
    ensures { result ≡ part_of part whole }
{
    if whole > 0.0 { part / whole } else { 0.0 }
}

// The greater of two: a select.
fn higher(top: f64, x: f64) -> f64
    ensures { result ≡ pick (lt top x) x top }
{
    if top < x { x } else { top }
}

// The greatest of a lane's twelve pitch classes.
fn greatest_class(classes: &[f64], lane: usize) -> f64
    requires { (length classes.now ≡ 52) × (lane < 4) }
    ensures { result ≡ greatest_of (curve (lane_sum classes.now lane) class_count) }
{
    let mut top = 0.0;
    for p in 0..12 {
        top = higher(top, classes[p * 4 + lane]);
    }
    top
}

// The total of a lane's three bands.
fn band_total(bands: &[f64], lane: usize) -> f64
    requires { (length bands.now ≡ 12) × (lane < 4) }
    ensures { result ≡ lane_total bands.now lane }
{
    bands[lane] + bands[4 + lane] + bands[8 + lane]
}

// Value j of a lane's feature row.
fn value_at(
    classes: &[f64],
    bands: &[f64],
    lane: usize,
    rms: f64,
    top: f64,
    total: f64,
    j: usize,
) -> f64
    requires { (length classes.now ≡ 52)
        × (length bands.now ≡ 12)
        × (lane < 4)
        × (top ≡ greatest_of (curve (lane_sum classes.now lane) class_count))
        × (total ≡ lane_total bands.now lane) }
    ensures { result ≡ value_from (lane_sum classes.now lane) (lane_sum bands.now lane) rms j }
{
    if j < 12 {
        return part_of(classes[j * 4 + lane], top);
    }
    if j < 15 {
        return part_of(bands[(j - 12) * 4 + lane], total);
    }
    rms
}

// Writes the values of a lane's feature row, row i.
fn put_row(classes: &[f64], bands: &[f64], lane: usize, rms: f64, i: usize, features: &mut [f64])
    requires { (length classes.now ≡ 52)
        × (length bands.now ≡ 12)
        × (lane < 4)
        × ((i + 1) * feature_width ≤ length features.old) }
    ensures { features.new ≡
        filled (lane_value classes.now bands.now lane rms) features.old (i * feature_width) ((i + 1) * feature_width) }
{
    let top = greatest_class(classes, lane);
    let total = band_total(bands, lane);
    let from = i * FEATURE_WIDTH;
    for j in 0..FEATURE_WIDTH {
        features[from + j] = value_at(classes, bands, lane, rms, top, total, j);
    }
}

// The same where there is a row i.
fn put_lane(
    classes: &[f64],
    bands: &[f64],
    lane: usize,
    rms: f64,
    i: usize,
    count: usize,
    features: &mut [f64],
)
    requires { (length classes.now ≡ 52)
        × (length bands.now ≡ 12)
        × (lane < 4)
        × (count ≤ most_features)
        × (count * feature_width ≤ length features.old) }
    ensures { (length features.new ≡ length features.old)
        × (features.new ≡ lane_filled classes.now bands.now lane rms i count features.old) }
{
    if i < count {
        put_row(classes, bands, lane, rms, i, features);
    }
}

// Inner: writes four lanes' feature rows, rows i to i + 3, those of them that there are.
pub fn put_lanes(
    classes: &[f64],
    bands: &[f64],
    rms: Four,
    i: usize,
    count: usize,
    features: &mut [f64],
)
    requires { (length classes.now ≡ 52)
        × (length bands.now ≡ 12)
        × (i ≤ most_features)
        × (count ≤ most_features)
        × (count * feature_width ≤ length features.old) }
    ensures { features.new ≡ lanes_filled classes.now bands.now rms i count features.old }
{
    put_lane(classes, bands, 0, rms.a, i, count, features);
    put_lane(classes, bands, 1, rms.b, i + 1, count, features);
    put_lane(classes, bands, 2, rms.c, i + 2, count, features);
    put_lane(classes, bands, 3, rms.d, i + 3, count, features);
}
