// The pitch classes and bands of four feature rows: what all their rows of the transform add.
//
// Document 02, No. 7. The Rust: structure.rs `feature_vectors`. The lanes of four feature rows have more or fewer rows; a lane that has no more is lent a row
// of zeros, which adds nothing. Inner calls: no caller of the library needs them.
#![tactic(auto)]

ghost use Rattle.std.specs.Prelude.{◌≡◌, true, ◌+◌, ◌*◌, ◌≤◌, length};
ghost use Rattle.numbers.specs.Limits.{most_rows};
ghost use Rattle.numbers.specs.Lists.{every};
ghost use Rattle.feature_bins.specs.Bins.{bin_count};
ghost use Rattle.feature_lanes.specs.Addends.{strength_fine, Table};
ghost use Rattle.feature_sums.specs.Lanes.{row_of_lane, ZeroRow, NoSums, FourSums};

use feature_bins::BINS;
use feature_lanes::add_row;

// Row t, or the zeros from row `past` on.
fn lane_row<'a>(
    magnitudes: &'a [f32],
    zeros: &'a [f32],
    rows: usize,
    t: usize,
    past: usize,
) -> &'a [f32]
    requires { (length magnitudes.now ≡ rows * bin_count) × (past ≤ rows) }
    ensures { result.now ≡ row_of_lane magnitudes.now zeros.now t past }
{
    if t < past {
        let from = t * BINS;
        let end = from + BINS;
        return &magnitudes[from..end];
    }
    zeros
}

// As many rows as the lane with the most has.
fn most_rows(p0: usize, p1: usize, p2: usize, p3: usize, p4: usize) -> usize
    requires { (p0 ≤ p1) × (p1 ≤ p2) × (p2 ≤ p3) × (p3 ≤ p4) }
    ensures { (p1 ≤ p0 + result) × (p2 ≤ p1 + result) × (p3 ≤ p2 + result) × (p4 ≤ p3 + result) × (result ≤ p4) }
{
    let first = (p1 - p0).max(p2 - p1);
    let last = (p3 - p2).max(p4 - p3);
    first.max(last)
}

// Inner: adds the rows from p0 up to, not including, p1 to the first lane's sums, those up to p2 to the second's, and so on.
pub fn add_rows<'a>(
    magnitudes: &'a [f32],
    zeros: &'a [f32],
    rows: usize,
    p0: usize,
    p1: usize,
    p2: usize,
    p3: usize,
    p4: usize,
    codes: &[u32; 2049],
    pasts: &[u32; 2049],
    classes: &mut [f64],
    bands: &mut [f64],
)
    requires { ((length magnitudes.now ≡ rows * bin_count) × (every strength_fine magnitudes.now ≡ true) × ZeroRow zeros.now)
        × ((p0 ≤ p1) × (p1 ≤ p2) × (p2 ≤ p3) × (p3 ≤ p4) × (p4 ≤ rows) × (rows ≤ most_rows))
        × Table codes.now pasts.now
        × NoSums classes.old bands.old }
    ensures { FourSums codes.now magnitudes.now p0 p1 p2 p3 p4 classes.new bands.new }
{
    let most = most_rows(p0, p1, p2, p3, p4);
    for r in 0..most {
        let a = lane_row(magnitudes, zeros, rows, p0 + r, p1);
        let b = lane_row(magnitudes, zeros, rows, p1 + r, p2);
        let c = lane_row(magnitudes, zeros, rows, p2 + r, p3);
        let d = lane_row(magnitudes, zeros, rows, p3 + r, p4);
        add_row(a, b, c, d, codes, pasts, classes, bands);
    }
}
