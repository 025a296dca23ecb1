// Which feature row a row of the feature transform belongs to.
//
// Document 02, No. 7. The Rust: structure.rs `bucket_index`. Inner calls: no caller of the library needs them.
#![tactic(auto)]

ghost use Rattle.std.specs.Prelude.{◌≡◌, ℕ, ◌≤◌, ◌<◌};
ghost use Rattle.feature_places.specs.Places.{centre_ms, feature_row_of};

use floats::bits::whole_of;
use lists::float_of;
use numbers::THOUSAND;
use sections::frame_ms;

// Inner: samples a second, samples of a feature row, and how many feature rows.
#[derive(Clone, Copy)]
pub struct FeatureGrid {
    pub rate: u32,
    pub length: u64,
    pub count: usize,
}

// samples from a row of the transform to the next, and from its first to its centre
const FEATURE_HOP: f64 = 1024.0;

const FEATURE_CENTRE: f64 = 2048.0;

// The time of row t's centre in milliseconds.
fn centre_ms(rate: u32, t: usize) -> f64
    ensures { result ≡ centre_ms rate t }
{
    (float_of(t) * FEATURE_HOP + FEATURE_CENTRE) / (rate as f64) * THOUSAND
}

// Inner: the feature row that row t belongs to.
pub fn place_of(grid: FeatureGrid, t: usize) -> usize
    ensures { result ≡ feature_row_of grid t }
{
    let place = whole_of(centre_ms(grid.rate, t) / frame_ms(grid.length, grid.rate)) as usize;
    place.min(grid.count.saturating_sub(1))
}

// Inner: the first row from t on that belongs to a feature row after i, or the row count.
pub fn past_of(grid: FeatureGrid, rows: usize, t: usize, i: usize) -> usize
    requires { t ≤ rows }
    ensures { (t ≤ result)
        × (result ≤ rows)
        × ((u : ℕ) → t ≤ u → u < result → feature_row_of grid u ≤ i)
        × (result < rows → i < feature_row_of grid result) }
{
    for u in t..rows {
        if place_of(grid, u) > i {
            return u;
        }
    }
    rows
}
