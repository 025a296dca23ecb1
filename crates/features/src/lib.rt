// Feature rows: what a second or so of a track sounds like, in sixteen values, from magnitude rows and samples.
//
// Document 02, No. 7. The Rust: structure.rs `feature_vectors`. A table of the bins' pitch classes and bands stands for a logarithm for each row and bin, and
// four feature rows go side by side, each sum in its own ascending order, so that the bits are those of one row after the other.
#![tactic(auto)]

ghost use Rattle.std.specs.Prelude.{◌≡◌, ◌+◌, ◌*◌, ◌<◌, min, length};
ghost use Rattle.numbers.specs.Refusals.{number_of};
ghost use Rattle.numbers.specs.Limits.{feature_width};
ghost use Rattle.numbers.specs.Lists.{filled};
ghost use Rattle.feature_bins.specs.Bins.{bin_count, Codes};
ghost use Rattle.feature_lanes.specs.Addends.{Table};
ghost use Rattle.feature_sums.specs.Lanes.{ZeroRow};
ghost use Rattle.feature_places.specs.Places.{feature_grid};
ghost use Rattle.features.specs.Features.{feature_at, FeatureRowsPromise};
ghost use Rattle.features.specs.Groups.{FeaturesReady, RowsSplit};

use feature_bins::{fill_codes, fill_pasts};
use feature_levels::levels_of;
use feature_parts::put_lanes;
use feature_places::{FeatureGrid, past_of};
use feature_refusal::refusal;
use feature_sums::add_rows;
use numbers::Refusal;

// Writes features[0..16 * count]: sixteen values for each feature row, twelve pitch classes over the greatest of them, three band fractions, and the RMS of its
// samples; later slots stay. `magnitudes` are `rows` rows of 2,049 bins, of a transform of 4,096 samples every 1,024; a feature row has `length` samples,
// the last one those that are left. Room: 16 * count slots.
// Refuses: 1 a rate outside 1 to 192,000, rows above 1,048,576, a length outside 1 to 2^31, a count above 50,000 or other than samples over length, rounded
// up; 2 magnitudes that aren't rows times 2,049; 3 fewer than 16 * count slots; 4 a magnitude that isn't finite, is above 2^126 or is negative, or a
// sample that isn't finite. A refusal writes nothing.
pub fn feature_rows(
    magnitudes: &[f32],
    rows: usize,
    samples: &[f32],
    rate: u32,
    length: u64,
    count: usize,
    features: &mut [f64],
) -> Result<(), Refusal>
    ensures { FeatureRowsPromise magnitudes.now rows samples.now (feature_grid rate length count)
        features.old (number_of result) features.new }
{
    let grid = FeatureGrid {
        rate,
        length,
        count,
    };
    refusal(magnitudes, rows, samples, grid, features.len())?;
    let mut codes = [0u32; 2049];
    let mut pasts = [0u32; 2049];
    fill_codes(rate, &mut codes);
    fill_pasts(&codes, &mut pasts);
    fill_features(magnitudes, rows, samples, grid, &codes, &pasts, features);
    Ok(())
}

// Writes four feature rows, i to i + 3, those of them that there are: row t is the first of the transform's that belongs to them or to later ones. Answers the
// first that belongs to row i + 4 or later.
fn fill_group<'a>(
    magnitudes: &'a [f32],
    zeros: &'a [f32],
    rows: usize,
    samples: &[f32],
    grid: FeatureGrid,
    codes: &[u32; 2049],
    pasts: &[u32; 2049],
    t: usize,
    i: usize,
    features: &mut [f64],
) -> usize
    requires { FeaturesReady magnitudes.now rows samples.now grid features.old
        × ZeroRow zeros.now
        × Codes grid.rate codes.now
        × Table codes.now pasts.now
        × (i < grid.count)
        × RowsSplit grid rows i t }
    ensures { RowsSplit grid rows (i + 4) result
        × (features.new ≡
        filled (feature_at magnitudes.now rows samples.now grid) features.old
        (i * feature_width) (min (i + 4) grid.count * feature_width)) }
{
    let p1 = past_of(grid, rows, t, i);
    let p2 = past_of(grid, rows, p1, i + 1);
    let p3 = past_of(grid, rows, p2, i + 2);
    let p4 = past_of(grid, rows, p3, i + 3);
    let mut classes = [0.0f64; 52];
    let mut bands = [0.0f64; 12];
    add_rows(
        magnitudes,
        zeros,
        rows,
        t,
        p1,
        p2,
        p3,
        p4,
        codes,
        pasts,
        &mut classes,
        &mut bands,
    );
    let rms = levels_of(samples, grid.length as usize, i);
    put_lanes(&classes, &bands, rms, i, grid.count, features);
    p4
}

fn fill_features(
    magnitudes: &[f32],
    rows: usize,
    samples: &[f32],
    grid: FeatureGrid,
    codes: &[u32; 2049],
    pasts: &[u32; 2049],
    features: &mut [f64],
)
    requires { FeaturesReady magnitudes.now rows samples.now grid features.old × Codes grid.rate codes.now × Table codes.now pasts.now }
    ensures { features.new ≡
        filled (feature_at magnitudes.now rows samples.now grid) features.old 0 (grid.count * feature_width) }
{
    let zeros = [0.0f32; 2049];
    let mut t = 0;
    let mut i = 0;
    // Kept as a while: step_by's loop has a second end, where its count would overflow, to be proved again.
    while i < grid.count {
        t = fill_group(
            magnitudes, &zeros, rows, samples, grid, codes, pasts, t, i, features,
        );
        i += 4;
    }
}
