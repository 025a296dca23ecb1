// Which feature rows are refused, and why.
//
// Document 02, No. 7. Inner calls: no caller of the library needs them.
#![tactic(auto)]

ghost use Rattle.std.specs.Prelude.{◌≡◌, ◌<◌};
ghost use Rattle.numbers.specs.Refusals.{number_of};
ghost use Rattle.floats.specs.Wholes.{ceiling_over};
ghost use Rattle.feature_refusal.specs.Refusal.{feature_bounds, features_number};

use feature_bins::BINS;
use feature_places::FeatureGrid;
use feature_samples::samples_fine;
use feature_values::strengths_fine;
use numbers::{FEATURE_WIDTH, Refusal};

// Inner: what the call refuses.
pub fn refusal(
    magnitudes: &[f32],
    rows: usize,
    samples: &[f32],
    grid: FeatureGrid,
    room: usize,
) -> Result<(), Refusal>
    ensures { number_of result ≡ features_number magnitudes.now rows samples.now grid room }
{
    if !bounds_fine(rows, samples.len(), grid) {
        return Err(Refusal::OutOfBounds);
    }
    if magnitudes.len() != rows * BINS {
        return Err(Refusal::WrongLength);
    }
    if room < grid.count * FEATURE_WIDTH {
        return Err(Refusal::TooLittleRoom);
    }
    if !strengths_fine(magnitudes) {
        return Err(Refusal::WrongValue);
    }
    if samples_fine(samples) {
        return Ok(());
    }
    Err(Refusal::WrongValue)
}

// Samples over length, rounded up.
fn count_of(samples: usize, length: usize) -> usize
    requires { 0 < length }
    ensures { result ≡ ceiling_over samples length }
{
    if samples % length > 0 {
        return samples / length + 1;
    }
    samples / length
}

fn bounds_fine(rows: usize, samples: usize, grid: FeatureGrid) -> bool
    ensures { result ≡ feature_bounds rows samples grid }
{
    let length = grid.length;
    if rows > numbers::MOST_ROWS {
        return false;
    }
    if length < 1 {
        return false;
    }
    if length > numbers::MOST_LENGTH {
        return false;
    }
    if !numbers::rate_fine(grid.rate) {
        return false;
    }
    if grid.count > numbers::MOST_FEATURES {
        return false;
    }
    grid.count == count_of(samples, length as usize)
}
