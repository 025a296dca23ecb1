// The call of crate features, for C.
ghost use Rattle.feature_places.specs.Places.{feature_grid};
ghost use Rattle.features.specs.Features.{FeatureRowsPromise};

use numbers::number_of;

// `features::feature_rows`, for C.
#[unsafe(no_mangle)]
pub extern "C" fn ph_feature_rows(
    magnitudes: &[f32],
    rows: usize,
    samples: &[f32],
    rate: u32,
    length: u64,
    count: usize,
    features: &mut [f64],
) -> u32
    ensures { FeatureRowsPromise magnitudes.now rows samples.now (feature_grid rate length count)
        features.old result features.new }
{
    number_of(&features::feature_rows(magnitudes, rows, samples, rate, length, count, features))
}
