// `patch_magnitudes` and `patch_features`, for C.
ghost use Rattle.numbers.specs.Limits.{slab_of};
ghost use Rattle.patches.specs.Patches.{patch_of, ranges};
ghost use Rattle.capi.specs.Repairs.{rows_lent, PhPatchMagnitudesPromise, features_lent, PhPatchFeaturesPromise};

use capi_answers::repairs::{put_features, put_rows};

// `patch_magnitudes::patch_magnitudes`, for C.
#[unsafe(no_mangle)]
pub extern "C" fn ph_patch_magnitudes(
    magnitudes: &mut [f32],
    rows: usize,
    bins: usize,
    start: usize,
    new_rows: &[f32],
    flux: &mut [f64],
    threshold: &mut [f64],
    work: &mut [f64],
    flux_first: &mut usize,
    flux_past: &mut usize,
    threshold_first: &mut usize,
    threshold_past: &mut usize,
) -> u32
    ensures { PhPatchMagnitudesPromise (slab_of rows bins)
        (rows_lent magnitudes.old flux.old threshold.old) (patch_of start new_rows.now) work.old
        (ranges flux_first.old flux_past.old threshold_first.old threshold_past.old)
        result (rows_lent magnitudes.new flux.new threshold.new) work.new
        (ranges flux_first.new flux_past.new threshold_first.new threshold_past.new) }
{
    let answer = patch_magnitudes::patch_magnitudes(
        magnitudes, rows, bins, start, new_rows, flux, threshold, work,
    );
    put_rows(
        answer,
        flux_first,
        flux_past,
        threshold_first,
        threshold_past,
    )
}

// `patch_features::patch_features`, for C.
#[unsafe(no_mangle)]
pub extern "C" fn ph_patch_features(
    features: &mut [f64],
    rows: usize,
    start: usize,
    new_rows: &[f64],
    similarity: &mut [f64],
    novelty: &mut [f64],
    similarity_first: &mut usize,
    similarity_past: &mut usize,
    novelty_first: &mut usize,
    novelty_past: &mut usize,
) -> u32
    ensures { PhPatchFeaturesPromise rows
        (features_lent features.old similarity.old novelty.old) (patch_of start new_rows.now)
        (ranges similarity_first.old similarity_past.old novelty_first.old novelty_past.old)
        result (features_lent features.new similarity.new novelty.new)
        (ranges similarity_first.new similarity_past.new novelty_first.new novelty_past.new) }
{
    let answer = patch_features::patch_features(
        features, rows, start, new_rows, similarity, novelty,
    );
    put_features(
        answer,
        similarity_first,
        similarity_past,
        novelty_first,
        novelty_past,
    )
}
