// An answer of `patch_magnitudes` or `patch_features`, handed over.
ghost use Rattle.patches.specs.Patches.{ranges};
ghost use Rattle.patch_magnitudes.specs.Magnitudes.{patched_says};
ghost use Rattle.patch_features.specs.Features.{patched_features_says};
ghost use Rattle.capi_answers.specs.Repairs.{SlotsHanded};

use numbers::Refusal;
use patch_features::PatchedFeatures;
use patch_magnitudes::Patched;

// Inner: stores the ranges unless the call refused, and answers its number.
pub fn put_rows(
    answer: Result<Patched, Refusal>,
    flux_first: &mut usize,
    flux_past: &mut usize,
    threshold_first: &mut usize,
    threshold_past: &mut usize,
) -> u32
    ensures { SlotsHanded (patched_says answer)
        (ranges flux_first.old flux_past.old threshold_first.old threshold_past.old)
        result (ranges flux_first.new flux_past.new threshold_first.new threshold_past.new) }
{
    match answer {
        Ok(slots) => {
            *flux_first = slots.flux_first;
            *flux_past = slots.flux_past;
            *threshold_first = slots.threshold_first;
            *threshold_past = slots.threshold_past;
            0
        }
        Err(refusal) => refusal.number(),
    }
}

// Inner: stores the ranges unless the call refused, and answers its number.
pub fn put_features(
    answer: Result<PatchedFeatures, Refusal>,
    similarity_first: &mut usize,
    similarity_past: &mut usize,
    novelty_first: &mut usize,
    novelty_past: &mut usize,
) -> u32
    ensures { SlotsHanded (patched_features_says answer)
        (ranges similarity_first.old similarity_past.old novelty_first.old novelty_past.old)
        result (ranges similarity_first.new similarity_past.new novelty_first.new novelty_past.new) }
{
    match answer {
        Ok(slots) => {
            *similarity_first = slots.similarity_first;
            *similarity_past = slots.similarity_past;
            *novelty_first = slots.novelty_first;
            *novelty_past = slots.novelty_past;
            0
        }
        Err(refusal) => refusal.number(),
    }
}
