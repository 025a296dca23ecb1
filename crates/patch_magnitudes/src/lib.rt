// A repair of a track: some magnitude rows are replaced, and the flux and threshold curves are mended where that can change them.
//
// Document 01, Patching (added). The curves are then, bit for bit, those of a full run on the edited rows: proofs/Repairs.antt.
#![tactic(auto)]

mod mending; // mending.rt: what a patch writes
mod refusal; // refusal.rt: which patches are refused

ghost use Rattle.numbers.specs.Limits.{slab_of};
ghost use Rattle.patches.specs.Patches.{patch_of};
ghost use Rattle.patch_magnitudes.specs.Tracks.{magnitude_track};
ghost use Rattle.patch_magnitudes.specs.Magnitudes.{PatchMagnitudesPromise};

use numbers::{Refusal, Slab};

// What a patch did: the slots that it wrote of each curve, first and past-last.
#[derive(Clone, Copy)]
pub struct Patched {
    pub flux_first: usize,
    pub flux_past: usize,
    pub threshold_first: usize,
    pub threshold_past: usize,
}

// Replaces rows a = start up to b by the new ones, then writes flux slots a to b and threshold slots a - 10 to b + 10, cut at the
// ends, and names them. Room: rows slots for each curve, min(21, rows) of work to sort in. Refuses: 1 rows above 1,048,576, bins
// outside 1 to 4,096, start above rows; 2 magnitudes that aren't rows times bins, new ones that aren't whole rows or run past the end;
// 3 a curve or work below its room; 4 a magnitude, old or new, not finite or of size above 2^126, a value of either curve's first
// rows slots not finite or of size above 2^150. A refusal and an empty patch change nothing; slots past rows stay.
pub fn patch_magnitudes(
    magnitudes: &mut [f32],
    rows: usize,
    bins: usize,
    start: usize,
    new: &[f32],
    flux: &mut [f64],
    threshold: &mut [f64],
    work: &mut [f64],
) -> Result<Patched, Refusal>
    ensures { PatchMagnitudesPromise (slab_of rows bins)
        (magnitude_track magnitudes.old flux.old threshold.old) (patch_of start new.now) work.old
        result (magnitude_track magnitudes.new flux.new threshold.new) work.new }
{
    let slab = Slab { rows, bins };
    refusal::refusal(magnitudes, slab, start, new, flux, threshold, work.len())?;
    if new.len() == 0 {
        return Ok(Patched {
            flux_first: 0,
            flux_past: 0,
            threshold_first: 0,
            threshold_past: 0,
        });
    }
    let count = new.len() / bins;
    let flux_past = mending::mend_flux(magnitudes, slab, start, count, new, flux);
    let slots = mending::mend_threshold(flux, rows, start, count, threshold, work);
    Ok(Patched {
        flux_first: start,
        flux_past,
        threshold_first: slots.first,
        threshold_past: slots.past,
    })
}
