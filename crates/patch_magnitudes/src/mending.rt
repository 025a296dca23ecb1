// What a patch of magnitude rows writes: the rows, and the slots of the flux and threshold curves that they can change.
//
// Document 01, Patching (added).
ghost use Rattle.std.specs.Prelude.{◌≡◌, true, ◌+◌, ◌-◌, ◌*◌, ◌≤◌, min, length, take, drop};
ghost use Rattle.numbers.specs.Limits.{most_rows, magnitude_fine, slab_slots};
ghost use Rattle.numbers.specs.Lists.{filled, every};
ghost use Rattle.flux.specs.Flux.{flux_at};
ghost use Rattle.threshold.specs.Threshold.{reach, threshold_at, window_room};
ghost use Rattle.patches.specs.Patches.{patch_of, edited};

use flux_rows::Magnitudes;
use numbers::Slab;
use threshold::REACH;

// Slots of a curve, the first and the past-last.
#[derive(Clone, Copy)]
pub struct Slots {
    pub first: usize,
    pub past: usize,
}

// Replaces `count` rows from row a = start on, up to b, by the new ones, then writes flux slots a to b, cut at the end. The
// past-last slot written.
pub fn mend_flux(
    magnitudes: &mut [f32],
    slab: Slab,
    start: usize,
    count: usize,
    new: &[f32],
    flux: &mut [f64],
) -> usize
    requires magnitudes_len { (length magnitudes.old ≡ slab_slots slab) × (length new.now ≡ count * slab.bins) × (start + count ≤ slab.rows) }
    requires magnitudes_value { (every magnitude_fine magnitudes.old ≡ true) × (every magnitude_fine new.now ≡ true) }
    requires rows_le_most_rows { (slab.rows ≤ most_rows) × (slab.rows ≤ length flux.old) }
    ensures value { result ≡ min (start + count + 1) slab.rows }
    ensures magnitudes_after { magnitudes.new ≡ edited slab.bins magnitudes.old (patch_of start new.now) }
    ensures flux_after { flux.new ≡ filled (flux_at magnitudes.new slab) flux.old start result }
{
    patches::put_over(magnitudes, start * slab.bins, new);
    let past = start + count;
    let flux_past = (past + 1).min(slab.rows);
    let mended = Magnitudes {
        values: magnitudes,
        slab,
    };
    flux::fill_flux(mended, start, flux_past, flux);
    flux_past
}

// Writes threshold slots a - 10 to b + 10, cut at the ends, from the flux of `count` replaced rows from row a = start on, up to b.
// The slots written.
pub fn mend_threshold(
    flux: &[f64],
    rows: usize,
    start: usize,
    count: usize,
    threshold: &mut [f64],
    work: &mut [f64],
) -> Slots
    requires { (start + count ≤ rows) × (rows ≤ most_rows)
        × (rows ≤ length flux.now) × (rows ≤ length threshold.old) × (window_room rows ≤ length work.old) }
    ensures first_value { (result.first ≡ start - reach) × (result.past ≡ min (start + count + reach + 1) rows) }
    ensures threshold_after { threshold.new ≡ filled (threshold_at (take rows flux.now)) threshold.old result.first result.past }
    ensures work_unchanged { drop (window_room rows) work.new ≡ drop (window_room rows) work.old }
{
    let past = start + count;
    let threshold_first = start.saturating_sub(REACH);
    let threshold_past = (past + REACH + 1).min(rows);
    threshold::fill_threshold(
        &flux[0..rows],
        threshold,
        threshold_first,
        threshold_past,
        work,
    );
    Slots {
        first: threshold_first,
        past: threshold_past,
    }
}
