// Which patches of magnitude rows are refused.
//
// Document 01, Patching (added).
ghost use Rattle.std.specs.Prelude.{true, ◌≡◌, ◌≤◌, length};
ghost use Rattle.numbers.specs.Refusals.{number_of};
ghost use Rattle.patches.specs.Patches.{patch_of};
ghost use Rattle.patch_magnitudes.specs.Tracks.{magnitude_track, patch_bounds, patch_lengths, patch_room, patch_values, patch_number};

use numbers::{Refusal, Slab};
use threshold::MEDIAN_WINDOW;

// What refuses a patch, lent `room` slots to sort in.
pub fn refusal(
    magnitudes: &[f32],
    slab: Slab,
    start: usize,
    new: &[f32],
    flux: &[f64],
    threshold: &[f64],
    room: usize,
) -> Result<(), Refusal>
    ensures { number_of result ≡
        patch_number slab (magnitude_track magnitudes.now flux.now threshold.now)
        (patch_of start new.now) room }
{
    if !bounds_fine(slab, start) {
        return Err(Refusal::OutOfBounds);
    }
    if !lengths_fine(slab, magnitudes.len(), start, new.len()) {
        return Err(Refusal::WrongLength);
    }
    let rows = slab.rows;
    if !room_fine(rows, flux.len(), threshold.len(), room) {
        return Err(Refusal::TooLittleRoom);
    }
    if !values_fine(magnitudes, rows, new, flux, threshold) {
        return Err(Refusal::WrongValue);
    }
    Ok(())
}

fn bounds_fine(slab: Slab, start: usize) -> bool
    ensures { result ≡ patch_bounds slab start }
{
    numbers::slab_fine(slab) && start <= slab.rows
}

fn lengths_fine(slab: Slab, slots: usize, start: usize, added: usize) -> bool
    requires { patch_bounds slab start ≡ true }
    ensures { result ≡ patch_lengths slab slots start added }
{
    numbers::slab_whole(slab, slots) && patches::new_rows(slab.rows, slab.bins, start, added)
}

fn room_fine(rows: usize, flux: usize, threshold: usize, room: usize) -> bool
    ensures { result ≡ patch_room rows flux threshold room }
{
    rows <= flux && (rows <= threshold && MEDIAN_WINDOW.min(rows) <= room)
}

fn values_fine(
    magnitudes: &[f32],
    rows: usize,
    new: &[f32],
    flux: &[f64],
    threshold: &[f64],
) -> bool
    requires { (rows ≤ length flux.now) × (rows ≤ length threshold.now) }
    ensures { result ≡
        patch_values rows (magnitude_track magnitudes.now flux.now threshold.now) new.now }
{
    if !numbers::magnitudes_fine(magnitudes) {
        return false;
    }
    if !numbers::magnitudes_fine(new) {
        return false;
    }
    if !numbers::values_fine(&flux[0..rows]) {
        return false;
    }
    numbers::values_fine(&threshold[0..rows])
}
