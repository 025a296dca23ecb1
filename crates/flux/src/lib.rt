// Onset strength: how much each frame rises over the one before it.
//
// Document 01, Onsets. The Rust: onsets.rs `spectral_flux`. Four rows go side by side, a part of each at a time (crate flux_rows). The four lie a
// quarter of the rows apart, so that each is read on from where the row before it ended. That takes less time; each row's sum still runs in its own
// ascending order, so the bits are those of one row after the other.
#![tactic(auto)]

ghost use Rattle.std.specs.Prelude.{◌≡◌, ◌+◌, ◌*◌, ◌≤◌, ◌<◌, length, set};
ghost use Rattle.numbers.specs.Limits.{slab_of};
ghost use Rattle.numbers.specs.Refusals.{number_of};
ghost use Rattle.numbers.specs.Lists.{filled};
ghost use Rattle.flux.specs.Flux.{flux_at, flux_refusal, FluxPromise};

use flux_rows::{Four, Magnitudes, PART, part_room, rise_at, rise_part, rise_rest};
use numbers::{Refusal, Slab};

// Writes flux[0..rows], the onset strength of each row of magnitudes; slots past them stay. Room: rows slots.
// Refuses: 1 rows above 1,048,576 or bins outside 1 to 4,096; 2 magnitudes that aren't rows times bins; 3 flux shorter than rows;
// 4 a magnitude that isn't finite or is of size above 2^126. A refusal writes nothing.
pub fn spectral_flux(
    magnitudes: &[f32],
    rows: usize,
    bins: usize,
    flux: &mut [f64],
) -> Result<(), Refusal>
    ensures { FluxPromise magnitudes.now (slab_of rows bins) flux.old (number_of result) flux.new }
{
    let slab = Slab { rows, bins };
    refusal(magnitudes, slab, flux.len())?;
    let m = Magnitudes {
        values: magnitudes,
        slab,
    };
    fill_flux(m, 0, rows, flux);
    Ok(())
}

fn refusal(magnitudes: &[f32], slab: Slab, room: usize) -> Result<(), Refusal>
    ensures { number_of result ≡ flux_refusal magnitudes.now slab room }
{
    if !numbers::slab_fine(slab) {
        return Err(Refusal::OutOfBounds);
    }
    if !numbers::slab_whole(slab, magnitudes.len()) {
        return Err(Refusal::WrongLength);
    }
    if room < slab.rows {
        return Err(Refusal::TooLittleRoom);
    }
    if numbers::magnitudes_fine(magnitudes) {
        return Ok(());
    }
    Err(Refusal::WrongValue)
}

// Inner: writes slots from `from` up to, not including, `past` of the flux curve, for callers that have looked at the magnitudes.
pub fn fill_flux(m: Magnitudes<'_>, from: usize, past: usize, out: &mut [f64])
    requires { (from ≤ past) × (past ≤ m.slab.rows) × (past ≤ length out.old) }
    ensures { out.new ≡ filled (flux_at m.entry.values.now m.entry.slab) out.old from past }
{
    if from < 1 {
        if past < 1 {
            return;
        }
        fill_each(m, from, 1, out);
        fill_four(m, 1, past, out);
        return;
    }
    fill_four(m, from, past, out);
}

// Four quarters of the slots side by side, and then what is left.
fn fill_four(m: Magnitudes<'_>, from: usize, past: usize, out: &mut [f64])
    requires { (1 ≤ from) × (from ≤ past) × (past ≤ m.slab.rows) × (past ≤ length out.old) }
    ensures { out.new ≡ filled (flux_at m.entry.values.now m.entry.slab) out.old from past }
{
    let quarter = (past - from) / 4;
    for k in 0..quarter {
        put_four(out, from + k, quarter, flux_four(m, from + k, quarter));
    }
    fill_each(m, from + 4 * quarter, past, out);
}

fn fill_each(m: Magnitudes<'_>, from: usize, past: usize, out: &mut [f64])
    requires { (from ≤ past) × (past ≤ m.slab.rows) × (past ≤ length out.old) }
    ensures { out.new ≡ filled (flux_at m.entry.values.now m.entry.slab) out.old from past }
{
    for t in from..past {
        out[t] = flux_slot(m, t);
    }
}

// Inner: slot t of the flux curve.
pub fn flux_slot(m: Magnitudes<'_>, t: usize) -> f64
    requires { t < m.slab.rows }
    ensures { result ≡ flux_at m.entry.values.now m.entry.slab t }
{
    if t == 0 {
        return 0.0;
    }
    rise_at(m, t, 0, 0.0)
}

// Four slots of the flux curve, so many rows apart.
fn flux_four(m: Magnitudes<'_>, t: usize, apart: usize) -> Four
    requires { (1 ≤ t) × (t + 3 * apart < m.slab.rows) }
    ensures { (result.a ≡ flux_at m.entry.values.now m.entry.slab t)
        × (result.b ≡ flux_at m.entry.values.now m.entry.slab (t + apart))
        × (result.c ≡ flux_at m.entry.values.now m.entry.slab (t + 2 * apart))
        × (result.d ≡ flux_at m.entry.values.now m.entry.slab (t + 3 * apart)) }
{
    let mut a = part_room();
    let mut b = part_room();
    let mut c = part_room();
    let mut d = part_room();
    let mut f = Four {
        a: 0.0,
        b: 0.0,
        c: 0.0,
        d: 0.0,
    };
    let mut i = 0;
    // Kept as a while: the place behind the last whole part is used below.
    while PART <= m.slab.bins - i {
        f = rise_part(f, m, t, apart, i, &mut a, &mut b, &mut c, &mut d);
        i += PART;
    }
    rise_rest(f, m, t, apart, i)
}

// Four slots, so many slots apart.
fn put_four(out: &mut [f64], t: usize, apart: usize, f: Four)
    requires { t + 3 * apart < length out.old }
    ensures { out.new ≡
        set (set (set (set out.old t f.a) (t + apart) f.b) (t + 2 * apart) f.c) (t + 3 * apart) f.d }
{
    out[t] = f.a;
    out[t + apart] = f.b;
    out[t + 2 * apart] = f.c;
    out[t + 3 * apart] = f.d;
}
