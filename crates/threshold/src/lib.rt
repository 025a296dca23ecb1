// What a flux must exceed to be an onset: the median of the slots around it, and eight times how far they lie from it.
//
// Document 01, Onsets. The Rust: onsets.rs `adaptive_threshold`.
#![tactic(auto)]

ghost use Rattle.std.specs.Prelude.{◌≡◌, ◌+◌, ◌-◌, ◌≤◌, ◌<◌, length, drop};
ghost use Rattle.numbers.specs.Refusals.{number_of};
ghost use Rattle.numbers.specs.Lists.{filled};
ghost use Rattle.numbers.specs.Outcomes.{Open};
ghost use Rattle.windows.specs.Windows.{Window};
ghost use Rattle.threshold.specs.Sliding.{FinePart, sorted_threshold};
ghost use Rattle.threshold.specs.Threshold.{threshold_of, threshold_at, sorting_room, threshold_refusal, ThresholdPromise};

use numbers::Refusal;

// the most slots of a window
pub const MEDIAN_WINDOW: usize = 21;
// how many of them lie to each side
pub const REACH: usize = 10;
// a flux counts from so many times the distance of its neighbours from their median
const DELTA_SCALE: f64 = 8.0;
// and from so little more, so that silence has no onset
const DELTA_MIN: f64 = 0.000001;

// Writes threshold[0..N], N the length of flux; slots past them stay. Room: N slots, and min(21, N) of work to sort in.
// Refuses: 1 a flux longer than 1,048,576; 3 threshold or work shorter than their room; 4 a flux value that isn't finite or is
// of size above 2^150. A refusal writes nothing. Work's slots past min(21, N) stay; a threshold may be of size above 2^150.
pub fn adaptive_threshold(
    flux: &[f64],
    threshold: &mut [f64],
    work: &mut [f64],
) -> Result<(), Refusal>
    ensures { ThresholdPromise flux.now
        threshold.old work.old
        (number_of result) threshold.new work.new }
{
    refusal(flux, threshold.len(), work.len())?;
    fill_threshold(flux, threshold, 0, flux.len(), work);
    Ok(())
}

fn refusal(flux: &[f64], room: usize, work: usize) -> Result<(), Refusal>
    ensures { number_of result ≡ threshold_refusal flux.now room work }
{
    if flux.len() > numbers::MOST_ROWS {
        return Err(Refusal::OutOfBounds);
    }
    if room < flux.len() {
        return Err(Refusal::TooLittleRoom);
    }
    if work < MEDIAN_WINDOW.min(flux.len()) {
        return Err(Refusal::TooLittleRoom);
    }
    if numbers::values_fine(flux) {
        return Ok(());
    }
    Err(Refusal::WrongValue)
}

// Inner: writes slots from `from` up to, not including, `past` of the threshold curve. Where windows are whole, and the values fine, as they are past the
// refusals, the window is kept sorted from slot to slot; those cut at the ends of the curve, and the first whole one, are taken one by one.
pub fn fill_threshold(
    flux: &[f64],
    threshold: &mut [f64],
    from: usize,
    past: usize,
    work: &mut [f64],
)
    requires { (from ≤ past) × (past ≤ length flux.now) × (past ≤ length threshold.old) × (sorting_room flux.now ≤ length work.old) }
    ensures threshold_after { threshold.new ≡ filled (threshold_at flux.now) threshold.old from past }
    ensures work_unchanged { drop (sorting_room flux.now) work.new ≡ drop (sorting_room flux.now) work.old }
{
    let first = from.max(REACH + 1);
    let last = past.min(flux.len().saturating_sub(REACH));
    if first < last {
        if numbers::values_fine(&flux[first - REACH - 1..last + REACH]) {
            fill_slots(flux, threshold, from, first, work);
            fill_whole(flux, threshold, first, last);
            fill_slots(flux, threshold, last, past, work);
            return;
        }
    }
    fill_slots(flux, threshold, from, past, work);
}

fn fill_slots(flux: &[f64], threshold: &mut [f64], from: usize, past: usize, work: &mut [f64])
    requires { (from ≤ past) × (past ≤ length flux.now) × (past ≤ length threshold.old) × (sorting_room flux.now ≤ length work.old) }
    ensures threshold_after { threshold.new ≡ filled (threshold_at flux.now) threshold.old from past }
    ensures work_unchanged { drop (sorting_room flux.now) work.new ≡ drop (sorting_room flux.now) work.old }
{
    for t in from..past {
        threshold[t] = threshold_slot(flux, t, work);
    }
}

// Slots whose windows are whole, and that of the slot before the first too: with that one it begins. Where the value that comes is the one that leaves,
// as in silence, the threshold is that of the slot before.
fn fill_whole(flux: &[f64], threshold: &mut [f64], from: usize, past: usize)
    requires le_from { (11 ≤ from) × (from < past) × (past + 10 ≤ length flux.now) × (past ≤ length threshold.old) }
    requires fine_part { FinePart flux.now (from - 11) (past + 10) }
    ensures { threshold.new ≡ filled (threshold_at flux.now) threshold.old from past }
{
    let mut s = windows::sorted(&flux[from - REACH - 1..from + REACH]);
    let mut value = over_sorted(&s);
    for t in from..past {
        let leaves = windows::one_zero(flux[t - REACH - 1]);
        let comes = windows::one_zero(flux[t + REACH]);
        if leaves != comes {
            windows::replace(&mut s, leaves, comes);
            value = over_sorted(&s);
        }
        threshold[t] = value;
    }
}

fn over_sorted(s: &[f64; 21]) -> f64
    requires { Window s.now }
    ensures { result ≡ sorted_threshold s.now }
{
    s[REACH] + DELTA_SCALE * windows::middle_distance(s) + DELTA_MIN
}

// Inner: the threshold at one slot, for a caller that writes it itself, as where flux and threshold lie in one slice and can't be lent apart.
pub fn threshold_slot(flux: &[f64], t: usize, work: &mut [f64]) -> f64
    requires { (t < length flux.now) × (sorting_room flux.now ≤ length work.old) }
    ensures value { result ≡ threshold_at flux.now t }
    ensures fact { Open (sorting_room flux.now) work.old work.new }
{
    let start = t.saturating_sub(REACH);
    let end = (t + REACH + 1).min(flux.len());
    over_window(&flux[start..end], work)
}

fn over_window(window: &[f64], work: &mut [f64]) -> f64
    requires { (0 < length window.now) × (length window.now ≤ length work.old) }
    ensures value { result ≡ threshold_of window.now }
    ensures fact { Open (length window.now) work.old work.new }
{
    let med = median::median_in(window, work);
    let mad = median::mad_in(window, med, work);
    med + DELTA_SCALE * mad + DELTA_MIN
}
