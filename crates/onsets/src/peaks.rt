// Peaks of a curve, and the best of each group of peaks that are close together.
//
// Document 01, Onsets. The Rust: onsets.rs `suppress_close_peaks`, and the peak loops of onsets.rs and structure.rs. Peaks are
// suppressed as they are found, in one pass: a list lent for the answer has no slot written that isn't an entry.
ghost use Rattle.std.specs.Prelude.{◌≡◌, true, ◌&&◌, ◌+◌, ◌≤◌, ◌<◌, length, is_some, unwrap_or};
ghost use Rattle.numbers.specs.Outcomes.{listing};
ghost use Rattle.numbers.specs.Refusals.{number_of};
ghost use Rattle.numbers.specs.Limits.{most_rows};
ghost use Rattle.numbers.specs.Lists.{one_if, ascending};
ghost use Rattle.onsets.specs.Peaks.{at, is_peak, peaks_of, suppressed, point_into, suppression_refusal, SuppressionPromise};
ghost use Rattle.onsets.specs.Steps.{IsRule, Picked, Stepped, Closed};

use numbers::Refusal;

// Lists the best of each group of peaks: a peak joins a group while it is at most gap past its best. Room: one slot for each peak.
// Refuses: 1 a curve longer than 1,048,576, or peaks that aren't strictly ascending or point past the curve; 3 frames shorter than
// peaks; 4 a curve value that isn't finite or is of size above 2^150. Slots past the count stay, all of them at a refusal.
pub fn suppress_close_peaks(
    peaks: &[u32],
    curve: &[f64],
    gap: usize,
    frames: &mut [u32],
) -> Result<usize, Refusal>
    ensures { SuppressionPromise peaks.now curve.now gap frames.old (listing result) frames.new }
{
    refusal(peaks, curve, frames.len())?;
    let count = suppress(peaks, curve, gap, frames);
    Ok(count)
}

fn refusal(peaks: &[u32], curve: &[f64], room: usize) -> Result<(), Refusal>
    ensures { number_of result ≡ suppression_refusal peaks.now curve.now room }
{
    if curve.len() > numbers::MOST_ROWS {
        return Err(Refusal::OutOfBounds);
    }
    if !peaks_fine(peaks, curve.len()) {
        return Err(Refusal::OutOfBounds);
    }
    if room < peaks.len() {
        return Err(Refusal::TooLittleRoom);
    }
    if numbers::values_fine(curve) {
        return Ok(());
    }
    Err(Refusal::WrongValue)
}

fn peaks_fine(peaks: &[u32], slots: usize) -> bool
    ensures { result ≡ (ascending 0 peaks.now && point_into slots peaks.now) }
{
    let mut low = 0;
    for i in 0..peaks.len() {
        let peak = peaks[i] as usize;
        if peak < low {
            return false;
        }
        if slots <= peak {
            return false;
        }
        low = peak + 1;
    }
    true
}

fn suppress(peaks: &[u32], curve: &[f64], gap: usize, frames: &mut [u32]) -> usize
    requires curve_len_bound { length curve.now ≤ most_rows }
    requires peaks_value { (ascending 0 peaks.now ≡ true) × (point_into (length curve.now) peaks.now ≡ true) }
    requires peaks_in_bounds { length peaks.now ≤ length frames.old }
    ensures { Picked (suppressed curve.now gap peaks.now) frames.old result frames.new }
{
    let mut group = Group {
        best: None,
        count: 0,
    };
    for i in 0..peaks.len() {
        group = join(group, curve, gap, peaks[i] as usize, frames);
    }
    close(group, frames)
}

// Inner: lists the onsets of a curve whose threshold at each slot is lent, and says how many they are.
pub fn pick_peaks(curve: &[f64], threshold: &[f64], gap: usize, frames: &mut [u32]) -> usize
    requires { (length curve.now ≤ most_rows) × (length curve.now ≤ length threshold.now) × (length curve.now ≤ length frames.old) }
    ensures { Picked (suppressed curve.now gap (peaks_of curve.now (at threshold.now)))
        frames.old
        result frames.new }
{
    pick_by(curve, |t| threshold[t], gap, frames)
}

// Inner: the same with one threshold for every slot.
pub fn pick_above(curve: &[f64], level: f64, gap: usize, frames: &mut [u32]) -> usize
    requires { (length curve.now ≤ most_rows) × (length curve.now ≤ length frames.old) }
    ensures { Picked (suppressed curve.now gap (peaks_of curve.now (λ _. level)))
        frames.old
        result frames.new }
{
    pick_by(curve, |_| level, gap, frames)
}

// The walk of both: the slots in turn, each with the level that is asked for it.
fn pick_by<F: Fn(usize) -> f64>(curve: &[f64], level: F, gap: usize, frames: &mut [u32]) -> usize
    requires lengths { (length curve.now ≤ most_rows) × (length curve.now ≤ length frames.old) }
    requires callable { (t : _) → t < length curve.now → F.pre level t }
    ensures { (rule : _) → IsRule (F.post level) rule → Picked (suppressed curve.now gap (peaks_of curve.now rule))
        frames.old
        result frames.new }
{
    let last = curve.len().saturating_sub(1);
    let mut group = Group {
        best: None,
        count: 0,
    };
    for t in 1..last {
        group = visit(group, curve, level(t), gap, t, frames);
    }
    close(group, frames)
}

// The best peak of the open group, if one is open; and how many bests of closed groups are listed.
#[derive(Clone, Copy)]
struct Group {
    best: Option<usize>,
    count: usize,
}

// Slot t joins, if it is a peak.
fn visit(group: Group, curve: &[f64], level: f64, gap: usize, t: usize, frames: &mut [u32]) -> Group
    requires { (length curve.now ≤ most_rows)
        × (1 ≤ t)
        × (t + 1 < length curve.now)
        × (unwrap_or group.best 0 ≤ t)
        × (group.count < length frames.old) }
    ensures { Stepped curve.now gap t (is_peak curve.now level t) group frames.old result frames.new }
{
    if is_peak(curve, level, t) {
        return join(group, curve, gap, t, frames);
    }
    group
}

// Inner: whether slot t is a peak above the level.
pub fn is_peak(curve: &[f64], level: f64, t: usize) -> bool
    requires { (1 ≤ t) × (t + 1 < length curve.now) }
    ensures { result ≡ is_peak curve.now level t }
{
    let value = curve[t];
    value > level && (value >= curve[t - 1] && value > curve[t + 1])
}

// A peak joins the open group or opens the next, and then the best of the one before it is listed.
fn join(group: Group, curve: &[f64], gap: usize, peak: usize, frames: &mut [u32]) -> Group
    requires { (length curve.now ≤ most_rows) × (peak < length curve.now) × (unwrap_or group.best 0 ≤ peak) × (group.count < length frames.old) }
    ensures { Stepped curve.now gap peak true group frames.old result frames.new }
{
    let count = group.count;
    let Some(best) = group.best else {
        return Group {
            best: Some(peak),
            count,
        };
    };
    if peak - best <= gap {
        if curve[peak] > curve[best] {
            return Group {
                best: Some(peak),
                count,
            };
        }
        return group;
    }
    frames[count] = best as u32;
    Group {
        best: Some(peak),
        count: count + 1,
    }
}

// The last group's best is listed.
fn close(group: Group, frames: &mut [u32]) -> usize
    requires { (unwrap_or group.best 0 < 4294967296) × (group.count + one_if (is_some group.best) ≤ length frames.old) }
    ensures { Closed group frames.old result frames.new }
{
    let count = group.count;
    let Some(best) = group.best else {
        return count;
    };
    frames[count] = best as u32;
    count + 1
}
