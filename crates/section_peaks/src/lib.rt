// The peaks of a novelty curve that are boundaries: the best of each group of close ones, and of those the greatest.
//
// Document 01, Sections. The Rust: structure.rs `pick_boundaries`. Where there are too many, their values are sorted to find the level
// of the last that is taken, and a second walk lists them: a list lent for the answer has no slot written that isn't an entry.
#![tactic(auto)]

ghost use Rattle.std.specs.Prelude.{◌≡◌, true, map, suc, ◌+◌, ◌-◌, ◌≤◌, ◌<◌, length};
ghost use Rattle.numbers.specs.Limits.{most_features};
ghost use Rattle.floats.specs.TotalOrder.{key};
ghost use Rattle.median.specs.Ranks.{below};
ghost use Rattle.onsets.specs.Peaks.{at, is_peak, peaks_of, suppressed, better};
ghost use Rattle.onsets.specs.Steps.{Picked};
ghost use Rattle.section_peaks.specs.Greatest.{kept_greatest};
ghost use Rattle.section_peaks.specs.Steps.{kept_from, AtPeak, Next, Grouped, CutAt, Judged, chosen, Noted, PickedIn};

// Inner: lists at most `most` of the kept peaks of a curve above a level, the greatest, and says how many they are.
pub fn pick_boundaries(
    curve: &[f64],
    level: f64,
    gap: usize,
    most: usize,
    rows: &mut [u32],
    work: &mut [f64],
) -> usize
    requires { (length curve.now ≤ most_features) × (length curve.now ≤ length rows.old) × (length curve.now ≤ length work.old) }
    ensures { PickedIn (length curve.now)
        (kept_greatest curve.now most (suppressed curve.now gap (peaks_of curve.now (λ _. level))))
        rows.old work.old
        result rows.new work.new }
{
    if most == 0 {
        return 0;
    }
    let count = note_values(curve, level, gap, work);
    if count <= most {
        return onsets::peaks::pick_above(curve, level, gap, rows);
    }
    let cut = cut_at(&mut work[..count], most);
    list_chosen(curve, level, gap, cut, rows)
}

// Writes the values of the kept peaks, and says how many they are.
fn note_values(curve: &[f64], level: f64, gap: usize, work: &mut [f64]) -> usize
    requires { length curve.now ≤ length work.old }
    ensures { Noted (map (at curve.now) (kept_from curve.now level gap 1)) work.old result work.new }
{
    let last = curve.len().saturating_sub(1);
    let mut count = 0;
    let mut t = next_peak(curve, level, 1);
    // Kept as a while: the next group begins where this one ends.
    while t < last {
        let group = group_of(curve, level, gap, t);
        let best = group.best;
        work[count] = curve[best];
        count += 1;
        t = group.next;
    }
    count
}

// Lists the kept peaks that a cut takes, and says how many they are.
fn list_chosen(curve: &[f64], level: f64, gap: usize, cut: Cut, rows: &mut [u32]) -> usize
    requires { (length curve.now ≤ most_features) × (length curve.now ≤ length rows.old) }
    ensures { Picked (chosen curve.now (key cut.level) cut.spare (kept_from curve.now level gap 1))
        rows.old
        result rows.new }
{
    let last = curve.len().saturating_sub(1);
    let edge = cut.level;
    let mut spare = cut.spare;
    let mut count = 0;
    let mut t = next_peak(curve, level, 1);
    // Kept as a while: the next group begins where this one ends.
    while t < last {
        let group = group_of(curve, level, gap, t);
        let best = group.best;
        let verdict = judge(edge, spare, curve[best]);
        t = group.next;
        spare = verdict.spare;
        if !verdict.taken {
            continue;
        }
        rows[count] = best as u32;
        count += 1;
    }
    count
}

// ---- the walk

// The best of a group of close peaks, and the peak that opens the next group, or the last slot.
#[derive(Clone, Copy)]
struct Group {
    best: usize,
    next: usize,
}

// The group that a peak opens: a next peak joins it while it is at most gap past its best.
fn group_of(curve: &[f64], level: f64, gap: usize, peak: usize) -> Group
    requires { (1 ≤ peak) × (peak < length curve.now - 1) × (is_peak curve.now level peak ≡ true) }
    ensures { Grouped curve.now level gap peak result }
{
    let last = curve.len() - 1;
    let mut best = peak;
    let mut t = next_peak(curve, level, peak + 1);
    // Kept as a while: it goes from peak to peak.
    while t < last {
        if t - best > gap {
            return Group { best, next: t };
        }
        best = better_of(curve, best, t);
        t = next_peak(curve, level, t + 1);
    }
    Group { best, next: t }
}

// The best of a group after a peak joined it.
fn better_of(curve: &[f64], best: usize, peak: usize) -> usize
    requires { (best < length curve.now) × (peak < length curve.now) }
    ensures { result ≡ better curve.now best peak }
{
    if curve[best] < curve[peak] {
        peak
    } else {
        best
    }
}

// The first peak from a slot on, or the last slot.
fn next_peak(curve: &[f64], level: f64, from: usize) -> usize
    requires { 1 ≤ from }
    ensures { Next curve.now level from result }
{
    let last = curve.len().saturating_sub(1);
    for t in from..last {
        if onsets::peaks::is_peak(curve, level, t) {
            return t;
        }
    }
    from.max(last)
}

// ---- the cut

// The least value that is taken, and how many are taken of those that equal it.
#[derive(Clone, Copy)]
struct Cut {
    level: f64,
    spare: usize,
}

// The cut that takes `most` of the values, the greatest. They are sorted.
fn cut_at(values: &mut [f64], most: usize) -> Cut
    requires { (0 < most) × (most < length values.old) }
    ensures { CutAt most values.old result }
{
    median::sort_by_bits(values);
    let n = values.len();
    let level = values[n - most];
    let spare = at_most(values, level) - (n - most);
    Cut { level, spare }
}

// How many values don't stand above a level.
fn at_most(values: &[f64], level: f64) -> usize
    ensures { result ≡ below (suc (key level)) values.now }
{
    let mut n = 0;
    for &x in values {
        if floats::bits::precedes(level, x) {
            continue;
        }
        n += 1;
    }
    n
}

// Whether a value is taken, and how many of those at the level may be afterwards.
#[derive(Clone, Copy)]
struct Verdict {
    taken: bool,
    spare: usize,
}

fn judge(level: f64, spare: usize, value: f64) -> Verdict
    ensures { Judged (key level) spare (key value) result }
{
    if floats::bits::precedes(level, value) {
        return Verdict { taken: true, spare };
    }
    if floats::bits::precedes(value, level) {
        return Verdict {
            taken: false,
            spare,
        };
    }
    Verdict {
        taken: 0 < spare,
        spare: spare.saturating_sub(1),
    }
}
