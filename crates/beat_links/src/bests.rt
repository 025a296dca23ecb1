// The best extension of a beat among a run of earlier frames, in three forms that answer the same: with the penalties computed where they
// are needed, which is slower and asks for no table; with a table; and with a table, eight frames at a time.
ghost use Rattle.std.specs.Prelude.{◌≡◌, ◌+◌, ◌-◌, ◌<◌, ◌≤◌, length};
ghost use Rattle.numbers.specs.Limits.{most_rows};
ghost use Rattle.lists.specs.Greatest.{greatest};
ghost use Rattle.beat_links.specs.Extensions.{unlinked, extended};
ghost use Rattle.beat_links.specs.Inner.{tabled, larger, lane, top_of_eight, Reached};

use crate::NO_LINK;
use crate::penalties::penalty_of;
use lists::Best;

// One extension, with its penalty computed.
fn extended_at(score: &[f64], period: usize, t: usize, u: usize) -> f64
    requires { (u ≤ t) × (u < length score.now) }
    ensures { result ≡ extended period score.now t u }
{
    score[u] + penalty_of(period, t - u)
}

// The best extension of a beat at frame t from the frames lo up to, not including, end, with the penalties computed. No penalty is above 0,
// so none is computed where the earlier score alone is not above the best so far, or does not reach the extension over a whole period.
pub fn best_computed(score: &[f64], period: usize, t: usize, lo: usize, end: usize) -> Best
    requires { (end ≤ t) × (end ≤ length score.now) × (t ≤ most_rows) × (lo ≤ t - period) × (t - period < end) }
    ensures { result ≡ greatest (extended period score.now t) lo (end - lo) unlinked }
{
    let reached = up(0.0, extended_at(score, period, t, t.saturating_sub(period)));
    let mut value = 0.0;
    let mut at = NO_LINK;
    for u in lo..end {
        let prev = score[u];
        if reached <= prev {
            if value < prev {
                let extension = extended_at(score, period, t, u);
                if value < extension {
                    value = extension;
                    at = u as u32;
                }
            }
        }
    }
    Best {
        value: value,
        at: at,
    }
}

// One extension, by the table.
fn tabled_at(score: &[f64], table: &[f64], first: usize, lo: usize, u: usize) -> f64
    requires { (lo ≤ u) × (u < length score.now) × (first + (u - lo) < length table.now) }
    ensures { result ≡ tabled table.now score.now first lo u }
{
    score[u] + table[first + (u - lo)]
}

// The best extension by the table, in which `first` is the slot of frame lo's interval.
pub fn best_in_table(score: &[f64], table: &[f64], first: usize, lo: usize, end: usize) -> Best
    requires { (end ≤ length score.now) × (end ≤ most_rows) × (first + (end - lo) ≤ length table.now) }
    ensures { result ≡ greatest (tabled table.now score.now first lo) lo (end - lo) unlinked }
{
    let mut value = 0.0;
    let mut at = NO_LINK;
    for u in lo..end {
        let c = tabled_at(score, table, first, lo, u);
        if value < c {
            value = c;
            at = u as u32;
        }
    }
    Best {
        value: value,
        at: at,
    }
}

// The larger of a value and a candidate: a NaN never is.
fn up(v: f64, c: f64) -> f64
    ensures { result ≡ larger v c }
{
    if v < c { c } else { v }
}

// The greatest of 0 and of the extensions of frames u and u + 4: four such lanes are run side by side.
fn lane_at(score: &[f64], table: &[f64], first: usize, lo: usize, u: usize) -> f64
    requires { (lo ≤ u) × (u + 4 < length score.now) × (first + (u + 4 - lo) < length table.now) }
    ensures { result ≡ lane (tabled table.now score.now first lo) u }
{
    up(
        up(0.0, tabled_at(score, table, first, lo, u)),
        tabled_at(score, table, first, lo, u + 4),
    )
}

// The greatest of 0 and of the extensions of eight frames from u on.
fn top_of_eight(score: &[f64], table: &[f64], first: usize, lo: usize, u: usize) -> f64
    requires { (lo ≤ u) × (u + 7 < length score.now) × (first + (u + 7 - lo) < length table.now) }
    ensures { result ≡ top_of_eight (tabled table.now score.now first lo) u }
{
    let a = lane_at(score, table, first, lo, u);
    let b = lane_at(score, table, first, lo, u + 1);
    let c = lane_at(score, table, first, lo, u + 2);
    let d = lane_at(score, table, first, lo, u + 3);
    up(up(a, c), up(b, d))
}

// The first frame from `at` on whose extension reaches `value`, the greatest of all.
fn first_reaching(
    score: &[f64],
    table: &[f64],
    first: usize,
    lo: usize,
    end: usize,
    at: usize,
    value: f64,
) -> Best
    requires { (end ≤ length score.now) × (end ≤ most_rows) × (first + (end - lo) ≤ length table.now)
        × Reached (tabled table.now score.now first lo) lo end at value }
    ensures { result ≡ greatest (tabled table.now score.now first lo) lo (end - lo) unlinked }
{
    for u in at..end {
        let c = tabled_at(score, table, first, lo, u);
        if value <= c {
            let frame = u as u32;
            return Best {
                value: c,
                at: frame,
            };
        }
    }
    Best {
        value: 0.0,
        at: NO_LINK,
    }
}

// The best extension by the table, eight frames at a time: first the greatest value, then where it first is. The last eight may overlap those
// before them.
pub fn best_by_eights(score: &[f64], table: &[f64], first: usize, lo: usize, end: usize) -> Best
    requires { (lo + 8 ≤ end) × (end ≤ length score.now) × (end ≤ most_rows) × (first + (end - lo) ≤ length table.now) }
    ensures { result ≡ greatest (tabled table.now score.now first lo) lo (end - lo) unlinked }
{
    let mut value = 0.0;
    let mut at = end;
    let mut u = lo;
    // Kept as a while: step_by's loop has a second end, where its count would overflow, to be proved again.
    while u < end {
        let start = u.min(end - 8);
        let top = top_of_eight(score, table, first, lo, start);
        if value < top {
            value = top;
            at = start;
        }
        u += 8;
    }
    if at < end {
        return first_reaching(score, table, first, lo, end, at, value);
    }
    Best {
        value: 0.0,
        at: NO_LINK,
    }
}
