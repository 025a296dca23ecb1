// The beats: the links walked back from the first greatest score.
ghost use Rattle.std.specs.Prelude.{◌≡◌, ◌≤◌, ◌<◌, length};
ghost use Rattle.numbers.specs.Limits.{most_rows, most_period};
ghost use Rattle.numbers.specs.Lists.{listed};
ghost use Rattle.beats.specs.Envelopes.{scaled_by};
ghost use Rattle.beats.specs.Grids.{link_at, beats_to};
ghost use Rattle.beats.specs.Inner.{Descends, GridLaid};

use crate::scores::track;
use beat_links::NO_LINK;
use lists::first_greatest;

// Writes the score and the link of each frame and lists the beats; answers how many there are.
pub fn lay_grid(
    envelope: &[f64],
    scale: f64,
    period: usize,
    score: &mut [f64],
    back: &mut [u32],
    beats: &mut [u32],
) -> usize
    requires le_period { (1 ≤ period) × (period ≤ most_period) × (1 ≤ length envelope.now) × (length envelope.now ≤ most_rows) }
    requires envelope_in_bounds { (length envelope.now ≤ length score.old)
        × (length envelope.now ≤ length back.old)
        × (length envelope.now ≤ length beats.old) }
    ensures { GridLaid period (scaled_by scale envelope.now) (length envelope.now)
        score.old score.new back.old back.new beats.old beats.new
        result }
{
    track(envelope, scale, period, score, back);
    let end = first_greatest(score, envelope.len());
    let count = count_beats(back, end);
    store_beats(back, end, count, beats);
    count
}

// How many beats end at frame `end`.
fn count_beats(back: &[u32], end: usize) -> usize
    requires { (end < length back.now) × (end < most_rows) × Descends (link_at back.now) end }
    ensures { result ≡ length (beats_to (link_at back.now) end) }
{
    let mut t = end;
    let mut count = 1;
    // Kept as a while: it goes from link to link, and counts.
    while back[t] != NO_LINK {
        t = back[t] as usize;
        count += 1;
    }
    count
}

// Stores those beats, the last first: `count` says how many there are.
fn store_beats(back: &[u32], end: usize, count: usize, beats: &mut [u32])
    requires { (end < length back.now) × (end < most_rows) × (end < length beats.old)
        × Descends (link_at back.now) end
        × (count ≡ length (beats_to (link_at back.now) end)) }
    ensures { beats.new ≡ listed (beats_to (link_at back.now) end) beats.old }
{
    let mut t = end;
    for i in (1..count).rev() {
        beats[i] = t as u32;
        t = back[t] as usize;
    }
    beats[0] = t as u32;
}
