// The score and the link of each frame.
ghost use Rattle.std.specs.Prelude.{◌≤◌, length};
ghost use Rattle.numbers.specs.Limits.{most_rows, most_period};
ghost use Rattle.beat_links.specs.Inner.{Penalties};
ghost use Rattle.beats.specs.Envelopes.{scaled_by};
ghost use Rattle.beats.specs.Inner.{Tracked};

use beat_links::extension_at;
use beat_links::penalties::fill_penalties;

// the slots of the table of penalties, two a frame of the period
const TABLE_SLOTS: usize = 4_096;

// Writes the score and the link of each frame, by a table of penalties or, where it is too short for the period, without.
fn track_with(
    table: &[f64],
    envelope: &[f64],
    scale: f64,
    period: usize,
    score: &mut [f64],
    back: &mut [u32],
)
    requires le_period { (1 ≤ period) × (period ≤ most_period) × (length envelope.now ≤ most_rows)
        × (length envelope.now ≤ length score.old) × (length envelope.now ≤ length back.old) }
    requires penalties { Penalties period table.now }
    ensures { Tracked period (scaled_by scale envelope.now) (length envelope.now)
        score.old score.new back.old back.new }
{
    for t in 0..envelope.len() {
        let best = extension_at(score, table, period, t);
        score[t] = envelope[t] * scale + best.value;
        back[t] = best.at;
    }
}

// Writes the score and the link of each frame. A table of 4,096 slots is enough for a period of 2,048 frames; a longer one goes without.
pub fn track(envelope: &[f64], scale: f64, period: usize, score: &mut [f64], back: &mut [u32])
    requires { (1 ≤ period) × (period ≤ most_period) × (length envelope.now ≤ most_rows)
        × (length envelope.now ≤ length score.old) × (length envelope.now ≤ length back.old) }
    ensures { Tracked period (scaled_by scale envelope.now) (length envelope.now)
        score.old score.new back.old back.new }
{
    let mut table = [0.0; TABLE_SLOTS];
    if 2 * period <= TABLE_SLOTS {
        fill_penalties(period, &mut table);
        track_with(&table, envelope, scale, period, score, back);
    } else {
        track_with(&table[0..0], envelope, scale, period, score, back);
    }
}
