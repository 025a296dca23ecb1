// The parts of one whole analysis that follow from the lag of a tempo: how steady it is, its beats and its downbeats.
//
// Document 01, Tempo and candidates, Beats and bars. Inner: the calls of crate analysis have looked at what is lent.
#![tactic(auto)]

ghost use Rattle.std.specs.Prelude.{◌≡◌, true, ◌≤◌, length};
ghost use Rattle.numbers.specs.Limits.{most_rows, most_period, between, value_fine};
ghost use Rattle.numbers.specs.Lists.{every};
ghost use Rattle.options.specs.Options.{most_meter};
ghost use Rattle.lags.specs.Lags.{bounds_fine};
ghost use Rattle.rooms.specs.Rooms.{lags_of};
ghost use Rattle.track_parts.specs.Inner.{Grid, Followed};

use beats::beat_grid;
use options::TempoOpts;
use stability::{Stability, stability_of};

// How many beats and downbeats are listed.
#[derive(Clone, Copy)]
pub struct Laid {
    pub beats: usize,
    pub downbeats: usize,
}

// What follows from a tempo: how steady it is, and how many beats and downbeats are listed.
#[derive(Clone, Copy)]
pub struct Following {
    pub stability: Stability,
    pub beats: usize,
    pub downbeats: usize,
}

// Inner: lays the beats of an envelope at a period, lists the downbeats among them in bars of `meter` beats and says how many there are of both.
// What it requires leaves neither call anything to refuse.
pub fn lay_beats(
    envelope: &[f64],
    period: usize,
    meter: usize,
    score: &mut [f64],
    back: &mut [u32],
    frames: &mut [u32],
    downbeats: &mut [u32],
) -> Laid
    requires envelope_len_bound { (length envelope.now ≤ most_rows) × (every value_fine envelope.now ≡ true)
        × (period ≤ most_period) × (between 1 most_meter meter ≡ true) }
    requires envelope_in_bounds { (length envelope.now ≤ length score.old)
        × (length envelope.now ≤ length back.old)
        × (length envelope.now ≤ length frames.old)
        × (length envelope.now ≤ length downbeats.old) }
    ensures { Grid envelope.now period meter
        score.old back.old frames.old downbeats.old
        result score.new back.new frames.new downbeats.new }
{
    let count = beat_grid(envelope, period, score, back, frames).unwrap();
    let opts = TempoOpts::new().with_meter(meter);
    let barred = bars::downbeats(envelope, &frames[0..count], opts, downbeats).unwrap();
    Laid {
        beats: count,
        downbeats: barred,
    }
}

// Inner: what follows from the lag of a tempo, 0 for none, where nothing is searched or written. What it requires leaves nothing to refuse.
pub fn follow(
    envelope: &[f64],
    rate: u32,
    opts: TempoOpts,
    lag: usize,
    clarity: &mut [f64],
    weight: &mut [f64],
    score: &mut [f64],
    back: &mut [u32],
    frames: &mut [u32],
    downbeats: &mut [u32],
    work: &mut [f64],
) -> Following
    requires envelope_len_bound { (length envelope.now ≤ most_rows)
        × (every value_fine envelope.now ≡ true)
        × (lag ≤ most_period)
        × (bounds_fine rate opts ≡ true) }
    requires envelope_in_bounds { (length envelope.now ≤ length score.old)
        × (length envelope.now ≤ length back.old)
        × (length envelope.now ≤ length frames.old)
        × (length envelope.now ≤ length downbeats.old) }
    requires opts_in_bounds { (lags_of rate opts ≤ length clarity.old) × (lags_of rate opts ≤ length weight.old) × (lags_of rate opts ≤ length work.old) }
    ensures { Followed envelope.now rate opts lag
        clarity.old weight.old
        score.old back.old frames.old downbeats.old work.old
        result clarity.new weight.new
        score.new back.new frames.new downbeats.new work.new }
{
    if lag == 0 {
        return Following {
            stability: Stability::None,
            beats: 0,
            downbeats: 0,
        };
    }
    let stability = stability_of(envelope, rate, opts, lag, clarity, weight, work).unwrap();
    let laid = lay_beats(envelope, lag, opts.meter, score, back, frames, downbeats);
    Following {
        stability,
        beats: laid.beats,
        downbeats: laid.downbeats,
    }
}
