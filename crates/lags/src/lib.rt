// Tempo, the lags: those that two bounds in beats a minute stand for, and which lags are distinct or agree.
//
// Document 01, Tempo and candidates. The Rust: tempo.rs, what `pick_tempo_peaks` and `stability_of` are made of.
#![tactic(auto)]

ghost use Rattle.std.specs.Prelude.{◌≡◌, ◌≤◌, true};
ghost use Rattle.numbers.specs.Rounded.{real};
ghost use Rattle.numbers.specs.Limits.{most_period};
ghost use Rattle.floats.specs.Wholes.{round_of};
ghost use Rattle.lags.specs.Lags.{
  no_less,
  low_bpm,
  high_bpm,
  minute_over,
  bpm_at,
  bounds_fine,
  min_lag,
  max_lag,
  lags_said,
  lag_range,
  lag_room,
};

use floats::wholes::round_of;
use lists::float_of;
use numbers::{HOP, Refusal, rate_fine};
use options::{TempoOpts, options_fine};

pub mod pairs;

// seconds of a minute
const SIXTY: f64 = 60.0;

// The least and the greatest lag, in frames.
#[derive(Clone, Copy)]
pub struct LagRange {
    pub min_lag: usize,
    pub max_lag: usize,
}

// max(x, least), where a NaN counts as less
fn no_less(least: f64, x: f64) -> f64
    ensures { result ≡ no_less least x }
{
    if x > least { x } else { least }
}

// the lower bound: the bounds swapped if reversed or if one is a NaN, and at least 1
fn low_bpm(opts: TempoOpts) -> f64
    ensures { result ≡ low_bpm opts }
{
    if opts.min_bpm <= opts.max_bpm {
        return no_less(1.0, opts.min_bpm);
    }
    no_less(1.0, opts.max_bpm)
}

// the upper bound, by the same comparison: at least 1 above the lower one
fn high_bpm(opts: TempoOpts) -> f64
    ensures { result ≡ high_bpm opts }
{
    let least = low_bpm(opts) + 1.0;
    if opts.max_bpm >= opts.min_bpm {
        return no_less(least, opts.max_bpm);
    }
    no_less(least, opts.min_bpm)
}

// f·60/x, the lag of a tempo x or the tempo of a lag x, at the frame rate f of a sample rate
fn minute_over(rate: u32, x: f64) -> f64
    ensures { result ≡ minute_over rate x }
{
    rate as f64 / HOP * SIXTY / x
}

// Inner: the tempo of a lag, in beats a minute.
pub fn bpm_at(rate: u32, lag: usize) -> f64
    ensures { result ≡ bpm_at rate lag }
{
    minute_over(rate, float_of(lag))
}

// Inner: whether number 1 does not apply to the rate and the options: the rate is 1 to 192,000, the meter 1 to 16. Any two bounds are inside.
pub fn bounds_fine(rate: u32, opts: TempoOpts) -> bool
    ensures { result ≡ bounds_fine rate opts }
{
    rate_fine(rate) && options_fine(opts)
}

// Inner: the slots of each lag curve, one for each lag of the range.
pub fn lag_slots(min_lag: usize, max_lag: usize) -> usize
    requires { (min_lag ≤ max_lag) × (max_lag ≤ most_period) }
    ensures { result ≡ lag_room min_lag max_lag }
{
    max_lag - min_lag + 1
}

// the lag of a tempo, to the nearest frame
fn lag_of(rate: u32, bpm: f64) -> usize
    ensures { result ≡ round_of (minute_over rate bpm) }
{
    round_of(minute_over(rate, bpm)) as usize
}

// The lags from the fastest tempo to the slowest that the bounds allow. Refuses 1 for a rate outside 1 to 192,000 or a meter outside 1 to 16. Else
// 1 <= min_lag < max_lag <= 45,000, whatever the bounds: reversed ones are swapped, as are two of which one is a NaN, a narrow range is widened to
// 1 BPM, and an infinite upper bound is no limit.
pub fn lag_range(rate: u32, opts: TempoOpts) -> Result<LagRange, Refusal>
    ensures { lags_said result ≡ lag_range rate opts }
{
    if !bounds_fine(rate, opts) {
        return Err(Refusal::OutOfBounds);
    }
    Ok(lags_in(rate, opts))
}

// Inner: the lags that `lag_range` answers, for callers that have looked at the rate and the options.
pub fn lags_in(rate: u32, opts: TempoOpts) -> LagRange
    requires { bounds_fine rate opts ≡ true }
    ensures { result ≡ record { min_lag = min_lag rate opts; max_lag = max_lag rate opts } }
{
    let min_lag = lag_of(rate, high_bpm(opts)).max(1);
    let max_lag = (min_lag + 1).max(lag_of(rate, low_bpm(opts)));
    LagRange { min_lag, max_lag }
}
