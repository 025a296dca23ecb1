// Tempo, the lag curves: how much an envelope resembles itself a lag later, and that weighted by how likely the tempo is.
//
// Document 01, Tempo and candidates. The Rust: tempo.rs `pick_tempo_peaks` and `tempo_prior_weight`.
#![tactic(auto)]

ghost use Rattle.std.specs.Prelude.{◌≡◌, ◌+◌, ◌≤◌, ◌<◌, length};
ghost use Rattle.numbers.specs.Rounded.{nought, held, one};
ghost use Rattle.numbers.specs.Limits.{most_period};
ghost use Rattle.numbers.specs.Lists.{filled};
ghost use Rattle.lags.specs.Lags.{lag_room};
ghost use Rattle.lag_sums.specs.Lanes.{eight_sums};
ghost use Rattle.lag_curves.specs.Curves.{
  clarity_of,
  clarity_from,
  prior_of,
  prior_at,
  prior_from,
  weight_from,
  weighted,
  weighted_by,
};

use floats::exps::exp;
use floats::logs::log2;
use lag_sums::abreast::{Eight, block_sums, eight_noughts, eight_sums};
use lag_sums::{lag_rest, lag_sum};
use lags::bpm_at;
use lists::float_of;

// the tempo that is heard most, in beats a minute
const LIKELIEST: f64 = 120.0;
// how many octaves from it a tempo is still likely
const LIKELY_WIDTH: f64 = 1.3;

// x held to 0..1
fn unit_of(x: f64) -> f64
    ensures { result ≡ held nought one x }
{
    if x < 0.0 {
        return 0.0;
    }
    if x > 1.0 { 1.0 } else { x }
}

// the clarity of a lag from its sum
fn clarity_of(sum: f64, ac0: f64, n: usize, lag: usize) -> f64
    requires { lag ≤ n }
    ensures { result ≡ clarity_of sum ac0 n lag }
{
    unit_of(sum * float_of(n) / (ac0 * float_of(n - lag)))
}

// Slots `from` to `from + 7` of a clarity curve whose slot 0 is the lag min_lag, from their sums over the times below t: the eight
// together as far as all of them reach, in pairs of times, and then each to its own end.
fn fill_eight(
    envelope: &[f64],
    mean: f64,
    ac0: f64,
    min_lag: usize,
    from: usize,
    t: usize,
    below: Eight,
    clarity: &mut [f64],
)
    requires from_in_bounds { (min_lag + from + 7 < length envelope.now)
        × (t + (min_lag + from) + 7 ≤ length envelope.now)
        × (from + 8 ≤ length clarity.old) }
    requires below_value { below ≡ eight_sums envelope.now mean (min_lag + from) t }
    ensures { clarity.new ≡ filled (clarity_from envelope.now mean ac0 min_lag) clarity.old from (from + 8) }
{
    let n = envelope.len();
    let lag = min_lag + from;
    let past = t + (n - lag - 7 - t) / 2 * 2;
    let s = eight_sums(envelope, mean, lag, t, past, below);
    let sums = [s.a, s.b, s.c, s.d, s.e, s.f, s.g, s.h];
    for j in 0..8 {
        let sum = lag_rest(envelope, mean, lag + j, past, sums[j]);
        clarity[from + j] = clarity_of(sum, ac0, n, lag + j);
    }
}

// Slots `from` to `from + 15`, from two such eights.
fn fill_sixteen(
    envelope: &[f64],
    mean: f64,
    ac0: f64,
    min_lag: usize,
    from: usize,
    t: usize,
    low: Eight,
    high: Eight,
    clarity: &mut [f64],
)
    requires from_in_bounds { (min_lag + from + 15 < length envelope.now)
        × (t + (min_lag + from) + 15 ≤ length envelope.now)
        × (from + 16 ≤ length clarity.old) }
    requires low_value { (low ≡ eight_sums envelope.now mean (min_lag + from) t) × (high ≡ eight_sums envelope.now mean (min_lag + (from + 8)) t) }
    ensures { clarity.new ≡ filled (clarity_from envelope.now mean ac0 min_lag) clarity.old from (from + 16) }
{
    fill_eight(envelope, mean, ac0, min_lag, from, t, low, clarity);
    fill_eight(envelope, mean, ac0, min_lag, from + 8, t, high, clarity);
}

// Slots `from` to `from + 31`: as many blocks as fit, and then each eight of them to its end.
fn fill_thirty_two(
    envelope: &[f64],
    mean: f64,
    ac0: f64,
    min_lag: usize,
    from: usize,
    clarity: &mut [f64],
)
    requires { (min_lag + from + 31 < length envelope.now) × (from + 32 ≤ length clarity.old) }
    ensures { clarity.new ≡ filled (clarity_from envelope.now mean ac0 min_lag) clarity.old from (from + 32) }
{
    let lag = min_lag + from;
    let t = (envelope.len() - lag - 32) / 128 * 128;
    let s = block_sums(envelope, mean, lag, t);
    let a = s.a;
    let b = s.b;
    let c = s.c;
    let d = s.d;
    fill_sixteen(envelope, mean, ac0, min_lag, from, t, a, b, clarity);
    fill_sixteen(envelope, mean, ac0, min_lag, from + 16, t, c, d, clarity);
}

// Slots `from` up to `past` of a clarity curve, one lag at a time.
fn fill_singly(
    envelope: &[f64],
    mean: f64,
    ac0: f64,
    min_lag: usize,
    from: usize,
    past: usize,
    clarity: &mut [f64],
)
    requires { (from ≤ past) × (min_lag + past ≤ length envelope.now) × (past ≤ length clarity.old) }
    ensures { clarity.new ≡ filled (clarity_from envelope.now mean ac0 min_lag) clarity.old from past }
{
    for i in from..past {
        let lag = min_lag + i;
        clarity[i] = clarity_of(lag_sum(envelope, mean, lag), ac0, envelope.len(), lag);
    }
}

// Slots `from` up to `past`: eight lags at a time, and then what is left.
fn fill_eights(
    envelope: &[f64],
    mean: f64,
    ac0: f64,
    min_lag: usize,
    from: usize,
    past: usize,
    clarity: &mut [f64],
)
    requires { (from ≤ past) × (min_lag + past ≤ length envelope.now) × (past ≤ length clarity.old) }
    ensures { clarity.new ≡ filled (clarity_from envelope.now mean ac0 min_lag) clarity.old from past }
{
    let z = eight_noughts();
    let mut i = from;
    // Kept as a while: the place behind the last whole eight is used below.
    while past - i >= 8 {
        fill_eight(envelope, mean, ac0, min_lag, i, 0, z, clarity);
        i += 8;
    }
    fill_singly(envelope, mean, ac0, min_lag, i, past, clarity);
}

// Inner: the clarity curve, one slot a lag from min_lag to max_lag, of an envelope with this mean and this energy about it: thirty-two lags at
// a time. The last of them may begin before the lags that are left and write some again: that takes less than one lag at a time.
pub fn fill_clarity(
    envelope: &[f64],
    mean: f64,
    ac0: f64,
    min_lag: usize,
    max_lag: usize,
    clarity: &mut [f64],
)
    requires { (min_lag ≤ max_lag) × (max_lag < length envelope.now) × (lag_room min_lag max_lag ≤ length clarity.old) }
    ensures { clarity.new ≡
        filled (clarity_from envelope.now mean ac0 min_lag) clarity.old 0 (lag_room min_lag max_lag) }
{
    let count = max_lag - min_lag + 1;
    if count < 32 {
        fill_eights(envelope, mean, ac0, min_lag, 0, count, clarity);
        return;
    }
    let mut i = 0;
    // Kept as a while: the last run begins where it still fits, so the places of runs are no range.
    while i < count {
        let from = i.min(count - 32);
        fill_thirty_two(envelope, mean, ac0, min_lag, from, clarity);
        i = from + 32;
    }
}

// how likely a tempo is: 1 at 120 beats a minute, less each octave away
fn prior_of(bpm: f64) -> f64
    ensures { result ≡ prior_of bpm }
{
    let z = log2(bpm / LIKELIEST) / LIKELY_WIDTH;
    exp(-0.5 * z * z)
}

// Inner: how likely the tempo of a lag is.
pub fn prior_at(rate: u32, lag: usize) -> f64
    ensures { result ≡ prior_at rate lag }
{
    prior_of(bpm_at(rate, lag))
}

// Inner: the weight curve of a clarity curve, one slot a lag from min_lag to max_lag.
pub fn fill_weight(clarity: &[f64], rate: u32, min_lag: usize, max_lag: usize, weight: &mut [f64])
    requires { (min_lag ≤ max_lag) × (max_lag ≤ most_period)
        × (lag_room min_lag max_lag ≤ length clarity.now) × (lag_room min_lag max_lag ≤ length weight.old) }
    ensures { weight.new
        ≡ filled (weighted clarity.now rate min_lag) weight.old 0 (lag_room min_lag max_lag) }
{
    let count = max_lag - min_lag + 1;
    for i in 0..count {
        weight[i] = clarity[i] * prior_at(rate, min_lag + i);
    }
}

// Inner: the prior of each lag from min_lag to max_lag, for a call that weighs several clarity curves of one range.
pub fn fill_priors(rate: u32, min_lag: usize, max_lag: usize, priors: &mut [f64])
    requires { (min_lag ≤ max_lag) × (max_lag ≤ most_period) × (lag_room min_lag max_lag ≤ length priors.old) }
    ensures { priors.new ≡ filled (prior_from rate min_lag) priors.old 0 (lag_room min_lag max_lag) }
{
    let count = max_lag - min_lag + 1;
    for i in 0..count {
        priors[i] = prior_at(rate, min_lag + i);
    }
}

// Inner: the weight curve of a clarity curve, from the priors of its lags.
pub fn weigh(clarity: &[f64], priors: &[f64], count: usize, weight: &mut [f64])
    requires { (count ≤ length clarity.now) × (count ≤ length priors.now) × (count ≤ length weight.old) }
    ensures { weight.new ≡ filled (weighted_by clarity.now priors.now) weight.old 0 count }
{
    for i in 0..count {
        weight[i] = clarity[i] * priors[i];
    }
}

// Inner: both lag curves.
pub fn fill_lag_curves(
    envelope: &[f64],
    mean: f64,
    ac0: f64,
    rate: u32,
    min_lag: usize,
    max_lag: usize,
    clarity: &mut [f64],
    weight: &mut [f64],
)
    requires min_lag_le_max_lag { (min_lag ≤ max_lag) × (max_lag ≤ most_period) × (max_lag < length envelope.now) }
    requires max_lag_in_bounds { (lag_room min_lag max_lag ≤ length clarity.old) × (lag_room min_lag max_lag ≤ length weight.old) }
    ensures clarity_after { clarity.new ≡
        filled (clarity_from envelope.now mean ac0 min_lag) clarity.old 0 (lag_room min_lag max_lag) }
    ensures weight_after { weight.new ≡
        filled (weight_from envelope.now mean ac0 rate min_lag) weight.old 0 (lag_room min_lag max_lag) }
{
    fill_clarity(envelope, mean, ac0, min_lag, max_lag, clarity);
    fill_weight(clarity, rate, min_lag, max_lag, weight);
}
