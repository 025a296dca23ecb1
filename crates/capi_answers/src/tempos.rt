// An answer of `lag_range`, `estimate` or `stability_of`, handed over.
ghost use Rattle.std.specs.Prelude.{◌≡◌};
ghost use Rattle.lags.specs.Lags.{lags_said};
ghost use Rattle.tempo.specs.Answers.{estimate_said};
ghost use Rattle.stability.specs.Answers.{steadiness};
ghost use Rattle.capi_answers.specs.Handed.{Handed};
ghost use Rattle.capi_answers.specs.Tempos.{
  lags_lent,
  lag_parts,
  found_in,
  bpm_in,
  clarity_in,
  candidate_lags_of,
  saliences_of,
  tempo_lent,
  tempo_parts,
  share_lent,
  share_parts,
};

use lags::LagRange;
use numbers::Refusal;
use stability::Stability;
use tempo::{Candidate, Tempo, TempoEstimate};

// Inner: stores the lags unless the call refused, and answers its number.
pub fn put_range(range: Result<LagRange, Refusal>, min_lag: &mut usize, max_lag: &mut usize) -> u32
    ensures { Handed (lags_said range).number (lag_parts (lags_said range)) (lags_lent min_lag.old max_lag.old)
        result (lags_lent min_lag.new max_lag.new) }
{
    match range {
        Ok(lags) => {
            *min_lag = lags.min_lag;
            *max_lag = lags.max_lag;
            0
        }
        Err(refusal) => refusal.number(),
    }
}

// Inner: stores the kind of a tempo, and its values, +0 without one.
pub fn put_tempo(tempo: Tempo, found: &mut u32, bpm: &mut f64, clarity: &mut f64)
    ensures { (found.new ≡ found_in tempo) × (bpm.new ≡ bpm_in tempo) × (clarity.new ≡ clarity_in tempo) }
{
    match tempo {
        Tempo::None => {
            *found = 0;
            *bpm = 0.0;
            *clarity = 0.0;
        }
        Tempo::Found {
            bpm: beats,
            clarity: clear,
        } => {
            *found = 1;
            *bpm = beats;
            *clarity = clear;
        }
    }
}

// Inner: stores the lags and the saliences of the candidates.
pub fn put_candidates(candidates: [Candidate; 3], lags: &mut [usize; 3], saliences: &mut [f64; 3])
    ensures { (lags.new ≡ candidate_lags_of candidates) × (saliences.new ≡ saliences_of candidates) }
{
    let first = candidates[0];
    let second = candidates[1];
    let third = candidates[2];
    *lags = [first.lag, second.lag, third.lag];
    *saliences = [first.salience, second.salience, third.salience];
}

// Inner: stores the parts of an estimate unless the call refused, and answers its number.
pub fn put_estimate(
    answer: Result<TempoEstimate, Refusal>,
    found: &mut u32,
    bpm: &mut f64,
    clarity: &mut f64,
    lags: &mut [usize; 3],
    saliences: &mut [f64; 3],
    count: &mut usize,
) -> u32
    ensures { Handed (estimate_said answer).number (tempo_parts (estimate_said answer))
        (tempo_lent found.old bpm.old clarity.old lags.old saliences.old count.old)
        result (tempo_lent found.new bpm.new clarity.new lags.new saliences.new count.new) }
{
    match answer {
        Ok(estimate) => {
            put_tempo(estimate.tempo, found, bpm, clarity);
            put_candidates(estimate.candidates, lags, saliences);
            *count = estimate.count;
            0
        }
        Err(refusal) => refusal.number(),
    }
}

// Inner: stores the kind of a stability, and its values, zeros without one.
pub fn put_stability(
    stability: Stability,
    found: &mut u32,
    fraction: &mut f64,
    agreeing: &mut usize,
    windows: &mut usize,
)
    ensures { share_lent found.new fraction.new agreeing.new windows.new ≡ share_parts stability }
{
    match stability {
        Stability::None => {
            *found = 0;
            *fraction = 0.0;
            *agreeing = 0;
            *windows = 0;
        }
        Stability::Share {
            fraction: share,
            agreeing: some,
            windows: all,
        } => {
            *found = 1;
            *fraction = share;
            *agreeing = some;
            *windows = all;
        }
    }
}

// Inner: stores the parts of a stability unless the call refused, and answers its number.
pub fn put_steadiness(
    answer: Result<Stability, Refusal>,
    found: &mut u32,
    fraction: &mut f64,
    agreeing: &mut usize,
    windows: &mut usize,
) -> u32
    ensures { Handed (steadiness answer).number (share_parts (steadiness answer).stability)
        (share_lent found.old fraction.old agreeing.old windows.old)
        result (share_lent found.new fraction.new agreeing.new windows.new) }
{
    match answer {
        Ok(stability) => {
            put_stability(stability, found, fraction, agreeing, windows);
            0
        }
        Err(refusal) => refusal.number(),
    }
}
