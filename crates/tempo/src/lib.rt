// Tempo: how fast the pulse of an envelope is, and which other tempos it may be heard at.
//
// Document 01, Tempo and candidates. The Rust: tempo.rs `pick_tempo_peaks`.
#![tactic(auto)]

ghost use Rattle.std.specs.Prelude.{◌≡◌, true, ℕ, ◌+◌, ◌≤◌, ◌<◌, length, Ok};
ghost use Rattle.numbers.specs.Refusals.{number_of};
ghost use Rattle.numbers.specs.Limits.{most_period};
ghost use Rattle.lags.specs.Lags.{lag_room, bounds_fine};
ghost use Rattle.lag_candidates.specs.Candidates.{winner_of};
ghost use Rattle.tempo.specs.Answers.{
  search_room,
  search_refusal,
  too_little,
  without_tempo,
  estimate_said,
  candidate_at,
  found_of,
  EstimatePromise,
};
ghost use Rattle.tempo.specs.Inner.{TempoIn};

use lag_candidates::first_apart;
use lag_search::winning_lag;
use lags::{bounds_fine, bpm_at, lag_slots, lags_in};
// why `estimate` refuses: handed on, so that a caller can name it who lists no more crates than the calls'
pub use numbers::Refusal;
use numbers::{MOST_ROWS, values_fine};
use options::TempoOpts;

// A tempo that the envelope may be heard at: its lag in frames, and its clarity, 0 to 1.
#[derive(Clone, Copy)]
pub struct Candidate {
    pub lag: usize,
    pub salience: f64,
}

// No tempo, or a tempo in beats a minute with its clarity, 0 to 1. Kept as an enum of its own, and no Option: docs/RULES.md, X6.
#[derive(Clone, Copy)]
pub enum Tempo {
    None,
    Found { bpm: f64, clarity: f64 },
}

// The answer of `estimate`: the tempo, and `count` candidates, the winner first; unused ones hold zeros.
#[derive(Clone, Copy)]
pub struct TempoEstimate {
    pub tempo: Tempo,
    pub candidates: [Candidate; 3],
    pub count: usize,
}

// whether each of the three slices has a slot for each lag
fn has_room(rate: u32, opts: TempoOpts, clarity: usize, weight: usize, work: usize) -> bool
    requires { bounds_fine rate opts ≡ true }
    ensures { result ≡ search_room rate opts clarity weight work }
{
    let range = lags_in(rate, opts);
    let room = lag_slots(range.min_lag, range.max_lag);
    room <= clarity && (room <= weight && room <= work)
}

// Inner: what a call that searches an envelope refuses, lent so many slots for the lag curves and for sorting.
pub fn search_refusal(
    envelope: &[f64],
    rate: u32,
    opts: TempoOpts,
    clarity: usize,
    weight: usize,
    work: usize,
) -> Result<(), Refusal>
    ensures { number_of result ≡ search_refusal envelope.now rate opts clarity weight work }
{
    if envelope.len() > MOST_ROWS {
        return Err(Refusal::OutOfBounds);
    }
    if !bounds_fine(rate, opts) {
        return Err(Refusal::OutOfBounds);
    }
    if !has_room(rate, opts, clarity, weight, work) {
        return Err(Refusal::TooLittleRoom);
    }
    if !values_fine(envelope) {
        return Err(Refusal::WrongValue);
    }
    Ok(())
}

// no tempo
fn without_tempo() -> TempoEstimate
    ensures { estimate_said (Ok result) ≡ without_tempo 0 }
{
    let unused = Candidate {
        lag: 0,
        salience: 0.0,
    };
    TempoEstimate {
        tempo: Tempo::None,
        candidates: [unused; 3],
        count: 0,
    }
}

// the slot's lag and clarity
fn candidate_at(clarity: &[f64], min_lag: usize, i: usize) -> Candidate
    requires { (i < length clarity.now) × (min_lag + i ≤ most_period) }
    ensures { result ≡ candidate_at min_lag clarity.now i }
{
    Candidate {
        lag: min_lag + i,
        salience: clarity[i],
    }
}

// The tempo of the winning slot, and the candidates: after the winner the greatest maximum that stands apart from it, and then the
// greatest that stands apart from both.
fn found(clarity: &[f64], weight: &[f64], rate: u32, min_lag: usize, winner: usize) -> TempoEstimate
    requires winner_value { (winner ≡ winner_of weight.now) × (winner < length weight.now) × (length clarity.now ≡ length weight.now) }
    requires le_min_lag { (1 ≤ min_lag) × (min_lag + length weight.now ≤ most_period + 1) }
    ensures { estimate_said (Ok result) ≡ found_of rate min_lag clarity.now weight.now }
{
    let none = Candidate {
        lag: 0,
        salience: 0.0,
    };
    let first = candidate_at(clarity, min_lag, winner);
    let tempo = Tempo::Found {
        bpm: bpm_at(rate, first.lag),
        clarity: first.salience,
    };
    let b = first_apart(weight, min_lag, winner, winner);
    if b == weight.len() {
        return TempoEstimate {
            tempo,
            candidates: [first, none, none],
            count: 1,
        };
    }
    let second = candidate_at(clarity, min_lag, b);
    let c = first_apart(weight, min_lag, winner, b);
    if c == weight.len() {
        return TempoEstimate {
            tempo,
            candidates: [first, second, none],
            count: 2,
        };
    }
    let third = candidate_at(clarity, min_lag, c);
    TempoEstimate {
        tempo,
        candidates: [first, second, third],
        count: 3,
    }
}

// whether the envelope isn't searched: too few slots or onsets
fn too_little(n: usize, onsets: usize, max_lag: usize) -> bool
    requires { max_lag ≤ most_period }
    ensures { result ≡ too_little n onsets max_lag }
{
    n < 3 || (onsets < 2 || n <= max_lag + 1)
}

// The tempo and the candidates where nothing is refused.
fn tempo_in(
    envelope: &[f64],
    onsets: usize,
    rate: u32,
    min_lag: usize,
    max_lag: usize,
    clarity: &mut [f64],
    weight: &mut [f64],
) -> TempoEstimate
    requires le_min_lag { (1 ≤ min_lag) × (min_lag ≤ max_lag) × (max_lag ≤ most_period) }
    requires max_lag_in_bounds { (lag_room min_lag max_lag ≤ length clarity.old) × (lag_room min_lag max_lag ≤ length weight.old) }
    ensures { TempoIn
        envelope.now onsets rate min_lag max_lag
        clarity.old weight.old
        (estimate_said (Ok result))
        clarity.new weight.new }
{
    if too_little(envelope.len(), onsets, max_lag) {
        return without_tempo();
    }
    let lag = winning_lag(envelope, rate, min_lag, max_lag, clarity, weight);
    if lag == 0 {
        return without_tempo();
    }
    let room = lag_slots(min_lag, max_lag);
    found(
        &clarity[0..room],
        &weight[0..room],
        rate,
        min_lag,
        lag - min_lag,
    )
}

// The tempo of an envelope with this many onsets, and at most three candidates, the winner first. Lend clarity, weight and work L slots
// each, L = max_lag - min_lag + 1 of `lag_range`; clarity and weight then hold the lag curves, where there are two onsets or more and the
// envelope is long enough and not flat. Refuses 1 for N, rate or meter, 3 for too little room, 4 for a value that isn't finite or is
// larger than 2^150.
pub fn estimate(
    envelope: &[f64],
    onsets: usize,
    rate: u32,
    opts: TempoOpts,
    clarity: &mut [f64],
    weight: &mut [f64],
    work: &mut [f64],
) -> Result<TempoEstimate, Refusal>
    ensures { EstimatePromise
        envelope.now onsets rate opts
        clarity.old weight.old work.old
        (estimate_said result)
        clarity.new weight.new work.new }
{
    search_refusal(
        envelope,
        rate,
        opts,
        clarity.len(),
        weight.len(),
        work.len(),
    )?;
    let range = lags_in(rate, opts);
    Ok(tempo_in(
        envelope,
        onsets,
        rate,
        range.min_lag,
        range.max_lag,
        clarity,
        weight,
    ))
}
