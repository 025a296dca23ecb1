// Stability: in how many parts of an envelope its tempo is heard again.
//
// Document 01, Tempo and candidates, "Stability". The Rust: tempo.rs `stability_of`.
#![tactic(auto)]

ghost use Rattle.std.specs.Prelude.{◌≡◌, ◌≤◌, length};
ghost use Rattle.numbers.specs.Refusals.{number_of};
ghost use Rattle.numbers.specs.Limits.{most_period, most_rows};
ghost use Rattle.lags.specs.Lags.{lag_room};
ghost use Rattle.stability.specs.Answers.{stability_refusal, StabilityPromise, steadiness};
ghost use Rattle.stability.specs.Inner.{Shared};

use crate::windows::count_agreeing;
use lags::lags_in;
use lists::float_of;
use numbers::{MOST_PERIOD, Refusal};
use options::TempoOpts;
use tempo::search_refusal;

mod windows;

// No stability, or the share of windows whose tempo agrees with the whole envelope's, with both counts. Kept as an enum of its own, and no Option:
// docs/RULES.md, X6.
#[derive(Clone, Copy)]
pub enum Stability {
    None,
    Share {
        fraction: f64,
        agreeing: usize,
        windows: usize,
    },
}

// what `stability_of` refuses
fn refusal(
    envelope: &[f64],
    rate: u32,
    opts: TempoOpts,
    whole_lag: usize,
    clarity: usize,
    weight: usize,
    work: usize,
) -> Result<(), Refusal>
    ensures { number_of result ≡ stability_refusal envelope.now rate opts whole_lag clarity weight work }
{
    if whole_lag > MOST_PERIOD {
        return Err(Refusal::OutOfBounds);
    }
    search_refusal(envelope, rate, opts, clarity, weight, work)
}

// The stability where nothing is refused.
fn share(
    envelope: &[f64],
    rate: u32,
    min_lag: usize,
    max_lag: usize,
    whole_lag: usize,
    clarity: &mut [f64],
    weight: &mut [f64],
    work: &mut [f64],
) -> Stability
    requires min_lag_le_max_lag { (min_lag ≤ max_lag) × (max_lag ≤ most_period) × (length envelope.now ≤ most_rows) }
    requires max_lag_in_bounds { (lag_room min_lag max_lag ≤ length clarity.old)
        × (lag_room min_lag max_lag ≤ length weight.old)
        × (lag_room min_lag max_lag ≤ length work.old) }
    ensures { Shared
        envelope.now rate min_lag max_lag whole_lag
        clarity.old weight.old work.old
        result
        clarity.new weight.new work.new }
{
    if whole_lag == 0 {
        return Stability::None;
    }
    let windows = (envelope.len() / (max_lag + 2)).min(4);
    if windows < 2 {
        return Stability::None;
    }
    let agreeing = count_agreeing(
        envelope, rate, min_lag, max_lag, whole_lag, windows, clarity, weight, work,
    );
    let fraction = float_of(agreeing) / float_of(windows);
    Stability::Share {
        fraction,
        agreeing,
        windows,
    }
}

// The share of up to four windows of an envelope whose own tempo agrees with the whole lag, that of its winning candidate (0: no tempo),
// up to two octaves either way. Lend clarity, weight and work L slots each, as for `estimate`; their first L slots then hold anything where two
// windows or more are searched, and later ones stay. Refuses 1 for N, rate, meter or a lag above 45,000, 3 for too little room, 4 for a
// value that isn't finite or is larger than 2^150.
pub fn stability_of(
    envelope: &[f64],
    rate: u32,
    opts: TempoOpts,
    whole_lag: usize,
    clarity: &mut [f64],
    weight: &mut [f64],
    work: &mut [f64],
) -> Result<Stability, Refusal>
    ensures { StabilityPromise
        envelope.now rate opts whole_lag
        clarity.old weight.old work.old
        (steadiness result)
        clarity.new weight.new work.new }
{
    refusal(
        envelope,
        rate,
        opts,
        whole_lag,
        clarity.len(),
        weight.len(),
        work.len(),
    )?;
    let range = lags_in(rate, opts);
    Ok(share(
        envelope,
        rate,
        range.min_lag,
        range.max_lag,
        whole_lag,
        clarity,
        weight,
        work,
    ))
}
