// The search of an envelope for the lag that wins.
//
// Document 01, Tempo and candidates. The Rust: tempo.rs `pick_tempo_peaks`, as far as the winner.
#![tactic(auto)]

ghost use Rattle.std.specs.Prelude.{◌≡◌, ℕ, ◌+◌, ◌≤◌, ◌<◌, length};
ghost use Rattle.numbers.specs.Limits.{most_period};
ghost use Rattle.lags.specs.Lags.{lag_room};
ghost use Rattle.lag_search.specs.Search.{winner_lag, Searched};

use lag_candidates::winner_of;
use lag_curves::fill_lag_curves;
use lag_sums::energy_of;
use lags::lag_slots;
use lists::mean_of;
use numbers::EPSILON;

// Inner: the lag of the first greatest weight, or 0 where it isn't above 0.
pub fn lag_of_winner(weight: &[f64], min_lag: usize) -> usize
    requires { (0 < length weight.now) × (min_lag + length weight.now ≤ most_period + 1) }
    ensures { result ≡ winner_lag min_lag weight.now }
{
    let winner = winner_of(weight);
    if weight[winner] > 0.0 {
        return min_lag + winner;
    }
    0
}

// Inner: the winner's lag, or 0 where the envelope is flat or no weight is above 0. Writes both lag curves unless it is flat.
pub fn winning_lag(
    envelope: &[f64],
    rate: u32,
    min_lag: usize,
    max_lag: usize,
    clarity: &mut [f64],
    weight: &mut [f64],
) -> usize
    requires min_lag_le_max_lag { (min_lag ≤ max_lag) × (max_lag ≤ most_period) × (max_lag < length envelope.now) }
    requires max_lag_in_bounds { (lag_room min_lag max_lag ≤ length clarity.old) × (lag_room min_lag max_lag ≤ length weight.old) }
    ensures { Searched
        envelope.now rate min_lag max_lag
        clarity.old weight.old
        result
        clarity.new weight.new }
{
    let mean = mean_of(envelope);
    let ac0 = energy_of(envelope, mean);
    if ac0 <= EPSILON {
        return 0;
    }
    fill_lag_curves(envelope, mean, ac0, rate, min_lag, max_lag, clarity, weight);
    let room = lag_slots(min_lag, max_lag);
    lag_of_winner(&weight[0..room], min_lag)
}
