// The windows of an envelope, and how many of them agree with the whole lag.
//
// Document 01, Tempo and candidates, "Stability". The Rust: tempo.rs `stability_of`. The priors of the lags are the same in each window, so
// they are computed once, into the work slice.
ghost use Rattle.std.specs.Prelude.{◌+◌, ◌*◌, ◌≤◌, ◌<◌, length};
ghost use Rattle.numbers.specs.Limits.{most_period, most_rows};
ghost use Rattle.lags.specs.Lags.{lag_room};
ghost use Rattle.stability.specs.Inner.{WindowSearched, Counted};

use lag_curves::{fill_clarity, fill_priors, weigh};
use lag_search::lag_of_winner;
use lag_sums::energy_of;
use lags::lag_slots;
use lags::pairs::fold_fits;
use lists::mean_of;
use numbers::EPSILON;

// Two octaves either way: a window that locks onto half or double time of the same groove has found no other tempo.
const FOLDS: [f64; 5] = [0.25, 0.5, 1.0, 2.0, 4.0];

// The lag of a window's winner, or 0 where it has no tempo, with the priors of the lags given.
fn window_lag(
    window: &[f64],
    priors: &[f64],
    min_lag: usize,
    max_lag: usize,
    clarity: &mut [f64],
    weight: &mut [f64],
) -> usize
    requires min_lag_le_max_lag { (min_lag ≤ max_lag) × (max_lag ≤ most_period) × (max_lag < length window.now) }
    requires max_lag_in_bounds { (lag_room min_lag max_lag ≤ length priors.now)
        × (lag_room min_lag max_lag ≤ length clarity.old)
        × (lag_room min_lag max_lag ≤ length weight.old) }
    ensures { WindowSearched
        window.now priors.now min_lag max_lag
        clarity.old weight.old
        result
        clarity.new weight.new }
{
    let mean = mean_of(window);
    let ac0 = energy_of(window, mean);
    if ac0 <= EPSILON {
        return 0;
    }
    fill_clarity(window, mean, ac0, min_lag, max_lag, clarity);
    let room = lag_slots(min_lag, max_lag);
    weigh(clarity, priors, room, weight);
    lag_of_winner(&weight[0..room], min_lag)
}

// Inner: how many of the windows agree with the whole lag. The search of the folds is left at the first that fits, so no window counts twice.
pub fn count_agreeing(
    envelope: &[f64],
    rate: u32,
    min_lag: usize,
    max_lag: usize,
    whole_lag: usize,
    windows: usize,
    clarity: &mut [f64],
    weight: &mut [f64],
    work: &mut [f64],
) -> usize
    requires min_lag_le_max_lag { (min_lag ≤ max_lag) × (max_lag ≤ most_period) × (length envelope.now ≤ most_rows) }
    requires le_windows { (1 ≤ windows) × (windows * (max_lag + 2) ≤ length envelope.now) }
    requires max_lag_in_bounds { (lag_room min_lag max_lag ≤ length clarity.old)
        × (lag_room min_lag max_lag ≤ length weight.old)
        × (lag_room min_lag max_lag ≤ length work.old) }
    ensures { Counted
        envelope.now rate min_lag max_lag whole_lag windows
        clarity.old weight.old work.old
        result
        clarity.new weight.new work.new }
{
    fill_priors(rate, min_lag, max_lag, work);
    let slots = envelope.len() / windows;
    let mut agreeing = 0;
    'windows: for i in 0..windows {
        let from = i * slots;
        let to = from + slots;
        let lag = window_lag(&envelope[from..to], work, min_lag, max_lag, clarity, weight);
        if lag == 0 {
            continue;
        }
        for fold in FOLDS {
            if fold_fits(whole_lag, lag, fold) {
                agreeing += 1;
                continue 'windows;
            }
        }
    }
    agreeing
}
