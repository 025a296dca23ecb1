// The winner and the other candidates of a list of weights, by their slots. Slot i is the lag min_lag + i.
//
// Document 01, Tempo and candidates. The Rust: tempo.rs `pick_tempo_peaks`. The Rust sorts the local maxima and accepts the first that
// stand apart; here each is chosen as the greatest that does, in a pass of its own, so nothing is sorted.
#![tactic(auto)]

ghost use Rattle.std.specs.Prelude.{◌≡◌, List, [], ◌∷◌, ℕ, ◌+◌, ◌≤◌, ◌<◌, length};
ghost use Rattle.numbers.specs.Limits.{most_period};
ghost use Rattle.lag_candidates.specs.Candidates.{
  winner_of,
  left_fine,
  right_fine,
  maximum_at,
  ranked_to,
  ranked,
  stands_apart,
  first_passing,
};

use lags::pairs::lags_apart;
use lists::first_greatest;

// Inner: the slot of the first greatest weight, 0 of an empty list.
pub fn winner_of(weight: &[f64]) -> usize
    ensures { result ≡ winner_of weight.now }
{
    if weight.len() == 0 {
        return 0;
    }
    first_greatest(weight, weight.len())
}

// at least the left; the first slot lacks that side
fn left_fine(weight: &[f64], i: usize) -> bool
    requires { i < length weight.now }
    ensures { result ≡ left_fine weight.now i }
{
    if i == 0 {
        return true;
    }
    weight[i - 1] <= weight[i]
}

// above the right; the last slot lacks that side
fn right_fine(weight: &[f64], i: usize) -> bool
    requires { i < length weight.now }
    ensures { result ≡ right_fine weight.now i }
{
    if i + 1 == weight.len() {
        return true;
    }
    weight[i + 1] < weight[i]
}

// a local maximum above 0
fn is_maximum(weight: &[f64], i: usize) -> bool
    requires { i < length weight.now }
    ensures { result ≡ maximum_at weight.now i }
{
    left_fine(weight, i) && (right_fine(weight, i) && weight[i] > 0.0)
}

// whether the lag of slot i stands apart from those of slots a and b
fn is_apart(min_lag: usize, a: usize, b: usize, i: usize) -> bool
    requires { (min_lag + a ≤ most_period) × (min_lag + b ≤ most_period) × (min_lag + i ≤ most_period) }
    ensures { result ≡ stands_apart min_lag (a ∷ b ∷ []) i }
{
    lags_apart(min_lag + i, min_lag + a) && lags_apart(min_lag + i, min_lag + b)
}

// The best slot among those up to i, where `best` is that of those before i.
fn next_best(weight: &[f64], min_lag: usize, a: usize, b: usize, i: usize, best: usize) -> usize
    requires a_bound { (min_lag + a ≤ most_period) × (min_lag + b ≤ most_period) × (min_lag + i ≤ most_period) }
    requires i_in_bounds { (i < length weight.now)
        × (best ≡ first_passing (stands_apart min_lag (a ∷ b ∷ [])) (ranked_to weight.now i) (length weight.now)) }
    ensures { result
        ≡ first_passing (stands_apart min_lag (a ∷ b ∷ [])) (ranked_to weight.now (i + 1)) (length weight.now) }
{
    if !is_maximum(weight, i) {
        return best;
    }
    if !is_apart(min_lag, a, b, i) {
        return best;
    }
    if best == weight.len() {
        return i;
    }
    if weight[best] < weight[i] {
        return i;
    }
    best
}

// Inner: the first of the ranked maxima whose lag stands apart from those of slots a and b: the greatest that does, of equal ones the first.
// Past the last slot where there is none.
pub fn first_apart(weight: &[f64], min_lag: usize, a: usize, b: usize) -> usize
    requires { (a < length weight.now) × (b < length weight.now) × (min_lag + length weight.now ≤ most_period + 1) }
    ensures { result ≡ first_passing (stands_apart min_lag (a ∷ b ∷ [])) (ranked weight.now) (length weight.now) }
{
    let mut best = weight.len();
    for i in 0..weight.len() {
        best = next_best(weight, min_lag, a, b, i, best);
    }
    best
}
