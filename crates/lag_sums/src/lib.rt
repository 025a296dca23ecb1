// Tempo, the sums: the mean of an envelope, and its centred products a lag apart, summed.
//
// Document 01, Tempo and candidates. The Rust: tempo.rs `pick_tempo_peaks`. A centred value has no room of its own: it is computed again
// where it is used.
#![tactic(auto)]

ghost use Rattle.std.specs.Prelude.{◌≡◌, ◌+◌, ◌≤◌, length};
ghost use Rattle.numbers.specs.Rounded.{sum_of};
ghost use Rattle.numbers.specs.Lists.{curve};
ghost use Rattle.lag_sums.specs.Sums.{product_at, lag_sum, energy_of};

pub mod abreast;

// Inner: the sum of centred products a lag apart from time `from` on, where `sum` has those before it.
pub fn lag_rest(envelope: &[f64], mean: f64, lag: usize, from: usize, sum: f64) -> f64
    requires { (lag + from ≤ length envelope.now) × (sum ≡ sum_of (curve (product_at envelope.now mean lag) from)) }
    ensures { result ≡ lag_sum envelope.now mean lag }
{
    let n = envelope.len() - lag;
    let mut z = sum;
    for t in from..n {
        z = z + (envelope[t] - mean) * (envelope[t + lag] - mean);
    }
    z
}

// Inner: the sum of centred products a lag apart.
pub fn lag_sum(envelope: &[f64], mean: f64, lag: usize) -> f64
    requires { lag ≤ length envelope.now }
    ensures { result ≡ lag_sum envelope.now mean lag }
{
    lag_rest(envelope, mean, lag, 0, 0.0)
}

// Inner: the sum of squares about the mean.
pub fn energy_of(envelope: &[f64], mean: f64) -> f64
    ensures { result ≡ energy_of envelope.now mean }
{
    lag_sum(envelope, mean, 0)
}
