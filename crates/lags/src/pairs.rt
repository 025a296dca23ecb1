// Pairs of lags: distinct candidates, and a fold of a window's lag beside the whole lag.
//
// Document 01, Tempo and candidates. The Rust: tempo.rs `pick_tempo_peaks` ("distinct") and the test in `lags_agree_mod_octave`.
ghost use Rattle.std.specs.Prelude.{◌≡◌};
ghost use Rattle.lags.specs.Pairs.{lag_distance, apart, fold_fits};

use crate::float_of;

// |x - y|
fn distance_of(x: f64, y: f64) -> f64
    ensures { result ≡ lag_distance x y }
{
    if x < y { y - x } else { x - y }
}

// Inner: whether a lag differs from an accepted lag by more than a tenth of the accepted one.
pub fn lags_apart(lag: usize, accepted: usize) -> bool
    ensures { result ≡ apart lag accepted }
{
    let l = float_of(lag);
    let a = float_of(accepted);
    distance_of(l, a) / a > 0.10
}

// Inner: whether a lag, times one fold, differs from the whole lag by at most 0.05 of it.
pub fn fold_fits(whole: usize, lag: usize, fold: f64) -> bool
    ensures { result ≡ fold_fits whole lag fold }
{
    let l = float_of(lag);
    let w = float_of(whole);
    distance_of(l * fold, w) / w <= 0.05
}
