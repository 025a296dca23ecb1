// The envelope's variance.
ghost use Rattle.std.specs.Prelude.{◌≡◌};
ghost use Rattle.beats.specs.Envelopes.{variance_of};

use lists::{float_of, mean_of};

// The mean square of the distances from the mean.
pub fn variance_of(xs: &[f64]) -> f64
    ensures { result ≡ variance_of xs.now }
{
    let mean = mean_of(xs);
    let mut sum = 0.0;
    for i in 0..xs.len() {
        let apart = xs[i] - mean;
        sum = sum + apart * apart;
    }
    sum / float_of(xs.len())
}
