// Whether samples are what number 4 asks: finite.
//
// Document 02, No. 7. As numbers' `magnitudes_fine`, with another bound. Inner calls: no caller of the library needs them.
#![tactic(auto)]

ghost use Rattle.std.specs.Prelude.{◌≡◌};
ghost use Rattle.numbers.specs.Lists.{every};
ghost use Rattle.feature_levels.specs.Levels.{sample_fine};

fn sample_fine(x: f32) -> bool
    ensures { result ≡ sample_fine x }
{
    x >= -340282346638528859811704183484516925440.0
        && x <= 340282346638528859811704183484516925440.0
}

// Inner: whether every sample is finite.
pub fn samples_fine(s: &[f32]) -> bool
    ensures { result ≡ every sample_fine s.now }
{
    numbers::all_pass(s, sample_fine)
}
