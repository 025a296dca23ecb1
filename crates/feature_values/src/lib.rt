// Whether magnitudes of the feature transform are what number 4 asks: finite, at most 2^126 and not negative.
//
// Document 02, No. 7. As numbers' `magnitudes_fine`, which lets negative ones pass. Inner calls: no caller of the library needs them.
#![tactic(auto)]

ghost use Rattle.std.specs.Prelude.{◌≡◌};
ghost use Rattle.numbers.specs.Lists.{every};
ghost use Rattle.feature_lanes.specs.Addends.{strength_fine};

// -0 is not negative: it compares as +0 does.
fn strength_fine(x: f32) -> bool
    ensures { result ≡ strength_fine x }
{
    x >= 0.0 && x <= 85070591730234615865843651857942052864.0
}

// Inner: whether every magnitude is fine.
pub fn strengths_fine(s: &[f32]) -> bool
    ensures { result ≡ every strength_fine s.now }
{
    numbers::all_pass(s, strength_fine)
}
