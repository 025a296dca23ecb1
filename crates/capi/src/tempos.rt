// `lag_range`, `estimate` and `stability_of`, for C.
ghost use Rattle.capi_answers.specs.Tempos.{lags_lent, tempo_lent, share_lent};
ghost use Rattle.capi.specs.Choices.{chosen_options};
ghost use Rattle.capi.specs.Tempos.{PhLagRangePromise, PhEstimatePromise, PhStabilityPromise};

use crate::choices::chosen;
use capi_answers::tempos::{put_estimate, put_range, put_steadiness};

// `lags::lag_range`, for C.
#[unsafe(no_mangle)]
pub extern "C" fn ph_lag_range(
    rate: u32,
    min_bpm: f64,
    max_bpm: f64,
    meter: usize,
    min_lag: &mut usize,
    max_lag: &mut usize,
) -> u32
    ensures { PhLagRangePromise rate (chosen_options min_bpm max_bpm meter)
        (lags_lent min_lag.old max_lag.old)
        result (lags_lent min_lag.new max_lag.new) }
{
    put_range(
        lags::lag_range(rate, chosen(min_bpm, max_bpm, meter)),
        min_lag,
        max_lag,
    )
}

// `tempo::estimate`, for C.
#[unsafe(no_mangle)]
pub extern "C" fn ph_estimate(
    envelope: &[f64],
    onsets: usize,
    rate: u32,
    min_bpm: f64,
    max_bpm: f64,
    meter: usize,
    clarity_curve: &mut [f64],
    weight_curve: &mut [f64],
    work: &mut [f64],
    found: &mut u32,
    bpm: &mut f64,
    clarity: &mut f64,
    lags: &mut [usize; 3],
    saliences: &mut [f64; 3],
    count: &mut usize,
) -> u32
    ensures { PhEstimatePromise envelope.now onsets rate (chosen_options min_bpm max_bpm meter) clarity_curve.old
        weight_curve.old work.old
        (tempo_lent found.old bpm.old clarity.old lags.old saliences.old count.old)
        result clarity_curve.new weight_curve.new work.new
        (tempo_lent found.new bpm.new clarity.new lags.new saliences.new count.new) }
{
    let answer = tempo::estimate(
        envelope,
        onsets,
        rate,
        chosen(min_bpm, max_bpm, meter),
        clarity_curve,
        weight_curve,
        work,
    );
    put_estimate(answer, found, bpm, clarity, lags, saliences, count)
}

// `stability::stability_of`, for C.
#[unsafe(no_mangle)]
pub extern "C" fn ph_stability_of(
    envelope: &[f64],
    rate: u32,
    min_bpm: f64,
    max_bpm: f64,
    meter: usize,
    whole_lag: usize,
    clarity_curve: &mut [f64],
    weight_curve: &mut [f64],
    work: &mut [f64],
    found: &mut u32,
    fraction: &mut f64,
    agreeing: &mut usize,
    windows: &mut usize,
) -> u32
    ensures { PhStabilityPromise envelope.now rate (chosen_options min_bpm max_bpm meter) whole_lag clarity_curve.old
        weight_curve.old work.old
        (share_lent found.old fraction.old agreeing.old windows.old)
        result clarity_curve.new weight_curve.new work.new
        (share_lent found.new fraction.new agreeing.new windows.new) }
{
    let answer = stability::stability_of(
        envelope,
        rate,
        chosen(min_bpm, max_bpm, meter),
        whole_lag,
        clarity_curve,
        weight_curve,
        work,
    );
    put_steadiness(answer, found, fraction, agreeing, windows)
}
