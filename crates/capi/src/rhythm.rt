// The calls of crates flux, threshold and onsets, for C.
ghost use Rattle.numbers.specs.Limits.{slab_of};
ghost use Rattle.flux.specs.Flux.{FluxPromise};
ghost use Rattle.threshold.specs.Threshold.{ThresholdPromise};
ghost use Rattle.onsets.specs.Onsets.{FrameTimesPromise};
ghost use Rattle.capi.specs.Lists.{PhOnsetsPromise, PhSuppressionPromise};

use capi_answers::counts::counted;
use numbers::number_of;

// `flux::spectral_flux`, for C.
#[unsafe(no_mangle)]
pub extern "C" fn ph_spectral_flux(
    magnitudes: &[f32],
    rows: usize,
    bins: usize,
    flux: &mut [f64],
) -> u32
    ensures { FluxPromise magnitudes.now (slab_of rows bins) flux.old result flux.new }
{
    number_of(&flux::spectral_flux(magnitudes, rows, bins, flux))
}

// `threshold::adaptive_threshold`, for C.
#[unsafe(no_mangle)]
pub extern "C" fn ph_adaptive_threshold(
    flux: &[f64],
    threshold: &mut [f64],
    work: &mut [f64],
) -> u32
    ensures { ThresholdPromise flux.now threshold.old work.old result threshold.new work.new }
{
    number_of(&threshold::adaptive_threshold(flux, threshold, work))
}

// `onsets::pick_onsets`, for C.
#[unsafe(no_mangle)]
pub extern "C" fn ph_pick_onsets(
    flux: &[f64],
    threshold: &[f64],
    rate: u32,
    frames: &mut [u32],
    count: &mut usize,
) -> u32
    ensures { PhOnsetsPromise flux.now threshold.now rate frames.old count.old
        result frames.new count.new }
{
    counted(onsets::pick_onsets(flux, threshold, rate, frames), count)
}

// `onsets::peaks::suppress_close_peaks`, for C.
#[unsafe(no_mangle)]
pub extern "C" fn ph_suppress_close_peaks(
    peaks: &[u32],
    curve: &[f64],
    gap: usize,
    frames: &mut [u32],
    count: &mut usize,
) -> u32
    ensures { PhSuppressionPromise peaks.now curve.now gap frames.old count.old
        result frames.new count.new }
{
    counted(
        onsets::peaks::suppress_close_peaks(peaks, curve, gap, frames),
        count,
    )
}

// `onsets::frame_times`, for C.
#[unsafe(no_mangle)]
pub extern "C" fn ph_frame_times(frames: &[u32], rate: u32, ms: &mut [f64]) -> u32
    ensures { FrameTimesPromise frames.now rate ms.old result ms.new }
{
    number_of(&onsets::frame_times(frames, rate, ms))
}
