// Medians, fluxes, thresholds, onsets and times.
ghost use Rattle.std.specs.Prelude.{◌≤◌};

use crate::{inputs, lines};
use numbers::Refusal;

fn answer(rt: &impl Print, label: &[u8], a: Result<f64, Refusal>) {
    run_show::words(rt, label);
    run_show::outcome(rt, &a);
    if let Ok(value) = a {
        run_show::float(rt, value);
    }
    run_show::end(rt);
}

fn medians(rt: &impl Print, curve: &[f64], s: u64) {
    let mut work = [0.0f64; 40];
    answer(rt, b"median", median::median_of(curve, &mut work));
    let from = inputs::level(2, 0, s);
    answer(rt, b"mad", median::mad_of(curve, from, &mut work));
}

// The threshold of a curve of n slots, and its onsets.
fn onsets_of(rt: &impl Print, curve: &[f64], n: usize, rate: u32)
    requires { n ≤ 40 }
{
    let mut threshold = [0.0f64; 40];
    let mut work = [0.0f64; 21];
    let answer = threshold::adaptive_threshold(curve, &mut threshold, &mut work);
    lines::floats(rt, b"threshold", answer, &threshold[0..n]);
    picked(rt, curve, &threshold[0..n], rate);
}

fn picked(rt: &impl Print, curve: &[f64], threshold: &[f64], rate: u32) {
    let mut frames = [9u32; 60];
    let r = onsets::pick_onsets(curve, threshold, rate, &mut frames);
    lines::frames(rt, b"onsets", r, &frames);
}

fn suppressed(rt: &impl Print, curve: &[f64], s: u64) {
    let mut peaks = [0u32; 12];
    inputs::fill_peaks(&mut peaks, s);
    let mut frames = [9u32; 60];
    let r = onsets::peaks::suppress_close_peaks(
        &peaks,
        curve,
        inputs::up_to_twenty(s) / 2,
        &mut frames,
    );
    lines::frames(rt, b"suppressed", r, &frames);
}

fn times(rt: &impl Print, s: u64, rate: u32) {
    let mut peaks = [0u32; 12];
    let mut ms = [0.0f64; 12];
    inputs::fill_peaks(&mut peaks, s);
    let answer = onsets::frame_times(&peaks, rate, &mut ms);
    lines::floats(rt, b"times", answer, &ms);
}

fn fluxes(rt: &impl Print, s: u64) {
    let slab = inputs::slab(s);
    let mut flux = [0.0f64; 40];
    let answer = flux::spectral_flux(&slab, 40, 1, &mut flux);
    lines::floats(rt, b"flux of one bin", answer, &flux);
    let answer = flux::spectral_flux(&slab, 8, 5, &mut flux);
    lines::floats(rt, b"flux of five bins", answer, &flux[0..8]);
}

// A rate from 1 to 192,000.
fn rate_of(s: u64) -> u32 {
    (s % 192000) as u32 + 1
}

pub fn round(rt: &impl Print, s: u64) {
    let mut curve = [0.0f64; 40];
    inputs::fill(&mut curve, s);
    let n = inputs::up_to_forty(inputs::next(s));
    let rate = rate_of(s);
    medians(rt, &curve[0..n], s);
    onsets_of(rt, &curve[0..n], n, rate);
    suppressed(rt, &curve, s);
    times(rt, s, rate);
    fluxes(rt, s);
}
