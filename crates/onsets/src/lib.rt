// Onsets: peaks of a flux above its threshold, with those close together suppressed, and times.
//
// Document 01, Onsets. The Rust: onsets.rs; here its `analyze_stft`, which picks the onsets and gives their times.
#![tactic(auto)]

pub mod peaks; // peaks.rt: peaks of a curve, and the best of each group of close ones

ghost use Rattle.std.specs.Prelude.{◌≡◌, map, ◌≤◌, length};
ghost use Rattle.numbers.specs.Outcomes.{listing};
ghost use Rattle.numbers.specs.Refusals.{number_of};
ghost use Rattle.numbers.specs.Limits.{most_rows};
ghost use Rattle.numbers.specs.Lists.{listed};
ghost use Rattle.threshold.specs.Threshold.{sorting_room};
ghost use Rattle.onsets.specs.Onsets.{gap_of, frame_time, onsets_refusal, times_refusal, OnsetsPromise, FrameTimesPromise};
ghost use Rattle.onsets.specs.Steps.{OnsetsListed};

use numbers::{HOP, Refusal, THOUSAND};

// the least time between two onsets, in milliseconds
const MIN_GAP_MS: f64 = 30.0;
// samples from a frame's start to its centre, half of the transform's 1,024
const CENTRE: f64 = 512.0;

// Lists the frames of the onsets of a flux with its threshold, at a sample rate. Room: one slot for each slot of flux.
// Refuses: 1 a flux longer than 1,048,576 or a rate outside 1 to 192,000; 2 a threshold of another length; 3 frames shorter than
// flux; 4 a value of either that isn't finite or is of size above 2^150. Slots past the count stay, all of them at a refusal.
pub fn pick_onsets(
    flux: &[f64],
    threshold: &[f64],
    rate: u32,
    frames: &mut [u32],
) -> Result<usize, Refusal>
    ensures { OnsetsPromise flux.now threshold.now rate frames.old (listing result) frames.new }
{
    onsets_refusal(flux, threshold, rate, frames.len())?;
    let count = peaks::pick_peaks(flux, threshold, gap_of(rate), frames);
    Ok(count)
}

fn onsets_refusal(flux: &[f64], threshold: &[f64], rate: u32, room: usize) -> Result<(), Refusal>
    ensures { number_of result ≡ onsets_refusal flux.now threshold.now rate room }
{
    if flux.len() > numbers::MOST_ROWS {
        return Err(Refusal::OutOfBounds);
    }
    if !numbers::rate_fine(rate) {
        return Err(Refusal::OutOfBounds);
    }
    if threshold.len() != flux.len() {
        return Err(Refusal::WrongLength);
    }
    if room < flux.len() {
        return Err(Refusal::TooLittleRoom);
    }
    if !numbers::values_fine(flux) {
        return Err(Refusal::WrongValue);
    }
    if numbers::values_fine(threshold) {
        return Ok(());
    }
    Err(Refusal::WrongValue)
}

// Inner: writes the threshold of an envelope, lists its onsets and says how many they are.
pub fn list_onsets(
    envelope: &[f64],
    rate: u32,
    threshold: &mut [f64],
    frames: &mut [u32],
    work: &mut [f64],
) -> usize
    requires { (length envelope.now ≤ most_rows)
        × (length envelope.now ≤ length threshold.old)
        × (length envelope.now ≤ length frames.old)
        × (sorting_room envelope.now ≤ length work.old) }
    ensures { OnsetsListed envelope.now rate
        threshold.old frames.old work.old
        result threshold.new frames.new work.new }
{
    let n = envelope.len();
    threshold::fill_threshold(envelope, threshold, 0, n, work);
    peaks::pick_peaks(envelope, &threshold[0..n], gap_of(rate), frames)
}

// Inner: the frames within which one onset is kept, at a sample rate.
pub fn gap_of(rate: u32) -> usize
    ensures { result ≡ gap_of rate }
{
    let frames = floats::wholes::ceil_of(MIN_GAP_MS / THOUSAND * (rate as f64) / HOP) as usize;
    frames.max(1)
}

// Writes the time in milliseconds of each frame's centre, at a sample rate, in the frames' order. Room: one slot for each frame.
// Refuses: 1 a rate outside 1 to 192,000 or a frame above 1,048,575; 3 ms shorter than frames. A refusal writes nothing.
// The frames need not ascend. Slots past them stay.
pub fn frame_times(frames: &[u32], rate: u32, ms: &mut [f64]) -> Result<(), Refusal>
    ensures { FrameTimesPromise frames.now rate ms.old (number_of result) ms.new }
{
    times_refusal(frames, rate, ms.len())?;
    write_times(frames, rate, ms);
    Ok(())
}

fn times_refusal(frames: &[u32], rate: u32, room: usize) -> Result<(), Refusal>
    ensures { number_of result ≡ times_refusal frames.now rate room }
{
    if !numbers::rate_fine(rate) {
        return Err(Refusal::OutOfBounds);
    }
    if !lists::all_at_most(frames, numbers::MOST_FRAME) {
        return Err(Refusal::OutOfBounds);
    }
    if room < frames.len() {
        return Err(Refusal::TooLittleRoom);
    }
    Ok(())
}

fn write_times(frames: &[u32], rate: u32, ms: &mut [f64])
    requires { length frames.now ≤ length ms.old }
    ensures { ms.new ≡ listed (map (frame_time rate) frames.now) ms.old }
{
    for i in 0..frames.len() {
        ms[i] = frame_time(frames[i], rate);
    }
}

// Inner: the time of one frame's centre in milliseconds.
pub fn frame_time(frame: u32, rate: u32) -> f64
    ensures { result ≡ frame_time rate frame }
{
    ((frame as f64) * HOP + CENTRE) / (rate as f64) * THOUSAND
}
