// Bars: which of the beats are downbeats, and which bar and beat a time lies in.
//
// Document 01, "Beats and bars"; request No. 4, the meter. The Rust: tempo.rs `downbeat_phase`, whose bars have four beats, and `bar_beat_at`.
#![tactic(auto)]

ghost use Rattle.std.specs.Prelude.{◌≡◌, ◌<◌, ◌≤◌, length};
ghost use Rattle.numbers.specs.Outcomes.{listing};
ghost use Rattle.numbers.specs.Refusals.{number_of};
ghost use Rattle.numbers.specs.Lists.{listed, filled};
ghost use Rattle.options.specs.Options.{most_meter};
ghost use Rattle.bars.specs.Downbeats.{downbeat_refusal, beat_flux, in_phase, phase_sum, downbeat_phase, DownbeatsPromise};
ghost use Rattle.bars.specs.BarBeats.{last_bar, during, passing, BarBeatPromise};

use numbers::Refusal;
use options::TempoOpts;

// Where a time lies: in no bar, where it reaches no downbeat, or in a bar and at a beat of it, both counted from 1. Kept as an enum of its own, and no
// Option: docs/RULES.md, X11.
#[derive(Clone, Copy)]
pub enum BarBeat {
    Nowhere,
    At { bar: usize, beat: usize },
}

// Lists the downbeats of a beat list: every meter-th beat, from the one that makes their flux sum greatest, the earliest of several such; of the options
// the meter alone is read.
// Room: one slot for each beat; slots past the count stay. Refuses 1 (N, a beat above 1,048,575, a meter outside 1 to 16), 3 and 4, and then lists
// nothing. The beats need not ascend; where flux is negative an empty phase may be the greatest, and then no beat is a downbeat.
pub fn downbeats(
    envelope: &[f64],
    beats: &[u32],
    opts: TempoOpts,
    frames: &mut [u32],
) -> Result<usize, Refusal>
    ensures { DownbeatsPromise envelope.now beats.now opts frames.old (listing result) frames.new }
{
    downbeat_refusal(envelope, beats, opts, frames.len())?;
    let meter = opts.meter;
    let phase = downbeat_phase(envelope, beats, meter);
    let count = list_phase(beats, meter, phase, frames);
    Ok(count)
}

// Says where a time lies: the last bar whose downbeat it reaches, and how many of the bar's beats it has reached, at least 1.
// Both tests have a slack of 0.000001. Any f64 will do in each place, in any order; a NaN is reached by nothing and reaches nothing.
// Refuses nothing.
pub fn bar_beat_at(time: f64, downbeats: &[f64], beats: &[f64]) -> BarBeat
    ensures { BarBeatPromise time downbeats.now beats.now result }
{
    let limit = time + 0.000001;
    let bar = last_bar(limit, downbeats);
    if bar == 0 {
        return BarBeat::Nowhere;
    }
    let heard = beats_during(downbeats[bar - 1] - 0.000001, limit, beats);
    BarBeat::At {
        bar: bar,
        beat: heard.max(1),
    }
}

fn downbeat_refusal(
    envelope: &[f64],
    beats: &[u32],
    opts: TempoOpts,
    room: usize,
) -> Result<(), Refusal>
    ensures { number_of result ≡ downbeat_refusal envelope.now beats.now opts room }
{
    if envelope.len() > numbers::MOST_ROWS {
        return Err(Refusal::OutOfBounds);
    }
    if !lists::all_at_most(beats, numbers::MOST_FRAME) {
        return Err(Refusal::OutOfBounds);
    }
    if !options::options_fine(opts) {
        return Err(Refusal::OutOfBounds);
    }
    if room < beats.len() {
        return Err(Refusal::TooLittleRoom);
    }
    if !numbers::values_fine(envelope) {
        return Err(Refusal::WrongValue);
    }
    Ok(())
}

fn flux_at(envelope: &[f64], frame: u32) -> f64
    ensures { result ≡ beat_flux envelope.now frame }
{
    let at = frame as usize;
    if at < envelope.len() {
        envelope[at]
    } else {
        0.0
    }
}

fn phase_sum(envelope: &[f64], beats: &[u32], meter: usize, phase: usize) -> f64
    requires { 0 < meter }
    ensures { result ≡ phase_sum envelope.now beats.now meter phase }
{
    let mut sum = 0.0;
    for i in 0..beats.len() {
        if i % meter == phase {
            sum = sum + flux_at(envelope, beats[i]);
        }
    }
    sum
}

fn downbeat_phase(envelope: &[f64], beats: &[u32], meter: usize) -> usize
    requires { (0 < meter) × (meter ≤ most_meter) }
    ensures { result ≡ downbeat_phase envelope.now beats.now meter }
{
    let mut sums = [0.0; TempoOpts::MOST_METER];
    fill_sums(envelope, beats, meter, &mut sums);
    lists::first_greatest(&sums, meter)
}

// Writes the sum of each phase.
fn fill_sums(envelope: &[f64], beats: &[u32], meter: usize, sums: &mut [f64])
    requires { (0 < meter) × (meter ≤ length sums.old) }
    ensures { sums.new ≡ filled (phase_sum envelope.now beats.now meter) sums.old 0 meter }
{
    for phase in 0..meter {
        sums[phase] = phase_sum(envelope, beats, meter, phase);
    }
}

fn list_phase(beats: &[u32], meter: usize, phase: usize, frames: &mut [u32]) -> usize
    requires { (0 < meter) × (length beats.now ≤ length frames.old) }
    ensures { (result ≡ length (in_phase meter phase 0 beats.now))
        × (frames.new ≡ listed (in_phase meter phase 0 beats.now) frames.old) }
{
    let mut count = 0;
    for i in 0..beats.len() {
        if i % meter == phase {
            frames[count] = beats[i];
            count += 1;
        }
    }
    count
}

// The number, from 1, of the last downbeat that `limit` reaches; 0 where it reaches none.
fn last_bar(limit: f64, downbeats: &[f64]) -> usize
    ensures { (result ≤ length downbeats.now) × (result ≡ last_bar limit downbeats.now (length downbeats.now)) }
{
    for k in (0..downbeats.len()).rev() {
        if downbeats[k] <= limit {
            return k + 1;
        }
    }
    0
}

fn beats_during(lo: f64, hi: f64, beats: &[f64]) -> usize
    ensures { result ≡ passing (during lo hi) beats.now }
{
    let mut count = 0;
    for i in 0..beats.len() {
        let beat = beats[i];
        if is_during(lo, hi, beat) {
            count += 1;
        }
    }
    count
}

fn is_during(lo: f64, hi: f64, t: f64) -> bool
    ensures { result ≡ during lo hi t }
{
    lo <= t && t <= hi
}
