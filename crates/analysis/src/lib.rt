// One whole analysis: from an envelope of onset strength, or from magnitudes, to onsets, tempo, candidates, stability, beats and downbeats.
//
// Document 01, Onsets, Tempo and candidates, Beats and bars, and its room. The Rust: onsets.rs `analyze_stft` and tempo.rs `estimate_from_parts`.
// The parts are called in turn over slices that are lent; every refusal of an analysis is decided before any part is called.
#![tactic(auto)]

ghost use Rattle.numbers.specs.Limits.{slab_of};
ghost use Rattle.rooms.specs.Rooms.{results, spare};
ghost use Rattle.track.specs.Analyses.{analysis_said};
ghost use Rattle.analysis.specs.Analyses.{EnvelopePromise, MagnitudesPromise};

use flux::fill_flux;
use flux_rows::Magnitudes;
use numbers::{Refusal, Slab};
use options::TempoOpts;
use rooms::{envelope_refusal, magnitudes_refusal};
use track::{Analysis, analyse};

// Analyses an envelope of onset strength. Room, as `rooms::room_of` names it for N slots: rows each for threshold, onsets, score, back, beats and
// downbeats; lags each for the four lag curves; sorting for work. Afterwards threshold holds its curve and onsets its frames; clarity and
// weight hold theirs as `estimate` leaves them, score, back and beats as `beat_grid` does at the tempo's lag, downbeats their frames. Where there is
// no tempo score, back, beats and downbeats are as they were. The first min(21, N) slots of work then hold anything, and where there is a stability
// so do the first slots of work and of the window curves, lags of each; their others are unchanged. Refuses 1 for N, rate or meter, 3 for too
// little room, 4 for a value that isn't finite or of size above 2^150, and then writes nothing.
pub fn analyse_envelope(
    envelope: &[f64],
    rate: u32,
    opts: TempoOpts,
    threshold: &mut [f64],
    onsets: &mut [u32],
    clarity: &mut [f64],
    weight: &mut [f64],
    window_clarity: &mut [f64],
    window_weight: &mut [f64],
    score: &mut [f64],
    back: &mut [u32],
    beats: &mut [u32],
    downbeats: &mut [u32],
    work: &mut [f64],
) -> Result<Analysis, Refusal>
    ensures { EnvelopePromise envelope.now rate opts
        (results
        threshold.old onsets.old clarity.old weight.old
        score.old back.old beats.old downbeats.old)
        (spare window_clarity.old window_weight.old work.old)
        (analysis_said result)
        (results
        threshold.new onsets.new clarity.new weight.new
        score.new back.new beats.new downbeats.new)
        (spare window_clarity.new window_weight.new work.new) }
{
    let frames = [
        threshold.len(),
        onsets.len(),
        score.len(),
        back.len(),
        beats.len(),
        downbeats.len(),
    ];
    let curves = [
        clarity.len(),
        weight.len(),
        window_clarity.len(),
        window_weight.len(),
    ];
    envelope_refusal(envelope, rate, opts, &frames, &curves, work.len())?;
    Ok(analyse(
        envelope,
        rate,
        opts,
        threshold,
        onsets,
        clarity,
        weight,
        window_clarity,
        window_weight,
        score,
        back,
        beats,
        downbeats,
        work,
    ))
}

// Analyses magnitudes, `rows` rows of `bins` each: writes their flux, rows slots, and analyses that as an envelope. The rest of the room is
// `analyse_envelope`'s for rows slots. Refuses also 1 for bins outside 1 to 4,096, 2 for magnitudes that aren't rows times bins, 3 for too
// little room for the flux, and 4 for a magnitude that isn't finite or is larger than 2^126; a refusal writes nothing.
pub fn analyse_magnitudes(
    magnitudes: &[f32],
    rows: usize,
    bins: usize,
    rate: u32,
    opts: TempoOpts,
    flux: &mut [f64],
    threshold: &mut [f64],
    onsets: &mut [u32],
    clarity: &mut [f64],
    weight: &mut [f64],
    window_clarity: &mut [f64],
    window_weight: &mut [f64],
    score: &mut [f64],
    back: &mut [u32],
    beats: &mut [u32],
    downbeats: &mut [u32],
    work: &mut [f64],
) -> Result<Analysis, Refusal>
    ensures { MagnitudesPromise magnitudes.now (slab_of rows bins) rate opts
        flux.old
        (results
        threshold.old onsets.old clarity.old weight.old
        score.old back.old beats.old downbeats.old)
        (spare window_clarity.old window_weight.old work.old)
        (analysis_said result)
        flux.new
        (results
        threshold.new onsets.new clarity.new weight.new
        score.new back.new beats.new downbeats.new)
        (spare window_clarity.new window_weight.new work.new) }
{
    let frames = [
        threshold.len(),
        onsets.len(),
        score.len(),
        back.len(),
        beats.len(),
        downbeats.len(),
    ];
    let curves = [
        clarity.len(),
        weight.len(),
        window_clarity.len(),
        window_weight.len(),
    ];
    let slab = Slab { rows, bins };
    magnitudes_refusal(
        magnitudes,
        slab,
        rate,
        opts,
        flux.len(),
        &frames,
        &curves,
        work.len(),
    )?;
    let m = Magnitudes {
        values: magnitudes,
        slab,
    };
    fill_flux(m, 0, rows, flux);
    Ok(analyse(
        &flux[0..rows],
        rate,
        opts,
        threshold,
        onsets,
        clarity,
        weight,
        window_clarity,
        window_weight,
        score,
        back,
        beats,
        downbeats,
        work,
    ))
}
