// The calls of crates analysis and rooms, for C: one whole track in one call, and the room that it needs.
ghost use Rattle.numbers.specs.Limits.{slab_of};
ghost use Rattle.rooms.specs.Rooms.{results, spare};
ghost use Rattle.capi_answers.specs.Tracks.{room_lent, track_lent};
ghost use Rattle.capi.specs.Choices.{chosen_options};
ghost use Rattle.capi.specs.Tracks.{PhRoomPromise, PhEnvelopePromise, PhMagnitudesPromise};

use crate::choices::chosen;
use capi_answers::tracks::{put_analysis, put_room};

// `rooms::room_of`, for C.
#[unsafe(no_mangle)]
pub extern "C" fn ph_room_of(
    rows: usize,
    rate: u32,
    min_bpm: f64,
    max_bpm: f64,
    meter: usize,
    row_slots: &mut usize,
    lag_slots: &mut usize,
    work_slots: &mut usize,
) -> u32
    ensures { PhRoomPromise rows rate (chosen_options min_bpm max_bpm meter)
        (room_lent row_slots.old lag_slots.old work_slots.old)
        result (room_lent row_slots.new lag_slots.new work_slots.new) }
{
    put_room(
        rooms::room_of(rows, rate, chosen(min_bpm, max_bpm, meter)),
        row_slots,
        lag_slots,
        work_slots,
    )
}

// `analysis::analyse_envelope`, for C.
#[unsafe(no_mangle)]
pub extern "C" fn ph_analyse_envelope(
    envelope: &[f64],
    rate: u32,
    min_bpm: f64,
    max_bpm: f64,
    meter: usize,
    threshold: &mut [f64],
    onsets: &mut [u32],
    clarity_curve: &mut [f64],
    weight_curve: &mut [f64],
    window_clarity: &mut [f64],
    window_weight: &mut [f64],
    score: &mut [f64],
    back: &mut [u32],
    beats: &mut [u32],
    downbeats: &mut [u32],
    work: &mut [f64],
    onset_count: &mut usize,
    found: &mut u32,
    bpm: &mut f64,
    clarity: &mut f64,
    lags: &mut [usize; 3],
    saliences: &mut [f64; 3],
    count: &mut usize,
    steady: &mut u32,
    fraction: &mut f64,
    agreeing: &mut usize,
    windows: &mut usize,
    beat_count: &mut usize,
    downbeat_count: &mut usize,
) -> u32
    ensures { PhEnvelopePromise envelope.now rate (chosen_options min_bpm max_bpm meter)
        (results threshold.old onsets.old clarity_curve.old weight_curve.old score.old
        back.old beats.old downbeats.old)
        (spare window_clarity.old window_weight.old work.old)
        (track_lent onset_count.old found.old bpm.old clarity.old lags.old
        saliences.old count.old steady.old fraction.old agreeing.old windows.old
        beat_count.old downbeat_count.old)
        result
        (results threshold.new onsets.new clarity_curve.new weight_curve.new score.new
        back.new beats.new downbeats.new)
        (spare window_clarity.new window_weight.new work.new)
        (track_lent onset_count.new found.new bpm.new clarity.new lags.new
        saliences.new count.new steady.new fraction.new agreeing.new windows.new
        beat_count.new downbeat_count.new) }
{
    let answer = analysis::analyse_envelope(
        envelope,
        rate,
        chosen(min_bpm, max_bpm, meter),
        threshold,
        onsets,
        clarity_curve,
        weight_curve,
        window_clarity,
        window_weight,
        score,
        back,
        beats,
        downbeats,
        work,
    );
    put_analysis(
        answer,
        onset_count,
        found,
        bpm,
        clarity,
        lags,
        saliences,
        count,
        steady,
        fraction,
        agreeing,
        windows,
        beat_count,
        downbeat_count,
    )
}

// `analysis::analyse_magnitudes`, for C.
#[unsafe(no_mangle)]
pub extern "C" fn ph_analyse_magnitudes(
    magnitudes: &[f32],
    rows: usize,
    bins: usize,
    rate: u32,
    min_bpm: f64,
    max_bpm: f64,
    meter: usize,
    flux: &mut [f64],
    threshold: &mut [f64],
    onsets: &mut [u32],
    clarity_curve: &mut [f64],
    weight_curve: &mut [f64],
    window_clarity: &mut [f64],
    window_weight: &mut [f64],
    score: &mut [f64],
    back: &mut [u32],
    beats: &mut [u32],
    downbeats: &mut [u32],
    work: &mut [f64],
    onset_count: &mut usize,
    found: &mut u32,
    bpm: &mut f64,
    clarity: &mut f64,
    lags: &mut [usize; 3],
    saliences: &mut [f64; 3],
    count: &mut usize,
    steady: &mut u32,
    fraction: &mut f64,
    agreeing: &mut usize,
    windows: &mut usize,
    beat_count: &mut usize,
    downbeat_count: &mut usize,
) -> u32
    ensures { PhMagnitudesPromise magnitudes.now (slab_of rows bins) rate (chosen_options min_bpm max_bpm meter) flux.old
        (results threshold.old onsets.old clarity_curve.old weight_curve.old score.old
        back.old beats.old downbeats.old)
        (spare window_clarity.old window_weight.old work.old)
        (track_lent onset_count.old found.old bpm.old clarity.old lags.old
        saliences.old count.old steady.old fraction.old agreeing.old windows.old
        beat_count.old downbeat_count.old)
        result flux.new
        (results threshold.new onsets.new clarity_curve.new weight_curve.new score.new
        back.new beats.new downbeats.new)
        (spare window_clarity.new window_weight.new work.new)
        (track_lent onset_count.new found.new bpm.new clarity.new lags.new
        saliences.new count.new steady.new fraction.new agreeing.new windows.new
        beat_count.new downbeat_count.new) }
{
    let answer = analysis::analyse_magnitudes(
        magnitudes,
        rows,
        bins,
        rate,
        chosen(min_bpm, max_bpm, meter),
        flux,
        threshold,
        onsets,
        clarity_curve,
        weight_curve,
        window_clarity,
        window_weight,
        score,
        back,
        beats,
        downbeats,
        work,
    );
    put_analysis(
        answer,
        onset_count,
        found,
        bpm,
        clarity,
        lags,
        saliences,
        count,
        steady,
        fraction,
        agreeing,
        windows,
        beat_count,
        downbeat_count,
    )
}
