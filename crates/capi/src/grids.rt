// `beat_grid`, `downbeats` and `bar_beat_at`, for C.
ghost use Rattle.capi.specs.Lists.{PhDownbeatsPromise};
ghost use Rattle.capi.specs.Grids.{PhGridPromise, PhBarBeatPromise};

use capi_answers::counts::counted;
use capi_answers::grids::put_place;
use options::TempoOpts;

// `beats::beat_grid`, for C.
#[unsafe(no_mangle)]
pub extern "C" fn ph_beat_grid(
    envelope: &[f64],
    period: usize,
    score: &mut [f64],
    back: &mut [u32],
    beats: &mut [u32],
    count: &mut usize,
) -> u32
    ensures { PhGridPromise envelope.now period
        score.old back.old beats.old count.old
        result score.new back.new beats.new count.new }
{
    counted(
        beats::beat_grid(envelope, period, score, back, beats),
        count,
    )
}

// `bars::downbeats`, for C, which hands over the meter alone of the options: no bound is read.
#[unsafe(no_mangle)]
pub extern "C" fn ph_downbeats(
    envelope: &[f64],
    beats: &[u32],
    meter: usize,
    frames: &mut [u32],
    count: &mut usize,
) -> u32
    ensures { PhDownbeatsPromise envelope.now beats.now meter frames.old count.old
        result frames.new count.new }
{
    counted(
        bars::downbeats(envelope, beats, TempoOpts::new().with_meter(meter), frames),
        count,
    )
}

// `bars::bar_beat_at`, for C.
#[unsafe(no_mangle)]
pub extern "C" fn ph_bar_beat_at(
    time: f64,
    downbeats: &[f64],
    beats: &[f64],
    found: &mut u32,
    bar: &mut usize,
    beat: &mut usize,
) -> u32
    ensures { PhBarBeatPromise time downbeats.now beats.now
        result found.new bar.new beat.new }
{
    put_place(bars::bar_beat_at(time, downbeats, beats), found, bar, beat)
}
