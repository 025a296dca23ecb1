// An answer of `room_of`, or of an analysis, handed over.
ghost use Rattle.rooms.specs.Rooms.{room_said};
ghost use Rattle.track.specs.Analyses.{analysis_said};
ghost use Rattle.capi_answers.specs.Handed.{Handed};
ghost use Rattle.capi_answers.specs.Tracks.{room_lent, room_parts, track_lent, track_parts};

use crate::tempos::{put_candidates, put_stability, put_tempo};
use numbers::Refusal;
use rooms::Room;
use track::Analysis;

// Inner: stores the room unless the call refused, and answers its number.
pub fn put_room(
    room: Result<Room, Refusal>,
    row_slots: &mut usize,
    lag_slots: &mut usize,
    work_slots: &mut usize,
) -> u32
    ensures { Handed (room_said room).number (room_parts (room_said room)) (room_lent row_slots.old lag_slots.old work_slots.old)
        result (room_lent row_slots.new lag_slots.new work_slots.new) }
{
    match room {
        Ok(slots) => {
            *row_slots = slots.rows;
            *lag_slots = slots.lags;
            *work_slots = slots.sorting;
            0
        }
        Err(refusal) => refusal.number(),
    }
}

// Inner: stores the parts of an analysis unless the call refused, and answers its number.
pub fn put_analysis(
    answer: Result<Analysis, Refusal>,
    onset_count: &mut usize,
    found: &mut u32,
    bpm: &mut f64,
    clarity: &mut f64,
    lags: &mut [usize; 3],
    saliences: &mut [f64; 3],
    count: &mut usize,
    steady: &mut u32,
    fraction: &mut f64,
    agreeing: &mut usize,
    windows: &mut usize,
    beat_count: &mut usize,
    downbeat_count: &mut usize,
) -> u32
    ensures { Handed (analysis_said answer).number (track_parts (analysis_said answer))
        (track_lent onset_count.old found.old bpm.old clarity.old lags.old
        saliences.old count.old steady.old fraction.old agreeing.old windows.old
        beat_count.old downbeat_count.old)
        result
        (track_lent onset_count.new found.new bpm.new clarity.new lags.new
        saliences.new count.new steady.new fraction.new agreeing.new windows.new
        beat_count.new downbeat_count.new) }
{
    match answer {
        Ok(analysis) => {
            put_tempo(analysis.tempo, found, bpm, clarity);
            put_candidates(analysis.candidates, lags, saliences);
            put_stability(analysis.stability, steady, fraction, agreeing, windows);
            *onset_count = analysis.onsets;
            *count = analysis.count;
            *beat_count = analysis.beats;
            *downbeat_count = analysis.downbeats;
            0
        }
        Err(refusal) => refusal.number(),
    }
}
