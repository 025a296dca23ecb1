// The room of one whole analysis, and what one is refused for.
//
// Document 01, its room and its numbers. Every refusal of an analysis is decided here, before any part of it is called.
#![tactic(auto)]

ghost use Rattle.std.specs.Prelude.{◌≡◌, leb, Ok};
ghost use Rattle.numbers.specs.Refusals.{number_of};
ghost use Rattle.numbers.specs.Lists.{every};
ghost use Rattle.rooms.specs.Rooms.{room_of, suffices, envelope_refusal, magnitudes_refusal, room_said};

use lags::{bounds_fine, lags_in};
use numbers::{MOST_ROWS, Refusal, Slab};
use options::TempoOpts;
use threshold::MEDIAN_WINDOW;

// The room of an analysis, in slots: `rows` for each slice with a slot a frame, `lags` for each of the four lag curves, `sorting` for work.
#[derive(Clone, Copy)]
pub struct Room {
    pub rows: usize,
    pub lags: usize,
    pub sorting: usize,
}

// Says how much room an analysis of N frames needs at a sample rate: N slots, L = max_lag - min_lag + 1, and max(L, min(21, N)) to sort in.
// Refuses 1 for N above 1,048,576, a rate outside 1 to 192,000 or a meter outside 1 to 16, and then names no room.
pub fn room_of(rows: usize, rate: u32, opts: TempoOpts) -> Result<Room, Refusal>
    ensures { room_said result ≡ room_of rows rate opts }
{
    if rows > MOST_ROWS {
        return Err(Refusal::OutOfBounds);
    }
    if !bounds_fine(rate, opts) {
        return Err(Refusal::OutOfBounds);
    }
    let range = lags_in(rate, opts);
    let slots = lags::lag_slots(range.min_lag, range.max_lag);
    Ok(Room {
        rows,
        lags: slots,
        sorting: slots.max(MEDIAN_WINDOW.min(rows)),
    })
}

// whether each of the lengths is at least so many slots
fn all_hold(lengths: &[usize], slots: usize) -> bool
    ensures { result ≡ every (leb slots) lengths.now }
{
    for i in 0..lengths.len() {
        if lengths[i] < slots {
            return false;
        }
    }
    true
}

// whether what is lent has the room
fn has_room(room: Room, frames: &[usize], lags: &[usize], work: usize) -> bool
    ensures { result ≡ suffices (room_said (Ok room)) frames.now lags.now work }
{
    all_hold(frames, room.rows) && (all_hold(lags, room.lags) && room.sorting <= work)
}

// Inner: what an analysis of an envelope refuses, by the lengths of what is lent.
pub fn envelope_refusal(
    envelope: &[f64],
    rate: u32,
    opts: TempoOpts,
    frames: &[usize],
    lags: &[usize],
    work: usize,
) -> Result<(), Refusal>
    ensures { number_of result ≡ envelope_refusal envelope.now rate opts frames.now lags.now work }
{
    let room = room_of(envelope.len(), rate, opts)?;
    if !has_room(room, frames, lags, work) {
        return Err(Refusal::TooLittleRoom);
    }
    if !numbers::values_fine(envelope) {
        return Err(Refusal::WrongValue);
    }
    Ok(())
}

// Inner: what an analysis of magnitudes refuses, by the lengths of what is lent.
pub fn magnitudes_refusal(
    magnitudes: &[f32],
    slab: Slab,
    rate: u32,
    opts: TempoOpts,
    flux: usize,
    frames: &[usize],
    lags: &[usize],
    work: usize,
) -> Result<(), Refusal>
    ensures { number_of result ≡ magnitudes_refusal magnitudes.now slab rate opts flux frames.now lags.now work }
{
    if !numbers::slab_fine(slab) {
        return Err(Refusal::OutOfBounds);
    }
    let rows = slab.rows;
    let room = room_of(rows, rate, opts)?;
    if !numbers::slab_whole(slab, magnitudes.len()) {
        return Err(Refusal::WrongLength);
    }
    if flux < rows {
        return Err(Refusal::TooLittleRoom);
    }
    if !has_room(room, frames, lags, work) {
        return Err(Refusal::TooLittleRoom);
    }
    if !numbers::magnitudes_fine(magnitudes) {
        return Err(Refusal::WrongValue);
    }
    Ok(())
}
