// Label tracks: frames to the bytes of an Audacity label track and back, at a given rate.
//
// Document 02, No. 6. A label's length is a formula in its time's digits: two times of d digits of seconds each, which is 2d + 21 bytes.
#![tactic(auto)]

ghost use Rattle.std.specs.Prelude.{◌≡◌, true, ◌+◌, ◌≤◌, length};
ghost use Rattle.numbers.specs.Outcomes.{listing};
ghost use Rattle.numbers.specs.Limits.{most_frame, rate_fine, frame_fine};
ghost use Rattle.numbers.specs.Lists.{every, listed};
ghost use Rattle.numbers.specs.Refusals.{number_of, first_of};
ghost use Rattle.label_tracks.specs.Tracks.{label_bytes};
ghost use Rattle.labels.specs.Calls.{frames_rows, read_labels_number, LabelsRoomPromise, WriteLabelsPromise, ReadLabelsPromise};

use label_lines::line_end;
use label_tracks::frame_at;
use numbers::Refusal;

// Tells how many bytes the label track of frames has at a rate.
// Refuses 1 (a rate outside 1 to 192,000, a frame above 1,048,575) and 11 (frames that don't strictly ascend).
pub fn labels_room(frames: &[u32], rate: u32) -> Result<usize, Refusal>
    ensures { LabelsRoomPromise frames.now rate (listing result) }
{
    frames_refusal(frames, rate)?;
    Ok(text_length(frames, rate))
}

// Writes the label track of frames at a rate into the first bytes and answers how many they are; later bytes stay.
// Room: what `labels_room` tells, at most 39 bytes a frame. Refuses 1 (a rate outside 1 to 192,000, a frame above 1,048,575), 11 (frames that don't
// strictly ascend) and 3, and then writes nothing.
pub fn write_labels(frames: &[u32], rate: u32, text: &mut [u8]) -> Result<usize, Refusal>
    ensures { WriteLabelsPromise frames.now rate text.old (listing result) text.new }
{
    let bytes = labels_room(frames, rate)?;
    if bytes > text.len() {
        return Err(Refusal::TooLittleRoom);
    }
    put_lines(text, frames, rate);
    Ok(bytes)
}

// Reads the frames of a label track at a rate into the first slots and answers how many they are; later slots stay. Any bytes will do, of any length.
// Room: one slot a line. Refuses 1 (a rate outside 1 to 192,000), 9 (a line that is not of this form), 10 (a time that is no listed frame's), 11 (frames
// that don't strictly ascend) and 3, and then writes nothing.
pub fn read_labels(text: &[u8], rate: u32, frames: &mut [u32]) -> Result<usize, Refusal>
    ensures { ReadLabelsPromise text.now rate frames.old (listing result) frames.new }
{
    read_refusal(text, rate, frames.len())?;
    let mut n: usize = 0;
    let mut at = 0;
    // Kept as a while: a line ends where its digits say.
    while at < text.len() {
        frames[n] = frame_at(text, at, rate);
        at = line_end(text, at);
        n += 1;
    }
    Ok(n)
}

fn frames_refusal(frames: &[u32], rate: u32) -> Result<(), Refusal>
    ensures { number_of result ≡ first_of (frames_rows frames.now rate) }
{
    if !numbers::rate_fine(rate) {
        return Err(Refusal::OutOfBounds);
    }
    lists::grid_refusal(frames)
}

// How many bytes the lines of frames have.
fn text_length(frames: &[u32], rate: u32) -> usize
    requires rate_value { rate_fine rate ≡ true }
    requires frames_value { every frame_fine frames.now ≡ true }
    requires frames_len_bound { length frames.now ≤ most_frame + 1 }
    ensures { result ≡ length (label_bytes rate frames.now) }
{
    let mut total: usize = 0;
    for &t in frames {
        total += label_lines::line_length(times::microseconds(t, rate));
    }
    total
}

// The lines of frames.
fn put_lines(out: &mut [u8], frames: &[u32], rate: u32)
    requires rate_value { rate_fine rate ≡ true }
    requires frames_in_bounds { length (label_bytes rate frames.now) ≤ length out.old }
    ensures { out.new ≡ listed (label_bytes rate frames.now) out.old }
{
    let mut at = 0;
    for &t in frames {
        at = label_lines::put_line(out, at, times::microseconds(t, rate));
    }
}

fn read_refusal(text: &[u8], rate: u32, room: usize) -> Result<(), Refusal>
    ensures { number_of result ≡ read_labels_number text.now rate room }
{
    let lines = label_tracks::text_judged(text, rate)?;
    if lines > room {
        return Err(Refusal::TooLittleRoom);
    }
    Ok(())
}
