// Cue chunks: frames to the bytes of a RIFF WAVE cue chunk and back.
//
// Document 02, No. 6. It is the chunk alone; a WAV file around it is the caller's.
#![tactic(auto)]

ghost use Rattle.std.specs.Prelude.{◌≡◌, true, ◌+◌, ◌*◌, ◌≤◌, length};
ghost use Rattle.numbers.specs.Outcomes.{listing};
ghost use Rattle.numbers.specs.Limits.{most_frame, frame_fine};
ghost use Rattle.numbers.specs.Lists.{every};
ghost use Rattle.numbers.specs.Refusals.{number_of, first_of};
ghost use Rattle.texts.specs.Texts.{Put};
ghost use Rattle.cue_points.specs.Chunks.{chunk_length, offsets_of, points_from};
ghost use Rattle.cues.specs.Calls.{chunk_rows, write_cues_number, read_cues_number, WriteCuesPromise, ReadCuesPromise};

use cue_points::frame_at;
use numbers::Refusal;

// Writes the cue chunk of frames into the first bytes and answers how many they are; later bytes stay.
// Room: 12 bytes and 24 a frame. Refuses 1 (a frame above 1,048,575), 11 (frames that don't strictly ascend) and 3, and then writes nothing.
pub fn write_cues(frames: &[u32], chunk: &mut [u8]) -> Result<usize, Refusal>
    ensures { WriteCuesPromise frames.now chunk.old (listing result) chunk.new }
{
    write_refusal(frames, chunk.len())?;
    cue_points::put_head(chunk, frames.len() as u32);
    put_points(chunk, frames);
    Ok(12 + 24 * frames.len())
}

// Reads the frames of a cue chunk into the first slots and answers how many they are; later slots stay. Any bytes will do, of any length.
// Room: one slot a point. Refuses 9 (bytes that are no chunk of this form), 10 (an offset that is no listed frame's), 11 (frames that don't strictly
// ascend) and 3, and then writes nothing.
pub fn read_cues(chunk: &[u8], frames: &mut [u32]) -> Result<usize, Refusal>
    ensures { ReadCuesPromise chunk.now frames.old (listing result) frames.new }
{
    read_refusal(chunk, frames.len())?;
    let n = cue_points::point_count(chunk);
    for i in 0..n {
        frames[i as usize] = frame_at(chunk, i);
    }
    Ok(n as usize)
}

fn write_refusal(frames: &[u32], room: usize) -> Result<(), Refusal>
    ensures { number_of result ≡ write_cues_number frames.now room }
{
    lists::grid_refusal(frames)?;
    if 12 + 24 * frames.len() > room {
        return Err(Refusal::TooLittleRoom);
    }
    Ok(())
}

// The points of frames, behind the head.
fn put_points(out: &mut [u8], frames: &[u32])
    requires frames_in_bounds { chunk_length (length frames.now) ≤ length out.old }
    requires frames_value { every frame_fine frames.now ≡ true }
    requires frames_len_bound { length frames.now ≤ most_frame + 1 }
    ensures { Put
        out.old 12 (points_from 0 (offsets_of frames.now))
        (chunk_length (length frames.now)) out.new }
{
    let mut at = 12;
    for (i, &t) in frames.iter().enumerate() {
        at = cue_points::put_point(out, at, i as u32, t * 256 + 512);
    }
}

// Inner: what refuses a chunk, whatever is made of it: 9, 10, 11, each of them of the whole chunk. One pass: a point that is not of the form ends it, and an
// offset that is no listed frame's, or not later than the one before, is kept in mind until the last point.
pub fn chunk_refusal(chunk: &[u8]) -> Result<(), Refusal>
    ensures { number_of result ≡ first_of (chunk_rows chunk.now) }
{
    if !cue_points::head_fine(chunk) {
        return Err(Refusal::NotOfThisForm);
    }
    let n = cue_points::point_count(chunk);
    let mut j = lists::unread();
    for i in 0..n {
        if !cue_points::point_fine(chunk, i) {
            return Err(Refusal::NotOfThisForm);
        }
        j = cue_points::read_offset(j, cue_points::offset_at(chunk, i));
    }
    lists::read_refusal(j)
}

fn read_refusal(chunk: &[u8], room: usize) -> Result<(), Refusal>
    ensures { number_of result ≡ read_cues_number chunk.now room }
{
    chunk_refusal(chunk)?;
    if cue_points::point_count(chunk) as usize > room {
        return Err(Refusal::TooLittleRoom);
    }
    Ok(())
}
