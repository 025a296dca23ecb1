// From label tracks to cue points and back, at a given rate.
//
// Document 02, No. 6. No list of frames is lent: one pass over the input judges it, and a second one writes on what it reads.
#![tactic(auto)]

ghost use Rattle.std.specs.Prelude.{◌≡◌, true, ◌+◌, ◌≤◌, length};
ghost use Rattle.numbers.specs.Outcomes.{listing};
ghost use Rattle.numbers.specs.Limits.{most_frame, rate_fine};
ghost use Rattle.numbers.specs.Lists.{every, listed};
ghost use Rattle.numbers.specs.Refusals.{first_of};
ghost use Rattle.texts.specs.Texts.{Put};
ghost use Rattle.lists.specs.Grids.{Counted};
ghost use Rattle.cue_points.specs.Chunks.{chunk_length, offsets_of, points_from, chunk_frames};
ghost use Rattle.cues.specs.Calls.{chunk_rows};
ghost use Rattle.label_times.specs.Frames.{time_fine};
ghost use Rattle.label_tracks.specs.Tracks.{label_bytes, text_fine, text_times, text_frames};
ghost use Rattle.label_cues.specs.Calls.{rated_rows, LabelsToCuesPromise, CuesToLabelsPromise};

use label_lines::line_end;
use label_tracks::frame_at;
use numbers::Refusal;

// Writes the cue chunk of a label track's frames into the first bytes and answers how many they are; later bytes stay. Any bytes will do as the track, of
// any length; no labels give a chunk of count 0.
// Room: 12 bytes and 24 a label. Refuses 1 (a rate outside 1 to 192,000), 9 (a line that is not of this form), 10 (a time that is no listed frame's),
// 11 (frames that don't strictly ascend) and 3, and then writes nothing.
pub fn labels_to_cues(text: &[u8], rate: u32, chunk: &mut [u8]) -> Result<usize, Refusal>
    ensures { LabelsToCuesPromise text.now rate chunk.old (listing result) chunk.new }
{
    let n = label_tracks::text_judged(text, rate)?;
    let bytes = 12 + 24 * n;
    if bytes > chunk.len() {
        return Err(Refusal::TooLittleRoom);
    }
    cue_points::put_head(chunk, n as u32);
    put_points(chunk, text, rate);
    Ok(bytes)
}

// Writes the label track of a cue chunk's frames into the first bytes and answers how many they are; later bytes stay. Any bytes will do as the chunk, of
// any length; a chunk of count 0 gives no labels.
// Room: 2d + 21 bytes a point whose time has d digits of seconds, at most 39. Refuses 1 (a rate outside 1 to 192,000), 9 (bytes that are no chunk of this
// form), 10 (an offset that is no listed frame's), 11 (frames that don't strictly ascend) and 3, and then writes nothing.
pub fn cues_to_labels(chunk: &[u8], rate: u32, text: &mut [u8]) -> Result<usize, Refusal>
    ensures { CuesToLabelsPromise chunk.now rate text.old (listing result) text.new }
{
    let bytes = chunk_judged(chunk, rate)?;
    if bytes > text.len() {
        return Err(Refusal::TooLittleRoom);
    }
    put_lines(text, chunk, rate);
    Ok(bytes)
}

// The points of a track's lines, behind the head.
fn put_points(out: &mut [u8], text: &[u8], rate: u32)
    requires text_in_bounds { chunk_length (length (text_frames rate text.now)) ≤ length out.old }
    requires text_len_bound { length (text_frames rate text.now) ≤ most_frame + 1 }
    requires rate_value { rate_fine rate ≡ true }
    requires text_value { text_fine text.now ≡ true }
    requires text_value_2 { every (time_fine rate) (text_times text.now) ≡ true }
    ensures { Put
        out.old 12 (points_from 0 (offsets_of (text_frames rate text.now)))
        (chunk_length (length (text_frames rate text.now))) out.new }
{
    let mut end = 12;
    let mut i: u32 = 0;
    let mut at = 0;
    // Kept as a while: a line ends where its digits say.
    while at < text.len() {
        let t = frame_at(text, at, rate);
        end = cue_points::put_point(out, end, i, t * 256 + 512);
        at = line_end(text, at);
        i += 1;
    }
}

// What refuses a chunk at a rate, 1, 9, 10, 11; else how many bytes the lines of its frames have. One pass, as in `cues::chunk_refusal`.
fn chunk_judged(chunk: &[u8], rate: u32) -> Result<usize, Refusal>
    ensures { Counted
        (first_of (rated_rows chunk.now rate)) (length (label_bytes rate (chunk_frames chunk.now)))
        (listing result) }
{
    if !numbers::rate_fine(rate) {
        return Err(Refusal::OutOfBounds);
    }
    if !cue_points::head_fine(chunk) {
        return Err(Refusal::NotOfThisForm);
    }
    let n = cue_points::point_count(chunk);
    let mut j = lists::unread();
    let mut total: usize = 0;
    for i in 0..n {
        if !cue_points::point_fine(chunk, i) {
            return Err(Refusal::NotOfThisForm);
        }
        j = cue_points::read_offset(j, cue_points::offset_at(chunk, i));
        let u = times::microseconds(cue_points::frame_at(chunk, i), rate);
        total += label_lines::line_length(u);
    }
    lists::read_refusal(j)?;
    Ok(total)
}

// The lines of a chunk's frames.
fn put_lines(out: &mut [u8], chunk: &[u8], rate: u32)
    requires rate_value { rate_fine rate ≡ true }
    requires chunk_value { first_of (chunk_rows chunk.now) ≡ 0 }
    requires chunk_in_bounds { length (label_bytes rate (chunk_frames chunk.now)) ≤ length out.old }
    ensures { out.new ≡ listed (label_bytes rate (chunk_frames chunk.now)) out.old }
{
    let n = cue_points::point_count(chunk);
    let mut at = 0;
    for i in 0..n {
        let u = times::microseconds(cue_points::frame_at(chunk, i), rate);
        at = label_lines::put_line(out, at, u);
    }
}
