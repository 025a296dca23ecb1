// A label track as a whole: whether its lines are of the form, its times those of listed frames, and these in order.
//
// Document 02, No. 6. Inner calls all: crates labels and label_cues read tracks with them. Any bytes will do, of any length.
#![tactic(auto)]

ghost use Rattle.std.specs.Prelude.{◌≡◌, true, ◌≤◌, length, drop};
ghost use Rattle.numbers.specs.Outcomes.{listing};
ghost use Rattle.numbers.specs.Limits.{rate_fine, most_frame};
ghost use Rattle.numbers.specs.Refusals.{first_of};
ghost use Rattle.lists.specs.Grids.{Counted};
ghost use Rattle.label_times.specs.Frames.{frame_for, time_fine};
ghost use Rattle.label_lines.specs.Lines.{line_fine, time_of};
ghost use Rattle.label_tracks.specs.Tracks.{text_times, text_rows};

use label_lines::{line_end, time_at};
use numbers::Refusal;

// Inner: the frame of the line that stands from `at` on, whose time is a listed frame's.
pub fn frame_at(text: &[u8], at: usize, rate: u32) -> u32
    requires text_value { line_fine (drop at text.now) ≡ true }
    requires rate_value { rate_fine rate ≡ true }
    requires text_value_2 { time_fine rate (time_of (drop at text.now)) ≡ true }
    ensures { (result ≡ frame_for (time_of (drop at text.now)) rate) × (result ≤ most_frame) }
{
    label_times::frame_for(time_at(text, at), rate) as u32
}

// Inner: what refuses a text at a rate, whatever is made of it: 1, 9, 10, 11, each of them of the whole text; else how many lines it has. One pass: a line
// that is not of the form ends it, and a time that is no listed frame's, or not later than the one before, is kept in mind until the last line.
pub fn text_judged(text: &[u8], rate: u32) -> Result<usize, Refusal>
    ensures { Counted (first_of (text_rows rate text.now)) (length (text_times text.now)) (listing result) }
{
    if !numbers::rate_fine(rate) {
        return Err(Refusal::OutOfBounds);
    }
    let mut j = lists::unread();
    let mut n: usize = 0;
    let mut at = 0;
    // Kept as a while: a line ends where its digits say.
    while at < text.len() {
        if !label_lines::line_fine(text, at) {
            return Err(Refusal::NotOfThisForm);
        }
        j = label_times::read_time(j, time_at(text, at), rate);
        at = line_end(text, at);
        n += 1;
    }
    lists::read_refusal(j)?;
    Ok(n)
}
