// A listing, handed over: an answer of `pick_onsets`, `suppress_close_peaks`, `beat_grid`, `downbeats`, or of a call that writes or reads a file.
ghost use Rattle.numbers.specs.Outcomes.{listing};
ghost use Rattle.capi_answers.specs.Handed.{Handed};

use numbers::Refusal;

// Inner: stores the count unless the call refused, and answers its number.
pub fn counted(answer: Result<usize, Refusal>, count: &mut usize) -> u32
    ensures { Handed (listing answer).number (listing answer).count count.old result count.new }
{
    match answer {
        Ok(listed) => {
            *count = listed;
            0
        }
        Err(refusal) => refusal.number(),
    }
}
