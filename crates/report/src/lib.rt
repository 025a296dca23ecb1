// The reporting program's work, apart from its reading and writing: rows that come one after the other, and what refuses an input.
//
// Document 01, The reporting program. Inner calls all: report_head and report_feed call them, and the crates above share the bound.
#![tactic(auto)]

pub mod stream; // stream.rt: the flux of rows that come one after the other, with two of them kept

ghost use Rattle.std.specs.Prelude.{◌≡◌, true};
ghost use Rattle.numbers.specs.Refusals.{lowest, number_of};
ghost use Rattle.report.specs.Input.{shape_fine};

use numbers::Refusal;

// rows of a reported array
pub const MOST_REPORTED: usize = 8_000;

// Inner: whether a shape is within the bounds.
pub fn shape_fine(rows: u64, bins: u64) -> bool
    ensures { result ≡ shape_fine rows bins }
{
    rows <= MOST_REPORTED as u64 && (1 <= bins && bins <= numbers::MOST_BINS as u64)
}

// Inner: what refuses a shape with data behind it, if anything: whether it is within the bounds, whether the data are as long as it says, and whether
// each of their values is fine.
pub fn refusal_of(shape: bool, whole: bool, fine: bool) -> Result<(), Refusal>
    ensures { number_of result ≡ lowest shape whole true fine }
{
    if !shape {
        return Err(Refusal::OutOfBounds);
    }
    if !whole {
        return Err(Refusal::WrongLength);
    }
    if !fine {
        return Err(Refusal::WrongValue);
    }
    Ok(())
}
