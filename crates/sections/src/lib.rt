// Sections: the boundaries of a novelty curve, how sure they are, and their times.
//
// Document 01, Sections. The Rust: structure.rs `confidence_of`, and the end of `detect_structure`.
#![tactic(auto)]

mod confidence; // confidence.rt: how far they stand out

ghost use Rattle.std.specs.Prelude.{◌≡◌, ◌≤◌, map, length, Ok};
ghost use Rattle.numbers.specs.Refusals.{number_of};
ghost use Rattle.numbers.specs.Rounded.{◌⊗◌, real};
ghost use Rattle.numbers.specs.Limits.{most_features, row_fine};
ghost use Rattle.numbers.specs.Lists.{every, listed};
ghost use Rattle.section_peaks.specs.Greatest.{kept_greatest};
ghost use Rattle.sections.specs.Boundaries.{least_rows, frame_ms, section_gap, section_peaks, grid_fine, boundaries_refusal};
ghost use Rattle.sections.specs.Times.{row_times_refusal};
ghost use Rattle.sections.specs.Outcomes.{Found, BoundariesPromise, BoundaryTimesPromise, sections_said};

use numbers::{Refusal, THOUSAND};

// What `boundaries` answers: how many sections there are, how many boundaries are listed (one less, or none), and how far they stand out, from 0
// to 1.
#[derive(Clone, Copy)]
pub struct Sections {
    pub sections: usize,
    pub count: usize,
    pub confidence: f64,
}

// fewer rows are one section
const LEAST_ROWS: usize = 16;
// the least time between two boundaries, in milliseconds
const MIN_GAP_MS: f64 = 4000.0;
// a novelty counts from so many times the distance of the values from their median
const MAD_SCALE: f64 = 1.5;

// Lists the rows of a novelty curve at which a section begins, at most max(1, max_sections) - 1, given a feature row's length in samples and the
// sample rate. Room: a slot of rows and of work for each slot of novelty. Refuses: 1 a novelty longer than 50,000, a length outside
// 1 to 2^31 or a rate outside 1 to 192,000; 3 rows or work shorter than novelty; 4 a value that isn't finite or is larger than 2^150.
// Slots of rows past the count stay, all of them at a refusal. Work's first slots, one for each slot of novelty, then hold anything where
// those are 16 or more; the others, all of them below 16 and all of them at a refusal, are unchanged.
pub fn boundaries(
    novelty: &[f64],
    length: u64,
    rate: u32,
    max_sections: usize,
    rows: &mut [u32],
    work: &mut [f64],
) -> Result<Sections, Refusal>
    ensures { BoundariesPromise novelty.now length rate max_sections
        rows.old work.old
        (sections_said result) rows.new work.new }
{
    refusal(novelty, length, rate, rows.len(), work.len())?;
    let n = novelty.len();
    if n < LEAST_ROWS {
        return Ok(Sections {
            sections: n.min(1),
            count: 0,
            confidence: 0.0,
        });
    }
    let most = max_sections.max(1) - 1;
    Ok(find(novelty, section_gap(length, rate), most, rows, work))
}

// The boundaries of a curve that is long enough, with the least rows between them and the most that are listed.
fn find(novelty: &[f64], gap: usize, most: usize, rows: &mut [u32], work: &mut [f64]) -> Sections
    requires { (least_rows ≤ length novelty.now)
        × (length novelty.now ≤ most_features)
        × (length novelty.now ≤ length rows.old)
        × (length novelty.now ≤ length work.old) }
    ensures { Found 0 novelty.now (kept_greatest novelty.now most (section_peaks novelty.now gap))
        rows.old work.old
        (sections_said (Ok result)) rows.new work.new }
{
    let med = median::median_in(novelty, work);
    let level = med + MAD_SCALE * median::mad_in(novelty, med, work);
    let count = section_peaks::pick_boundaries(novelty, level, gap, most, rows, work);
    let sure = confidence::confidence_of(novelty, med, &rows[0..count]);
    Sections {
        sections: count + 1,
        count,
        confidence: sure,
    }
}

fn refusal(novelty: &[f64], length: u64, rate: u32, room: usize, work: usize) -> Result<(), Refusal>
    ensures { number_of result ≡ boundaries_refusal novelty.now length rate room work }
{
    if novelty.len() > numbers::MOST_FEATURES {
        return Err(Refusal::OutOfBounds);
    }
    if !grid_fine(length, rate) {
        return Err(Refusal::OutOfBounds);
    }
    if room < novelty.len() {
        return Err(Refusal::TooLittleRoom);
    }
    if work < novelty.len() {
        return Err(Refusal::TooLittleRoom);
    }
    if numbers::values_fine(novelty) {
        return Ok(());
    }
    Err(Refusal::WrongValue)
}

// Whether a feature row's length and the sample rate are in their bounds.
fn grid_fine(length: u64, rate: u32) -> bool
    ensures { result ≡ grid_fine length rate }
{
    if length < 1 {
        return false;
    }
    if length > numbers::MOST_LENGTH {
        return false;
    }
    numbers::rate_fine(rate)
}

// Inner: a feature row's length in milliseconds.
pub fn frame_ms(length: u64, rate: u32) -> f64
    ensures { result ≡ frame_ms length rate }
{
    std::num::nearest_u64_to_f64(length) / (rate as f64) * THOUSAND
}

// Inner: the rows within which one boundary is kept.
pub fn section_gap(length: u64, rate: u32) -> usize
    ensures { result ≡ section_gap length rate }
{
    let rows = floats::wholes::ceil_of(MIN_GAP_MS / frame_ms(length, rate)) as usize;
    rows.max(1)
}

// Writes the time in milliseconds at which each row begins, in the rows' order. Room: one slot for each row.
// Refuses: 1 a length outside 1 to 2^31, a rate outside 1 to 192,000 or a row of 50,000 and above; 3 ms shorter than rows. A refusal
// writes nothing. The rows need not ascend. Slots past them stay.
pub fn boundary_times(rows: &[u32], length: u64, rate: u32, ms: &mut [f64]) -> Result<(), Refusal>
    ensures { BoundaryTimesPromise rows.now length rate ms.old (number_of result) ms.new }
{
    times_refusal(rows, length, rate, ms.len())?;
    write_times(rows, frame_ms(length, rate), ms);
    Ok(())
}

fn times_refusal(rows: &[u32], length: u64, rate: u32, room: usize) -> Result<(), Refusal>
    ensures { number_of result ≡ row_times_refusal rows.now length rate room }
{
    if !grid_fine(length, rate) {
        return Err(Refusal::OutOfBounds);
    }
    if !lists::all_at_most(rows, numbers::MOST_LISTED_ROW) {
        return Err(Refusal::OutOfBounds);
    }
    if room < rows.len() {
        return Err(Refusal::TooLittleRoom);
    }
    Ok(())
}

fn write_times(rows: &[u32], each: f64, ms: &mut [f64])
    requires { length rows.now ≤ length ms.old }
    ensures { ms.new ≡ listed (map (λ row. real row ⊗ each) rows.now) ms.old }
{
    for i in 0..rows.len() {
        ms[i] = (rows[i] as f64) * each;
    }
}
