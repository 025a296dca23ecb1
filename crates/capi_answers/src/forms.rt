// An answer of `boundaries`, handed over.
ghost use Rattle.sections.specs.Outcomes.{sections_said};
ghost use Rattle.capi_answers.specs.Handed.{Handed};
ghost use Rattle.capi_answers.specs.Forms.{sections_lent, parts_in};

use numbers::Refusal;
use sections::Sections;

// Inner: stores the parts of an answer unless the call refused, and answers its number.
pub fn put_sections(
    answer: Result<Sections, Refusal>,
    sections: &mut usize,
    count: &mut usize,
    confidence: &mut f64,
) -> u32
    ensures { Handed (sections_said answer).number (parts_in (sections_said answer)) (sections_lent sections.old count.old confidence.old)
        result (sections_lent sections.new count.new confidence.new) }
{
    match answer {
        Ok(found) => {
            *sections = found.sections;
            *count = found.count;
            *confidence = found.confidence;
            0
        }
        Err(refusal) => refusal.number(),
    }
}
