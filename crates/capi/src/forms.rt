// The calls of crates similarities, novelties and sections, for C.
ghost use Rattle.similarities.specs.Similarity.{SimilarityPromise};
ghost use Rattle.novelties.specs.Novelty.{NoveltyPromise};
ghost use Rattle.sections.specs.Outcomes.{BoundaryTimesPromise};
ghost use Rattle.capi_answers.specs.Forms.{sections_lent};
ghost use Rattle.capi.specs.Forms.{PhBoundariesPromise};

use capi_answers::forms::put_sections;
use numbers::number_of;

// `similarities::similarity`, for C.
#[unsafe(no_mangle)]
pub extern "C" fn ph_similarity(features: &[f64], rows: usize, similarity: &mut [f64]) -> u32
    ensures { SimilarityPromise features.now rows similarity.old result similarity.new }
{
    number_of(&similarities::similarity(features, rows, similarity))
}

// `novelties::novelty`, for C.
#[unsafe(no_mangle)]
pub extern "C" fn ph_novelty(similarity: &[f64], rows: usize, novelty: &mut [f64]) -> u32
    ensures { NoveltyPromise similarity.now rows novelty.old result novelty.new }
{
    number_of(&novelties::novelty(similarity, rows, novelty))
}

// `sections::boundaries`, for C.
#[unsafe(no_mangle)]
pub extern "C" fn ph_boundaries(
    novelty: &[f64],
    length: u64,
    rate: u32,
    max_sections: usize,
    rows: &mut [u32],
    work: &mut [f64],
    sections: &mut usize,
    count: &mut usize,
    confidence: &mut f64,
) -> u32
    ensures { PhBoundariesPromise novelty.now length rate max_sections
        rows.old work.old (sections_lent sections.old count.old confidence.old)
        result rows.new work.new (sections_lent sections.new count.new confidence.new) }
{
    let answer = sections::boundaries(novelty, length, rate, max_sections, rows, work);
    put_sections(answer, sections, count, confidence)
}

// `sections::boundary_times`, for C.
#[unsafe(no_mangle)]
pub extern "C" fn ph_boundary_times(rows: &[u32], length: u64, rate: u32, ms: &mut [f64]) -> u32
    ensures { BoundaryTimesPromise rows.now length rate ms.old result ms.new }
{
    number_of(&sections::boundary_times(rows, length, rate, ms))
}
