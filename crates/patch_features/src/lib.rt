// A repair of a track's features: some feature rows are replaced, and the similarity and novelty curves are mended where that can
// change them.
//
// Document 01, Patching (added). The curves are then, bit for bit, those of a full run on the edited rows: proofs/Repairs.antt.
#![tactic(auto)]

ghost use Rattle.std.specs.Prelude.{◌||◌, ◌≡◌, ◌+◌, ◌-◌, ◌*◌, ◌^◌, ◌≤◌, ◌<◌, length};
ghost use Rattle.numbers.specs.Refusals.{number_of};
ghost use Rattle.numbers.specs.Limits.{most_features, feature_width};
ghost use Rattle.numbers.specs.Lists.{filled};
ghost use Rattle.numbers.specs.Rounded.{pick};
ghost use Rattle.patches.specs.Patches.{patch_of};
ghost use Rattle.row_pairs.specs.Pairs.{band_width, similarity_at};
ghost use Rattle.patch_features.specs.Features.{feature_track, first_pair, replaced, touched, mended_at};
ghost use Rattle.patch_features.specs.Features.{feature_patch_bounds, feature_patch_room, feature_patch_values, feature_patch_number, PatchFeaturesPromise};

use numbers::Refusal;
use similarities::BAND_WIDTH;

// how many rows after its own a similarity reaches
const BAND: usize = 16;
// how many rows a novelty reaches back, and on
const BACK: usize = 8;

const ON: usize = 7;

// What a patch did: the slots that it wrote of each curve, first and past-last. Of the similarity's slots it wrote those of pairs that touch a
// replaced row.
#[derive(Clone, Copy)]
pub struct PatchedFeatures {
    pub similarity_first: usize,
    pub similarity_past: usize,
    pub novelty_first: usize,
    pub novelty_past: usize,
}

// Replaces rows a = start up to b by the new ones, then writes the similarity of each pair that touches one of them and novelty slots a - 7
// to b + 7, cut at the ends, and names the slots. Room: 17 rows slots of similarity, rows of novelty. Refuses: 1 rows above 50,000 or start
// above rows; 2 features that aren't 16 rows, new ones that aren't whole rows or run past the end; 3 a curve below its room; 4 a feature, old
// or new, or one of novelty's first rows values not finite or of size above 2^150, one of similarity's first 17 rows values outside -1 to 1.
// A refusal and an empty patch change nothing; slots past the curves stay.
pub fn patch_features(
    features: &mut [f64],
    rows: usize,
    start: usize,
    new: &[f64],
    similarity: &mut [f64],
    novelty: &mut [f64],
) -> Result<PatchedFeatures, Refusal>
    ensures { PatchFeaturesPromise rows
        (feature_track features.old similarity.old novelty.old) (patch_of start new.now)
        result (feature_track features.new similarity.new novelty.new) }
{
    refusal(features, rows, start, new, similarity, novelty)?;
    if new.len() == 0 {
        return Ok(PatchedFeatures {
            similarity_first: 0,
            similarity_past: 0,
            novelty_first: 0,
            novelty_past: 0,
        });
    }
    patches::put_over(features, start * numbers::FEATURE_WIDTH, new);
    let past = start + new.len() / numbers::FEATURE_WIDTH;
    let similarity_first = first_pair(start);
    let similarity_past = past * BAND_WIDTH;
    mend_similarity(features, rows, start, past, similarity);
    let novelty_first = start.saturating_sub(ON);
    let novelty_past = (past + BACK).min(rows);
    let pairs = rows * BAND_WIDTH;
    novelties::fill_novelty(
        &similarity[0..pairs],
        rows,
        novelty_first,
        novelty_past,
        novelty,
    );
    Ok(PatchedFeatures {
        similarity_first,
        similarity_past,
        novelty_first,
        novelty_past,
    })
}

// the slot of the first pair that touches row `start`
fn first_pair(start: usize) -> usize
    requires { start ≤ most_features }
    ensures { result ≡ first_pair start }
{
    start.saturating_sub(BAND) * BAND_WIDTH + start.min(BAND)
}

// Writes the pairs that touch rows start up to past: those of rows before them slot by slot, as only some touch, and their own rows whole.
fn mend_similarity(features: &[f64], rows: usize, start: usize, past: usize, similarity: &mut [f64])
    requires { (length features.now ≡ rows * feature_width)
        × (rows ≤ most_features)
        × (start ≤ past)
        × (past ≤ rows)
        × (rows * band_width ≤ length similarity.old) }
    ensures { similarity.new
        ≡ filled (mended_at features.now rows start past similarity.old) similarity.old (first_pair start) (past * band_width) }
{
    mend_before(features, rows, start, past, first_pair(start), similarity);
    similarities::fill_similarity_rows(features, rows, start, past, similarity);
}

fn mend_before(
    features: &[f64],
    rows: usize,
    start: usize,
    past: usize,
    from: usize,
    similarity: &mut [f64],
)
    requires { (length features.now ≡ rows * feature_width)
        × (rows ≤ most_features)
        × (from ≤ start * band_width)
        × (start ≤ rows)
        × (rows * band_width ≤ length similarity.old) }
    ensures { similarity.new
        ≡ filled (mended_at features.now rows start past similarity.old) similarity.old from (start * band_width) }
{
    let to = start * BAND_WIDTH;
    for k in from..to {
        similarity[k] = mended_slot(features, rows, start, past, k, similarity[k]);
    }
}

fn mended_slot(features: &[f64], rows: usize, start: usize, past: usize, k: usize, lent: f64) -> f64
    requires { (length features.now ≡ rows * feature_width) × (k < rows * band_width) }
    ensures { result ≡ pick (touched start past k) (similarity_at features.now rows k) lent }
{
    let i = k / BAND_WIDTH;
    let d = k % BAND_WIDTH;
    if is_touched(start, past, i, d) {
        return row_pairs::similarity_slot(features, rows, i, d);
    }
    lent
}

fn is_touched(start: usize, past: usize, i: usize, d: usize) -> bool
    requires { i + d < 2 ^ 64 }
    ensures { result ≡ (replaced start past i || replaced start past (i + d)) }
{
    is_replaced(start, past, i) || is_replaced(start, past, i + d)
}

fn is_replaced(start: usize, past: usize, i: usize) -> bool
    ensures { result ≡ replaced start past i }
{
    start <= i && i < past
}

fn refusal(
    features: &[f64],
    rows: usize,
    start: usize,
    new: &[f64],
    similarity: &[f64],
    novelty: &[f64],
) -> Result<(), Refusal>
    ensures { number_of result ≡ feature_patch_number rows (feature_track features.now similarity.now novelty.now) (patch_of start new.now) }
{
    if !bounds_fine(rows, start) {
        return Err(Refusal::OutOfBounds);
    }
    if !patches::whole_rows(
        features.len(),
        rows,
        numbers::FEATURE_WIDTH,
        start,
        new.len(),
    ) {
        return Err(Refusal::WrongLength);
    }
    if !room_fine(rows, similarity.len(), novelty.len()) {
        return Err(Refusal::TooLittleRoom);
    }
    if !values_fine(features, rows, new, similarity, novelty) {
        return Err(Refusal::WrongValue);
    }
    Ok(())
}

fn bounds_fine(rows: usize, start: usize) -> bool
    ensures { result ≡ feature_patch_bounds rows start }
{
    rows <= numbers::MOST_FEATURES && start <= rows
}

fn room_fine(rows: usize, similarity: usize, novelty: usize) -> bool
    requires { rows ≤ most_features }
    ensures { result ≡ feature_patch_room rows similarity novelty }
{
    rows * BAND_WIDTH <= similarity && rows <= novelty
}

fn values_fine(
    features: &[f64],
    rows: usize,
    new: &[f64],
    similarity: &[f64],
    novelty: &[f64],
) -> bool
    requires { (rows ≤ most_features) × (rows * band_width ≤ length similarity.now) × (rows ≤ length novelty.now) }
    ensures { result
        ≡ feature_patch_values rows (feature_track features.now similarity.now novelty.now) new.now }
{
    if !numbers::values_fine(features) {
        return false;
    }
    if !numbers::values_fine(new) {
        return false;
    }
    let pairs = rows * BAND_WIDTH;
    if !numbers::similarities_fine(&similarity[0..pairs]) {
        return false;
    }
    numbers::values_fine(&novelty[0..rows])
}
