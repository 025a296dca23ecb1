// Similarity: how alike two rows of features are, for rows at most sixteen apart.
//
// Document 01, Sections. The Rust: structure.rs `BandedSimilarity`.
#![tactic(auto)]

ghost use Rattle.std.specs.Prelude.{◌≡◌, ℕ, ◌+◌, ◌-◌, ◌*◌, ◌≤◌, ◌<◌, min, length, get_or};
ghost use Rattle.std.specs.Float.{nan};
ghost use Rattle.numbers.specs.Refusals.{number_of};
ghost use Rattle.numbers.specs.Limits.{feature_width};
ghost use Rattle.numbers.specs.Lists.{filled};
ghost use Rattle.row_pairs.specs.Pairs.{band_width, dot_of, similarity_at};
ghost use Rattle.similarities.specs.Similarity.{similarity_number, SimilarityPromise};
ghost use Rattle.similarities.specs.Lanes.{columns, own_columns, turned_room, turned_at, turned_column, square_at, root_at, Block};
ghost use Rattle.similarities.specs.Lanes.{lane_product, lane_quotient, settled_from};

use numbers::{FEATURE_WIDTH, MOST_FEATURES, Refusal, values_fine};
use roots::{guess_root, sqrt_from};
use row_pairs::{dot, feature_row, settle};

// slots of a row of the similarity: the row with itself, and with the sixteen rows after it
pub const BAND_WIDTH: usize = 17;

// rows of a block, turned so that one value of neighbouring rows lies side by side
const COLUMNS: usize = 128;
// those of them whose slots are written: each has the sixteen rows after it in the block
const OWN_COLUMNS: usize = 112;

// what similarity refuses
fn refusal(features: &[f64], rows: usize, room: usize) -> Result<(), Refusal>
    ensures { number_of result ≡ similarity_number features.now rows room }
{
    if rows > MOST_FEATURES {
        return Err(Refusal::OutOfBounds);
    }
    if features.len() != rows * FEATURE_WIDTH {
        return Err(Refusal::WrongLength);
    }
    if room < rows * BAND_WIDTH {
        return Err(Refusal::TooLittleRoom);
    }
    if !values_fine(features) {
        return Err(Refusal::WrongValue);
    }
    Ok(())
}

// Writes similarity[0..rows * 17] from rows of sixteen feature values: slot i * 17 + d is how alike rows i and i + d are, from -1 to 1. Later slots stay.
// Refuses 1 to 4 and then writes nothing: 1 for more than 50,000 rows, 2 for a length of the features other than rows * 16, 3 for fewer than
// rows * 17 slots of similarity, 4 for a feature value that isn't finite or has size above 2^150.
pub fn similarity(features: &[f64], rows: usize, similarity: &mut [f64]) -> Result<(), Refusal>
    ensures { SimilarityPromise features.now rows similarity.old (number_of result) similarity.new }
{
    refusal(features, rows, similarity.len())?;
    fill_similarity_rows(features, rows, 0, rows, similarity);
    Ok(())
}

// Value k of rows first to first + count - 1, side by side: that of row first + r stands at k * 128 + r.
fn turn_value(
    features: &[f64],
    rows: usize,
    first: usize,
    count: usize,
    k: usize,
    turned: &mut [f64; 2048],
)
    requires { (length features.now ≡ rows * feature_width)
        × (first + count ≤ rows)
        × (count ≤ columns)
        × (k < feature_width)
        × (length turned.old ≡ turned_room) }
    ensures { turned.new ≡ filled (turned_at features.now first) turned.old (k * columns) (k * columns + count) }
{
    for r in 0..count {
        turned[k * COLUMNS + r] = features[(first + r) * FEATURE_WIDTH + k];
    }
}

// all sixteen values
fn turn(features: &[f64], rows: usize, first: usize, count: usize, turned: &mut [f64; 2048])
    requires { (length features.now ≡ rows * feature_width)
        × (first + count ≤ rows)
        × (count ≤ columns)
        × (length turned.old ≡ turned_room) }
    ensures { (r k : ℕ) → r < count → k < feature_width
        → get_or turned.new (k * columns + r) nan ≡ get_or features.now ((first + r) * feature_width + k) nan }
{
    for k in 0..FEATURE_WIDTH {
        turn_value(features, rows, first, count, k, turned);
    }
}

// the sums of the rows' squares
fn square_rows(features: &[f64], rows: usize, first: usize, count: usize, squares: &mut [f64; 128])
    requires { (length features.now ≡ rows * feature_width)
        × (first + count ≤ rows)
        × (count ≤ columns)
        × (length squares.old ≡ columns) }
    ensures { squares.new ≡ filled (square_at features.now first) squares.old 0 count }
{
    for r in 0..count {
        let row = feature_row(features, rows, first + r);
        squares[r] = dot(row, row);
    }
}

// guesses at the norms, in a loop of their own: the compiler runs it on several lanes
fn guess_all(squares: &[f64; 128], guesses: &mut [u64; 128])
    requires { length guesses.old ≡ columns }
    ensures { length guesses.new ≡ columns }
{
    for r in 0..COLUMNS {
        guesses[r] = guess_root(squares[r]);
    }
}

// the norms
fn root_all(squares: &[f64; 128], norms: &mut [f64; 128])
    requires { length norms.old ≡ columns }
    ensures { norms.new ≡ filled (root_at squares.now) norms.old 0 columns }
{
    let mut guesses = [0u64; 128];
    guess_all(squares, &mut guesses);
    for r in 0..COLUMNS {
        norms[r] = sqrt_from(squares[r], guesses[r]);
    }
}

// Sixteen sums of products at once, in lanes 1 to 16: lane j is that with the row j columns on. Each keeps its own order.
fn add_products(sums: &mut [f64; 17], x: f64, turned: &[f64; 2048], at: usize)
    requires { (length sums.old ≡ band_width) × (at + feature_width < turned_room) }
    ensures { sums.new ≡ filled (lane_product sums.old x turned.now at) sums.old 1 band_width }
{
    for j in 1..BAND_WIDTH {
        sums[j] = sums[j] + x * turned[at + j];
    }
}

// the dot products of the block's row in column c with itself, which is `own`, and with the sixteen rows after it
fn row_dots(row: &[f64], turned: &[f64; 2048], c: usize, own: f64) -> [f64; 17]
    requires { (length row.now ≡ feature_width) × (c < own_columns) }
    ensures { (length result ≡ band_width)
        × (get_or result 0 nan ≡ own)
        × ((d : ℕ) → 0 < d → d < band_width → get_or result d nan ≡ dot_of row.now (turned_column turned.now (c + d))) }
{
    let mut sums = [0.0; 17];
    for k in 0..FEATURE_WIDTH {
        add_products(&mut sums, row[k], turned, k * COLUMNS + c);
    }
    sums[0] = own;
    sums
}

// The divisions in a loop of their own, apart from the choices that settle them: the compiler then runs both on several lanes.
fn divide(sums: &mut [f64; 17], norms: &[f64; 128], c: usize)
    requires { (length sums.old ≡ band_width) × (c < own_columns) }
    ensures { sums.new ≡ filled (lane_quotient sums.old norms.now c) sums.old 0 band_width }
{
    let norm = norms[c];
    for d in 0..BAND_WIDTH {
        sums[d] = sums[d] / (norm * norms[c + d]);
    }
}

// the lanes, settled, to slots at to at + 16
fn put_row(quotients: &[f64; 17], norms: &[f64; 128], c: usize, at: usize, similarity: &mut [f64])
    requires { (c < own_columns) × (at + band_width ≤ length similarity.old) }
    ensures { similarity.new
        ≡ filled (settled_from quotients.now norms.now c at) similarity.old at (at + band_width) }
{
    let norm = norms[c];
    for d in 0..BAND_WIDTH {
        similarity[at + d] = settle(quotients[d], norm, norms[c + d]);
    }
}

// the seventeen slots of row i, which is the block's row in column i - first
fn put_slots(
    features: &[f64],
    rows: usize,
    first: usize,
    i: usize,
    turned: &[f64; 2048],
    squares: &[f64; 128],
    norms: &[f64; 128],
    similarity: &mut [f64],
)
    requires { (length features.now ≡ rows * feature_width)
        × (first ≤ i)
        × (i < rows)
        × (i < first + own_columns)
        × (i * band_width + band_width ≤ length similarity.old)
        × Block features.now first (min columns (rows - first)) turned.now squares.now norms.now }
    ensures { similarity.new
        ≡ filled (similarity_at features.now rows) similarity.old (i * band_width) (i * band_width + band_width) }
{
    let c = i - first;
    let mut sums = row_dots(feature_row(features, rows, i), turned, c, squares[c]);
    divide(&mut sums, norms, c);
    put_row(&sums, norms, c, i * BAND_WIDTH, similarity);
}

// the slots of rows first to past - 1 of a block
fn put_block(
    features: &[f64],
    rows: usize,
    first: usize,
    past: usize,
    turned: &[f64; 2048],
    squares: &[f64; 128],
    norms: &[f64; 128],
    similarity: &mut [f64],
)
    requires { (length features.now ≡ rows * feature_width)
        × (first ≤ past)
        × (past ≤ rows)
        × (past ≤ first + own_columns)
        × (past * band_width ≤ length similarity.old)
        × Block features.now first (min columns (rows - first)) turned.now squares.now norms.now }
    ensures { similarity.new
        ≡ filled (similarity_at features.now rows) similarity.old (first * band_width) (past * band_width) }
{
    for i in first..past {
        put_slots(features, rows, first, i, turned, squares, norms, similarity);
    }
}

// The slots of rows first to past - 1, at most 112. These and the sixteen rows after them make a block: turned, with each norm taken once.
fn fill_block(features: &[f64], rows: usize, first: usize, past: usize, similarity: &mut [f64])
    requires { (length features.now ≡ rows * feature_width)
        × (first ≤ past)
        × (past ≤ rows)
        × (past ≤ first + own_columns)
        × (past * band_width ≤ length similarity.old) }
    ensures { similarity.new
        ≡ filled (similarity_at features.now rows) similarity.old (first * band_width) (past * band_width) }
{
    let count = COLUMNS.min(rows - first);
    let mut turned = [0.0; 2048];
    turn(features, rows, first, count, &mut turned);
    let mut squares = [0.0; 128];
    square_rows(features, rows, first, count, &mut squares);
    let mut norms = [0.0; 128];
    root_all(&squares, &mut norms);
    put_block(
        features, rows, first, past, &turned, &squares, &norms, similarity,
    );
}

// Inner: writes the slots of rows `from` to `past` - 1 of the similarity, a block of 112 rows at a time.
pub fn fill_similarity_rows(
    features: &[f64],
    rows: usize,
    from: usize,
    past: usize,
    similarity: &mut [f64],
)
    requires { (length features.now ≡ rows * feature_width) × (from ≤ past) × (past ≤ rows) × (past * band_width ≤ length similarity.old) }
    ensures { similarity.new
        ≡ filled (similarity_at features.now rows) similarity.old (from * band_width) (past * band_width) }
{
    let mut i = from;
    // Kept as a while: step_by's loop has a second end, where its count would overflow, to be proved again.
    while i < past {
        let next = (i + OWN_COLUMNS).min(past);
        fill_block(features, rows, i, next, similarity);
        i = next;
    }
}
