// Novelty: where the rows before a row are alike, the rows after it are alike, and the two sides differ.
//
// Document 01, Sections. The Rust: structure.rs `novelty_curve`.
#![tactic(auto)]

ghost use Rattle.std.specs.Prelude.{◌≡◌, ℕ, ◌+◌, ◌-◌, ◌*◌, ◌^◌, ◌≤◌, ◌<◌, min, max, length, get_or};
ghost use Rattle.std.specs.Float.{nan};
ghost use Rattle.numbers.specs.Refusals.{number_of};
ghost use Rattle.numbers.specs.Lists.{filled};
ghost use Rattle.kernels.specs.Kernel.{places, middle, kernel_table};
ghost use Rattle.row_pairs.specs.Pairs.{band_width};
ghost use Rattle.novelties.specs.Novelty.{slot_of, add_term, add_row, novelty_at, novelty_number, NoveltyPromise};
ghost use Rattle.novelties.specs.Lanes.{lane_count, span, stride, near_room, near_slot, laid_apart, Gathered, lane_term, lane_row, lane_whole, lane_from};

use kernels::kernel;
use numbers::{MOST_FEATURES, Refusal, similarities_fine};
use similarities::BAND_WIDTH;

// places of the kernel's table: offsets -8 to 7 from a row
const PLACES: usize = 16;
// the place of offset 0, and how many rows a kernel takes in before its own
const MIDDLE: usize = 8;
// how many it takes in after its own
const ON: usize = 7;
// Rows go in blocks, one to a lane: as many as three vectors of eight hold.
const LANES: usize = 24;
// rows from a block's first to the last that its kernels take in
const REST: usize = 31;
// all rows that they take in
const SPAN: usize = 39;
// slots from the similarities of one distance to those of the next: whole vectors
const STRIDE: usize = 40;

// what novelty refuses
fn refusal(similarity: &[f64], rows: usize, room: usize) -> Result<(), Refusal>
    ensures { number_of result ≡ novelty_number similarity.now rows room }
{
    if rows > MOST_FEATURES {
        return Err(Refusal::OutOfBounds);
    }
    if similarity.len() != rows * BAND_WIDTH {
        return Err(Refusal::WrongLength);
    }
    if room < rows {
        return Err(Refusal::TooLittleRoom);
    }
    if !similarities_fine(similarity) {
        return Err(Refusal::WrongValue);
    }
    Ok(())
}

// Writes novelty[0..rows] from a similarity of rows * 17 slots; slots past rows stay.
// Refuses 1 to 4 and then writes nothing: 1 for more than 50,000 rows, 2 for another length of the similarity, 3 for fewer than rows slots of
// novelty, 4 for a similarity that isn't within -1 to 1.
pub fn novelty(similarity: &[f64], rows: usize, novelty: &mut [f64]) -> Result<(), Refusal>
    ensures { NoveltyPromise similarity.now rows novelty.old (number_of result) novelty.new }
{
    refusal(similarity, rows, novelty.len())?;
    fill_novelty(similarity, rows, 0, rows, novelty);
    Ok(())
}

// the slot of the pair of rows a and b
fn slot_of(a: usize, b: usize) -> usize
    requires { (a * band_width + b < 2 ^ 64) × (b * band_width + a < 2 ^ 64) }
    ensures { result ≡ slot_of a b }
{
    if a <= b {
        a * BAND_WIDTH + (b - a)
    } else {
        b * BAND_WIDTH + (a - b)
    }
}

// the term of places u and v around row i, where both rows lie inside
fn add_term(
    table: &[[f64; 16]; 16],
    similarity: &[f64],
    rows: usize,
    i: usize,
    u: usize,
    v: usize,
    sum: f64,
) -> f64
    requires { (table.now ≡ kernel_table)
        × (length similarity.now ≡ rows * band_width)
        × (u < places)
        × (v < places)
        × (middle ≤ i + u)
        × (i + u < rows + middle)
        × (middle ≤ i + v)
        × (i + v < rows + middle) }
    ensures { result ≡ add_term similarity.now rows i u v sum }
{
    let k = slot_of(i + u - MIDDLE, i + v - MIDDLE);
    sum + table[u][v] * similarity[k]
}

// the terms of place u, v ascending; the rows inside stand at the places from low up to past
fn add_row(
    table: &[[f64; 16]; 16],
    similarity: &[f64],
    rows: usize,
    i: usize,
    low: usize,
    past: usize,
    u: usize,
    sum: f64,
) -> f64
    requires { (table.now ≡ kernel_table)
        × (length similarity.now ≡ rows * band_width)
        × (i < rows)
        × (low ≡ middle - i)
        × (past ≡ min places (rows + middle - i))
        × (low ≤ u)
        × (u < past) }
    ensures { result ≡ add_row similarity.now rows i u sum }
{
    let mut total = sum;
    for v in low..past {
        total = add_term(table, similarity, rows, i, u, v, total);
    }
    total
}

// Inner: the novelty of row i, wherever it lies, by the table that `kernels::kernel` gives. For a caller that writes it itself, as where similarity and
// novelty lie in one slice and can't be lent apart.
pub fn novelty_slot(table: &[[f64; 16]; 16], similarity: &[f64], rows: usize, i: usize) -> f64
    requires { (table.now ≡ kernel_table) × (length similarity.now ≡ rows * band_width) × (i < rows) }
    ensures { result ≡ novelty_at similarity.now rows i }
{
    let low = MIDDLE.saturating_sub(i);
    let past = PLACES.min(rows + MIDDLE - i);
    let mut total = 0.0;
    for u in low..past {
        total = add_row(table, similarity, rows, i, low, past, u, total);
    }
    total
}

// slot by slot: near the ends, and all where fewer than a block lie inside
fn fill_plain(
    table: &[[f64; 16]; 16],
    similarity: &[f64],
    rows: usize,
    from: usize,
    past: usize,
    novelty: &mut [f64],
)
    requires { (table.now ≡ kernel_table)
        × (length similarity.now ≡ rows * band_width)
        × (from ≤ past)
        × (past ≤ rows)
        × (past ≤ length novelty.old) }
    ensures { novelty.new ≡ filled (novelty_at similarity.now rows) novelty.old from past }
{
    for i in from..past {
        novelty[i] = novelty_slot(table, similarity, rows, i);
    }
}

// The similarities of the rows that a block's kernels take in are laid side by side, those of rows d apart from slot d * 40 on; the first of these rows
// has its similarities from slot `first` on.
fn gather_apart(similarity: &[f64], first: usize, d: usize, near: &mut [f64; 640])
    requires { (d < places) × (first + d + band_width * (span - 1) < length similarity.now) × (length near.old ≡ near_room) }
    ensures { near.new ≡ filled (laid_apart similarity.now first d) near.old (d * stride) (d * stride + span) }
{
    for r in 0..SPAN {
        near[d * STRIDE + r] = similarity[first + d + BAND_WIDTH * r];
    }
}

// Inner: the similarities of the rows that a block's kernels take in, the first of which is `row`: all that its novelty is made of. Then `block_slots`
// needs the slice no more.
pub fn gather(similarity: &[f64], row: usize, near: &mut [f64; 640])
    requires { (row * band_width + (places - 1) + band_width * (span - 1) < length similarity.now) × (length near.old ≡ near_room) }
    ensures { Gathered similarity.now (row * band_width) places near.new }
{
    let first = row * BAND_WIDTH;
    for d in 0..PLACES {
        gather_apart(similarity, first, d, near);
    }
}

// the slot of places u and v among those gathered
fn near_slot(u: usize, v: usize) -> usize
    requires { (u < places) × (v < places) }
    ensures { result ≡ near_slot u v }
{
    if u <= v {
        (v - u) * STRIDE + u
    } else {
        (u - v) * STRIDE + v
    }
}

// A block's rows side by side, one to a lane: each lane's sum grows by the weight times its own row's similarity, which stands one slot after that of
// the lane before.
fn add_lanes(lanes: &mut [f64; 24], weight: f64, near: &[f64; 640], k: usize)
    requires { (length lanes.old ≡ lane_count) × (k + lane_count ≤ near_room) }
    ensures { lanes.new ≡ filled (lane_term lanes.old weight near.now k) lanes.old 0 lane_count }
{
    for j in 0..LANES {
        lanes[j] = lanes[j] + weight * near[k + j];
    }
}

// the terms of place u, v ascending, in each lane
fn add_row_lanes(table: &[[f64; 16]; 16], near: &[f64; 640], u: usize, lanes: &mut [f64; 24])
    requires { (table.now ≡ kernel_table) × (u < places) × (length lanes.old ≡ lane_count) }
    ensures { lanes.new ≡ filled (lane_row lanes.old near.now u) lanes.old 0 lane_count }
{
    for v in 0..PLACES {
        add_lanes(lanes, table[u][v], near, near_slot(u, v));
    }
}

// Inner: the novelty of a block's rows from what was gathered for them (`lane-novelty`, proofs/Lanes).
pub fn block_slots(table: &[[f64; 16]; 16], near: &[f64; 640]) -> [f64; 24]
    requires { table.now ≡ kernel_table }
    ensures { (j : ℕ) → j < lane_count → get_or result j nan ≡ lane_whole near.now j }
{
    let mut lanes = [0.0; 24];
    for u in 0..PLACES {
        add_row_lanes(table, near, u, &mut lanes);
    }
    lanes
}

// the slots from `from` up to `past` of a block whose first row is `first`
fn put_part(values: &[f64; 24], first: usize, from: usize, past: usize, novelty: &mut [f64])
    requires { (first ≤ from) × (from ≤ past) × (past ≤ first + lane_count) × (past ≤ length novelty.old) }
    ensures { novelty.new ≡ filled (lane_from values.now first) novelty.old from past }
{
    for k in from..past {
        novelty[k] = values[k - first];
    }
}

// Rows whose kernel lies inside go in blocks: each sum keeps its own order, and the compiler runs a block's sums side by side. A block may begin before
// the rows that are left and end after them: only theirs are written.
fn fill_blocks(
    table: &[[f64; 16]; 16],
    similarity: &[f64],
    rows: usize,
    from: usize,
    past: usize,
    novelty: &mut [f64],
)
    requires { (table.now ≡ kernel_table)
        × (length similarity.now ≡ rows * band_width)
        × (span ≤ rows)
        × (min middle past ≤ from)
        × (from ≤ past)
        × (past ≤ max from (rows - (places - 1 - middle)))
        × (past ≤ length novelty.old) }
    ensures { novelty.new ≡ filled (novelty_at similarity.now rows) novelty.old from past }
{
    let mut near = [0.0; 640];
    let mut i = from;
    // Kept as a while: the last block begins where it still fits, so the places of blocks are no range.
    while i < past {
        let first = i.min(rows - REST);
        let end = (first + LANES).min(past);
        gather(similarity, first - MIDDLE, &mut near);
        let values = block_slots(table, &near);
        put_part(&values, first, i, end, novelty);
        i = end;
    }
}

// Inner: writes slots from `from` up to `past` of the novelty curve of a similarity of `rows` rows.
pub fn fill_novelty(similarity: &[f64], rows: usize, from: usize, past: usize, novelty: &mut [f64])
    requires { (length similarity.now ≡ rows * band_width) × (from ≤ past) × (past ≤ rows) × (past ≤ length novelty.old) }
    ensures { novelty.new ≡ filled (novelty_at similarity.now rows) novelty.old from past }
{
    let table = kernel();
    if rows < SPAN {
        fill_plain(&table, similarity, rows, from, past, novelty);
        return;
    }
    let start = from.max(MIDDLE).min(past);
    let stop = start.max(past.min(rows - ON));
    fill_plain(&table, similarity, rows, from, start, novelty);
    fill_blocks(&table, similarity, rows, start, stop, novelty);
    fill_plain(&table, similarity, rows, stop, past, novelty);
}
