// The rises of four rows over the rows before them, a part of each row at a time, and of one row.
//
// Document 01, Onsets: what crate flux sums. The positive parts of thirty-two bins come first, where no bin waits for another, then the sums. Inner
// calls: no caller of the library needs them.
#![tactic(auto)]

ghost use Rattle.std.specs.Prelude.{◌≡◌, true, ◌+◌, ◌-◌, ◌*◌, ◌≤◌, ◌<◌, length, get_or, drop};
ghost use Rattle.std.specs.Float.{nan};
ghost use Rattle.numbers.specs.Rounded.{positive_part, sum_from};
ghost use Rattle.numbers.specs.Limits.{magnitude_fine, slab_slots};
ghost use Rattle.numbers.specs.Lists.{tab, every};
ghost use Rattle.flux_rows.specs.Rises.{slab_row, rises, rise_at, part_bins, rise_part, rise_rest};

use numbers::Slab;

// Inner: as many bins of a row as are taken at a time.
pub const PART: usize = 32;

// Inner: magnitudes that were looked at: whole rows of the slab's shape, each value fine. Whoever makes one has looked; no call below looks again.
#[derive(Clone, Copy)]
pub struct Magnitudes<'a> {
    pub values: &'a [f32],
    pub slab: Slab,
    pub ghost whole: { length values.now ≡ slab_slots slab },
    pub ghost fine: { every magnitude_fine values.now ≡ true },
}

// Inner: the sums of four rows.
#[derive(Clone, Copy)]
pub struct Four {
    pub a: f64,
    pub b: f64,
    pub c: f64,
    pub d: f64,
}

// Inner: room for a part of a row.
pub fn part_room() -> [f64; PART]
    ensures { length result ≡ part_bins }
{
    [0.0; PART]
}

// Inner: adds bins from .. from+31 of rows t, t+apart, t+2·apart, t+3·apart to their four running sums; a to d are scratch.
pub fn rise_part(
    f: Four,
    m: Magnitudes<'_>,
    t: usize,
    apart: usize,
    from: usize,
    a: &mut [f64],
    b: &mut [f64],
    c: &mut [f64],
    d: &mut [f64],
) -> Four
    requires le_t { (1 ≤ t) × (t + 3 * apart < m.slab.rows) × (from + part_bins ≤ m.slab.bins) }
    requires a_len { (length a.old ≡ part_bins) × (length b.old ≡ part_bins) × (length c.old ≡ part_bins) × (length d.old ≡ part_bins) }
    ensures { (result.a ≡ sum_from f.a (rise_part m.entry.values.now m.entry.slab t from))
        × (result.b ≡ sum_from f.b (rise_part m.entry.values.now m.entry.slab (t + apart) from))
        × (result.c ≡ sum_from f.c (rise_part m.entry.values.now m.entry.slab (t + 2 * apart) from))
        × (result.d ≡ sum_from f.d (rise_part m.entry.values.now m.entry.slab (t + 3 * apart) from)) }
{
    lift_at(m, t, from, a);
    lift_at(m, t + apart, from, b);
    lift_at(m, t + 2 * apart, from, c);
    lift_at(m, t + 3 * apart, from, d);
    add_parts(f, a, b, c, d)
}

// Inner: the sums of four rows, so many rows apart, that run on from bin `from` to the end.
pub fn rise_rest(f: Four, m: Magnitudes<'_>, t: usize, apart: usize, from: usize) -> Four
    requires { (1 ≤ t) × (t + 3 * apart < m.slab.rows) × (from ≤ m.slab.bins) }
    ensures { (result.a ≡ sum_from f.a (rise_rest m.entry.values.now m.entry.slab t from))
        × (result.b ≡ sum_from f.b (rise_rest m.entry.values.now m.entry.slab (t + apart) from))
        × (result.c ≡ sum_from f.c (rise_rest m.entry.values.now m.entry.slab (t + 2 * apart) from))
        × (result.d ≡ sum_from f.d (rise_rest m.entry.values.now m.entry.slab (t + 3 * apart) from)) }
{
    Four {
        a: rise_at(m, t, from, f.a),
        b: rise_at(m, t + apart, from, f.b),
        c: rise_at(m, t + 2 * apart, from, f.c),
        d: rise_at(m, t + 3 * apart, from, f.d),
    }
}

// Inner: the sum of row t over the row before it, run on from bin `from`.
pub fn rise_at(m: Magnitudes<'_>, t: usize, from: usize, sum: f64) -> f64
    requires { (1 ≤ t) × (t < m.slab.rows) × (from ≤ m.slab.bins) }
    ensures { result ≡ sum_from sum (rise_rest m.entry.values.now m.entry.slab t from) }
{
    let prev = row_at(m, t - 1);
    let cur = row_at(m, t);
    rise(prev, cur, from, sum)
}

// The sum of a row over the row before it, run on from bin `from`.
fn rise(prev: &[f32], cur: &[f32], from: usize, sum: f64) -> f64
    requires cur_len { length cur.now ≡ length prev.now }
    requires prev_value { (every magnitude_fine prev.now ≡ true) × (every magnitude_fine cur.now ≡ true) }
    requires from_in_bounds { from ≤ length prev.now }
    ensures { result ≡ sum_from sum (rises (drop from prev.now) (drop from cur.now)) }
{
    let mut total = sum;
    for i in from..prev.len() {
        total = total + positive_part(wide(cur, i) - wide(prev, i));
    }
    total
}

// The positive parts of row t over the row before it, from bin `from` on.
fn lift_at(m: Magnitudes<'_>, t: usize, from: usize, part: &mut [f64])
    requires { (1 ≤ t) × (t < m.slab.rows) × (from + length part.old ≤ m.slab.bins) }
    ensures { part.new ≡
        tab (rise_at (slab_row m.entry.values.now m.entry.slab (t - 1)) (slab_row m.entry.values.now m.entry.slab t)) from (length part.old) }
{
    let prev = row_at(m, t - 1);
    let cur = row_at(m, t);
    lift(prev, cur, from, part);
}

// The positive parts of a row over the row before it, for as many bins as there are slots, from bin `from` on. No bin waits for another here.
fn lift(prev: &[f32], cur: &[f32], from: usize, part: &mut [f64])
    requires cur_len { length cur.now ≡ length prev.now }
    requires prev_value { (every magnitude_fine prev.now ≡ true) × (every magnitude_fine cur.now ≡ true) }
    requires part_in_bounds { from + length part.old ≤ length prev.now }
    ensures { part.new ≡ tab (rise_at prev.now cur.now) from (length part.old) }
{
    for k in 0..part.len() {
        part[k] = positive_part(wide(cur, from + k) - wide(prev, from + k));
    }
}

// Four sums that run on, each over its own slots.
fn add_parts(f: Four, a: &[f64], b: &[f64], c: &[f64], d: &[f64]) -> Four
    requires { (length b.now ≡ length a.now) × (length c.now ≡ length a.now) × (length d.now ≡ length a.now) }
    ensures { (result.a ≡ sum_from f.a a.now)
        × (result.b ≡ sum_from f.b b.now)
        × (result.c ≡ sum_from f.c c.now)
        × (result.d ≡ sum_from f.d d.now) }
{
    let mut sums = f;
    for k in 0..a.len() {
        sums = Four {
            a: sums.a + a[k],
            b: sums.b + b[k],
            c: sums.c + c[k],
            d: sums.d + d[k],
        };
    }
    sums
}

// Row t, by the frame reader.
fn row_at<'a>(m: Magnitudes<'a>, t: usize) -> &'a [f32]
    requires { t < m.slab.rows }
    ensures { result.now ≡ slab_row m.entry.values.now m.entry.slab t }
{
    frames::row_of(m.values, m.slab.bins, t)
}

fn positive_part(x: f64) -> f64
    ensures { result ≡ positive_part x }
{
    if x > 0.0 { x } else { 0.0 }
}

fn wide(s: &[f32], i: usize) -> f64
    requires { (i < length s.now) × (every magnitude_fine s.now ≡ true) }
    ensures { result ≡ get_or s.now i nan }
{
    s[i] as f64
}
