// The entry of a rank, without a sort: what a median needs.
//
// A value is guessed, and counts decide: where at most as many entries as the rank lie below it, and more lie up to it, it is the entry. So a
// guess promises nothing, and what finds one may be as quick as it likes. Of at most 24 entries the guess puts half in order. A longer list is
// narrowed first, to the entries between two values guessed from 24 of them. Where that keeps more than seven eighths one value is tried, which
// finds one that most entries have, and then the range of the keys is halved: 64 passes, whatever the entries are. The heap is for a guess that
// the counts refuse, as where NaNs stand.
ghost use Rattle.std.specs.Prelude.{◌<◌, ◌≤◌, ◌≡◌, length, get_or, take};
ghost use Rattle.std.specs.Float.{nan};
ghost use Rattle.median.specs.Median.{sort};
ghost use Rattle.median.specs.Ranks.{below};
ghost use Rattle.median.specs.Choice.{first_key, past_key, on_side, zero_at, Parted, Kept};

use crate::arrange;

// so many entries are looked at for a guess: a window of the threshold has 21
const FEW: usize = 24;

// so many slots hold the lower half of them and the one in the middle
const HALF: usize = 13;

// how far on either side of the wanted rank the two values are guessed, in entries of the 24: farther keeps more, nearer misses more often
const APART: usize = 3;

// the largest finite value, in slots that hold none yet
const TOP: f64 = 1.7976931348623157e308;

// the keys of the infinities
const LEAST_KEY: u64 = 0x000f_ffff_ffff_ffff;

const MOST_KEY: u64 = 0xfff0_0000_0000_0000;

// How many entries lie below one value, and how many up to another.
#[derive(Clone, Copy)]
struct Counts {
    low: usize,
    high: usize,
}

// Two values to narrow by.
#[derive(Clone, Copy)]
struct Fence {
    low: f64,
    high: f64,
}

// The side of a fence that has the wanted entry: 0 below it, 1 between its values, 2 above it. So many entries lie before it, and in it.
#[derive(Clone, Copy)]
struct Part {
    side: u32,
    before: usize,
    size: usize,
}

// The entry of rank h of the list a, once sorted. What a then holds is not said.
pub fn select(a: &mut [f64], h: usize) -> f64
    requires { h < length a.old }
    ensures { result ≡ get_or (sort a.old) h nan }
{
    let mut m = a.len();
    let mut rank = h;
    let mut apart = APART;
    // Kept as a while: how many entries are left depends on them.
    while FEW < m {
        let fence = fence_of(a, m, rank, apart);
        let low = fence.low;
        let high = fence.high;
        let part = part_of(a, m, rank, low, high);
        if part.side == 1 {
            if low == high {
                return settled(a, m, rank, low);
            }
        }
        if part.size <= m - m / 8 {
            m = keep(a, m, low, high, part.side);
            rank -= part.before;
            apart = APART;
        } else {
            if apart == 0 {
                let guess = by_halves(a, m, rank);
                return settled(a, m, rank, guess);
            }
            apart = 0;
        }
    }
    let guess = near_rank(a, m, rank);
    settled(a, m, rank, guess)
}

// Two values of the first m entries, guessed to stand apart from a rank by so many of the 24.
fn fence_of(a: &[f64], m: usize, rank: usize, apart: usize) -> Fence
    requires { (24 < m) × (m ≤ length a.now) × (rank < m) × (apart ≤ 3) }
{
    let spread = spread_of(a, m);
    let near = (rank * 12 / (m / 2)).min(FEW - 1);
    let low = near_rank(&spread, FEW, near.saturating_sub(apart));
    let high = near_rank(&spread, FEW, (near + apart).min(FEW - 1));
    Fence { low, high }
}

// Of the first m entries 24 from end to end, at distances that vary where there is room for it, since a list may repeat itself.
fn spread_of(a: &[f64], m: usize) -> [f64; 24]
    requires { (24 < m) × (m ≤ length a.now) }
{
    let mut spread = [TOP; FEW];
    let step = m / FEW;
    let rest = m % FEW;
    for i in 0..FEW {
        let at = i * step + i * rest / FEW + i * 37 % step;
        spread[i] = a[at];
    }
    spread
}

// A guess at the entry of rank h of the first m, which are at most 24: the smallest are put in order, without a branch, and from the far end on
// where that is nearer, so that half of them are enough.
fn near_rank(a: &[f64], m: usize, h: usize) -> f64
    requires { m ≤ length a.now }
{
    let mut sign = 1.0;
    let mut at = h;
    if HALF <= h {
        sign = -1.0;
        at = m.saturating_sub(1).saturating_sub(h);
    }
    let mut least = [TOP; HALF];
    for i in 0..m {
        least = with_value(least, sign * a[i]);
    }
    sign * least[at.min(HALF - 1)]
}

// Thirteen values in order with one more put among them, and the greatest left out. Each slot takes the middle of three, so that they are
// computed side by side.
fn with_value(least: [f64; 13], x: f64) -> [f64; 13] {
    let mut next = least;
    next[0] = lower(x, least[0]);
    for i in 1..HALF {
        next[i] = lower(higher(least[i - 1], x), least[i]);
    }
    next
}

fn lower(x: f64, y: f64) -> f64 {
    if x < y { x } else { y }
}

fn higher(x: f64, y: f64) -> f64 {
    if x < y { y } else { x }
}

// A guess at the entry of a rank of the first m by halving the range of the keys: 64 counts, whatever the entries are.
fn by_halves(a: &[f64], m: usize, rank: usize) -> f64
    requires { m ≤ length a.now }
{
    let mut bottom = LEAST_KEY;
    let mut top = MOST_KEY;
    // Kept as a while: a range is halved.
    while bottom < top {
        let middle = bottom + (top - bottom) / 2;
        let value = value_of(middle);
        let counts = counted(a, m, value, value);
        if rank < counts.high {
            top = middle;
        } else {
            bottom = middle + 1;
        }
    }
    value_of(bottom)
}

// The value that has a key.
fn value_of(key: u64) -> f64 {
    if key < 0x8000_0000_0000_0000 {
        return floats::bits::float_of(0xffff_ffff_ffff_ffff - key);
    }
    floats::bits::float_of(key - 0x8000_0000_0000_0000)
}

// The side of a fence that has the entry of a rank among the first m.
fn part_of(a: &[f64], m: usize, rank: usize, low: f64, high: f64) -> Part
    requires { (m ≤ length a.now) × (rank < m) }
    ensures { Parted (take m a.now) low high rank result.side result.before result.size }
{
    let counts = counted(a, m, low, high);
    let c = counts.low;
    let d = counts.high;
    if rank < c {
        return Part {
            side: 0,
            before: 0,
            size: c,
        };
    }
    if rank < d {
        return Part {
            side: 1,
            before: c,
            size: d - c,
        };
    }
    Part {
        side: 2,
        before: d,
        size: m - d,
    }
}

// How many of the first m entries lie below one value, and how many up to another.
fn counted(a: &[f64], m: usize, low: f64, high: f64) -> Counts
    requires { m ≤ length a.now }
    ensures { (result.low ≡ below (first_key low) (take m a.now)) × (result.high ≡ below (past_key high) (take m a.now)) }
{
    let mut c = 0;
    let mut d = 0;
    for i in 0..m {
        let x = a[i];
        if x < low {
            c += 1;
        }
        if x <= high {
            d += 1;
        }
    }
    Counts { low: c, high: d }
}

// Keeps, of the first m entries, those on one side of a fence, at the front in their order, and gives their number.
fn keep(a: &mut [f64], m: usize, low: f64, high: f64, side: u32) -> usize
    requires { m ≤ length a.old }
    ensures { Kept side low high m a.old result a.new }
{
    let mut n = 0;
    for i in 0..m {
        let x = a[i];
        a[n] = x;
        if on_side(x, low, high, side) {
            n += 1;
        }
    }
    n
}

// Whether x lies on a side of a fence: NaNs on the upper one, both zeros on the same.
fn on_side(x: f64, low: f64, high: f64, side: u32) -> bool
    ensures { result ≡ on_side side low high x }
{
    if side == 0 {
        return x < low;
    }
    if side == 1 {
        if x < low {
            return false;
        }
        return x <= high;
    }
    !(x <= high)
}

// The entry of a rank of the first m, which is guessed to have a given value: where the counts don't say so, the heap finds it.
fn settled(a: &mut [f64], m: usize, rank: usize, guess: f64) -> f64
    requires { (m ≤ length a.old) × (rank < m) }
    ensures { result ≡ get_or (sort (take m a.old)) rank nan }
{
    let part = part_of(a, m, rank, guess, guess);
    if part.side != 1 {
        return by_heap(&mut a[0..m], rank);
    }
    if guess == 0.0 {
        return zero_of(a, m, rank);
    }
    guess
}

// The zero of a rank of the first m entries: -0 stands before +0.
fn zero_of(a: &[f64], m: usize, rank: usize) -> f64
    requires { m ≤ length a.now }
    ensures { result ≡ zero_at rank (take m a.now) }
{
    let mut n = 0;
    for i in 0..m {
        if floats::bits::key_of(a[i]) < 0x8000_0000_0000_0000 {
            n += 1;
        }
    }
    if rank < n {
        return -0.0;
    }
    0.0
}

// The entry of rank h of the list a by the heap: n log n steps at worst.
fn by_heap(a: &mut [f64], h: usize) -> f64
    requires { h < length a.old }
    ensures { result ≡ get_or (sort a.old) h nan }
{
    arrange(a, h);
    a[h]
}
