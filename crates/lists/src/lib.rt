// What is asked of a list: whether each entry is at most so much, whether it ascends, its sum and its mean, and which value is the first greatest; what
// refuses frames that are lent as a grid, and frames that are read one by one.
//
// docs/RULES.md, L7 (sums) and L11 (first greatest). Inner calls all: the crates above share them, and no caller of the library needs them.
#![tactic(auto)]

ghost use Rattle.std.specs.Prelude.{◌≡◌, ◌<◌, ◌≤◌, true, [], length};
ghost use Rattle.numbers.specs.Rounded.{real, sum_of};
ghost use Rattle.numbers.specs.Limits.{at_most};
ghost use Rattle.numbers.specs.Lists.{every, ascending};
ghost use Rattle.numbers.specs.Refusals.{number_of, first_of};
ghost use Rattle.lists.specs.Grids.{grid_rows, unread, next_read, missed, read_number};
ghost use Rattle.lists.specs.Greatest.{value_at, first_greatest};
ghost use Rattle.lists.specs.Means.{mean_of};

use numbers::Refusal;

// Inner: what is found of frames that are read one by one: whether each was a listed frame's, whether they strictly ascend, and the least that the next
// may be.
#[derive(Clone, Copy)]
pub struct Reading {
    pub listed: bool,
    pub rises: bool,
    pub low: u32,
}

// Inner: a value, and the place that has it.
#[derive(Clone, Copy)]
pub struct Best {
    pub value: f64,
    pub at: u32,
}

// Inner: whether each entry is at most so much.
pub fn all_at_most(list: &[u32], most: u32) -> bool
    ensures { result ≡ every (at_most most) list.now }
{
    for &x in list {
        if x > most {
            return false;
        }
    }
    true
}

// Inner: whether a list ascends strictly.
pub fn ascends(list: &[u32]) -> bool
    ensures { result ≡ ascending 0 list.now }
{
    let mut low: u64 = 0;
    for &x in list {
        let entry = x as u64;
        if entry < low {
            return false;
        }
        low = entry + 1;
    }
    true
}

// Inner: what refuses frames that a call is lent as a grid: 1 for one above the largest listed, then 11 where they don't strictly ascend.
pub fn grid_refusal(frames: &[u32]) -> Result<(), Refusal>
    ensures { number_of result ≡ first_of (grid_rows frames.now) }
{
    if !all_at_most(frames, numbers::MOST_FRAME) {
        return Err(Refusal::OutOfBounds);
    }
    if !ascends(frames) {
        return Err(Refusal::NotAscending);
    }
    Ok(())
}

// Inner: before the first frame is read.
pub fn unread() -> Reading
    ensures { result ≡ unread }
{
    Reading {
        listed: true,
        rises: true,
        low: 0,
    }
}

// Inner: one frame more.
pub fn read_frame(j: Reading, t: u32) -> Reading
    requires { t < 16777216 }
    ensures { result ≡ next_read j t }
{
    if t < j.low {
        return Reading {
            listed: j.listed,
            rises: false,
            low: t + 1,
        };
    }
    Reading {
        listed: j.listed,
        rises: j.rises,
        low: t + 1,
    }
}

// Inner: one that is no listed frame's.
pub fn read_none(j: Reading) -> Reading
    ensures { result ≡ missed j }
{
    Reading {
        listed: false,
        rises: j.rises,
        low: j.low,
    }
}

// Inner: what refuses them when all are read: 10 where one was no listed frame's, then 11 where they don't strictly ascend.
pub fn read_refusal(j: Reading) -> Result<(), Refusal>
    ensures { number_of result ≡ read_number j true [] }
{
    if !j.listed {
        return Err(Refusal::NoListedFrame);
    }
    if !j.rises {
        return Err(Refusal::NotAscending);
    }
    Ok(())
}

// Inner: a count as a float.
pub fn float_of(n: usize) -> f64
    ensures { result ≡ real n }
{
    std::num::nearest_u64_to_f64(n as u64)
}

// Inner: the sum of a list, from +0 on and in ascending order.
pub fn sum_of(xs: &[f64]) -> f64
    ensures { result ≡ sum_of xs.now }
{
    let mut sum = 0.0;
    for &x in xs {
        sum += x;
    }
    sum
}

// Inner: the mean of a list.
pub fn mean_of(xs: &[f64]) -> f64
    ensures { result ≡ mean_of xs.now }
{
    sum_of(xs) / float_of(xs.len())
}

// Inner: the first of the first n slots with the greatest value.
pub fn first_greatest(values: &[f64], n: usize) -> usize
    requires { (1 ≤ n) × (n ≤ length values.now) }
    ensures { (result < n) × (result ≡ first_greatest (value_at values.now) n) }
{
    let mut at = 0;
    let mut top = values[0];
    for t in 1..n {
        let s = values[t];
        if top < s {
            top = s;
            at = t;
        }
    }
    at
}
