// The median of a list by IEEE's total order, and the median of the distances from a median.
//
// Document 01, Leaves. The Rust: onsets.rs `median_of`, `mad_of`. A median is the entry of the middle rank, chosen without a sort (choice.rt),
// in place in a slice that the caller lends. One written sort, a heapsort over bit order, is for those who need the whole order: at worst
// n log n steps.
#![tactic(auto)]

mod choice;

ghost use Rattle.std.specs.Prelude.{◌+◌, ◌*◌, ◌<◌, ◌≤◌, ◌≡◌, map, length};
ghost use Rattle.numbers.specs.Refusals.{number_of};
ghost use Rattle.numbers.specs.Lists.{listed};
ghost use Rattle.median.specs.Median.{sort, median_of, mad_of, absolute, distance};
ghost use Rattle.median.specs.Ranks.{Same};
ghost use Rattle.median.specs.Heaps.{swapped, Heap, Sifted, Greater, Arranged};
ghost use Rattle.median.specs.Answers.{refusal_of, MedianPromise, MadPromise, Chosen};

use numbers::Refusal;

// The median of values, the entry at length div 2 once they are sorted. Lend as many slots of work as there are values.
// Refuses with 1 an empty list, with 3 too short a work slice, with 4 a value that isn't finite or has size above 2^150.
// Work's first slots, one for each value, then hold anything; the others, and all of them at a refusal, are unchanged.
pub fn median_of(values: &[f64], work: &mut [f64]) -> Result<f64, Refusal>
    ensures { MedianPromise values.now work.old result work.new }
{
    refusal(values, true, work.len())?;
    Ok(median_in(values, work))
}

// The median of the distances |value - median| from a given median. Lend as many slots of work as there are values.
// Refuses with 1 an empty list, with 3 too short a work slice, with 4 a value or a median that isn't finite or has size above 2^150.
// Work's first slots, one for each value, then hold anything; the others, and all of them at a refusal, are unchanged.
pub fn mad_of(values: &[f64], median: f64, work: &mut [f64]) -> Result<f64, Refusal>
    ensures { MadPromise values.now median work.old result work.new }
{
    refusal(values, numbers::value_fine(median), work.len())?;
    Ok(mad_in(values, median, work))
}

// What both calls refuse; fine says whether what is given beside the values is.
fn refusal(values: &[f64], fine: bool, room: usize) -> Result<(), Refusal>
    ensures { number_of result ≡ refusal_of values.now fine room }
{
    if values.len() == 0 {
        return Err(Refusal::OutOfBounds);
    }
    if room < values.len() {
        return Err(Refusal::TooLittleRoom);
    }
    if !fine {
        return Err(Refusal::WrongValue);
    }
    if !numbers::values_fine(values) {
        return Err(Refusal::WrongValue);
    }
    Ok(())
}

// Inner: the median, for callers that have looked at lengths and values.
pub fn median_in(values: &[f64], work: &mut [f64]) -> f64
    requires { (0 < length values.now) × (length values.now ≤ length work.old) }
    ensures { Chosen (median_of values.now) values.now work.old result work.new }
{
    copy(values, work);
    let n = values.len();
    middle(&mut work[..n])
}

// Inner: the median of distances from a median, for callers that have looked at lengths and values.
pub fn mad_in(values: &[f64], median: f64, work: &mut [f64]) -> f64
    requires { (0 < length values.now) × (length values.now ≤ length work.old) }
    ensures { Chosen (mad_of values.now median) values.now work.old result work.new }
{
    distances(values, median, work);
    let n = values.len();
    middle(&mut work[..n])
}

// Inner: sorts a by IEEE's total order.
pub fn sort_by_bits(a: &mut [f64])
    ensures { a.new ≡ sort a.old }
{
    arrange(a, 1);
}

// The entry at length div 2 of a once sorted. What a then holds is not said.
fn middle(a: &mut [f64]) -> f64
    requires { 0 < length a.old }
    ensures { result ≡ median_of a.old }
{
    let h = a.len() / 2;
    choice::select(a, h)
}

fn copy(src: &[f64], dst: &mut [f64])
    requires { length src.now ≤ length dst.old }
    ensures { dst.new ≡ listed src.now dst.old }
{
    for i in 0..src.len() {
        dst[i] = src[i];
    }
}

fn distances(src: &[f64], median: f64, dst: &mut [f64])
    requires { length src.now ≤ length dst.old }
    ensures { dst.new ≡ listed (map (distance median) src.now) dst.old }
{
    for i in 0..src.len() {
        dst[i] = absolute_of(src[i] - median);
    }
}

// Rust's `abs`. A zero's sign is lost too: the sort would see it.
fn absolute_of(x: f64) -> f64
    ensures { result ≡ absolute x }
{
    if x < 0.0 {
        return -x;
    }
    if x == 0.0 {
        return 0.0;
    }
    x
}

// Takes the greatest entry off the heap's front, again and again, until those from stop on stand where the sort has them.
fn arrange(a: &mut [f64], stop: usize)
    ensures { Arranged a.new a.old stop }
{
    make_heap(a);
    for end in (stop..a.len()).rev() {
        swap(a, 0, end);
        sift_down(a, 0, end);
    }
}

fn make_heap(a: &mut [f64])
    ensures { Same a.new a.old × Heap a.new 0 (length a.old) }
{
    let n = a.len();
    for start in (0..n / 2).rev() {
        sift_down(a, start, n);
    }
}

// Makes a heap of the entries below end from start on, given one from start + 1 on: the entry at start sinks to its place.
fn sift_down(a: &mut [f64], start: usize, end: usize)
    requires { (end ≤ length a.old) × Heap a.old (start + 1) end }
    ensures { Sifted a.new a.old start end }
{
    let mut parent = start;
    // Kept as a while: it goes down a heap, from parent to child.
    while parent < end / 2 {
        let child = greater_child(a, parent, end);
        if floats::bits::precedes(a[parent], a[child]) {
            swap(a, parent, child);
            parent = child;
        } else {
            return;
        }
    }
}

fn greater_child(a: &[f64], parent: usize, end: usize) -> usize
    requires { (2 * parent + 1 < end) × (end ≤ length a.now) }
    ensures { Greater a.now parent end result }
{
    let left = 2 * parent + 1;
    let right = left + 1;
    if right < end {
        if floats::bits::precedes(a[left], a[right]) {
            return right;
        }
    }
    left
}

fn swap(a: &mut [f64], i: usize, j: usize)
    requires { (i < length a.old) × (j < length a.old) }
    ensures { a.new ≡ swapped i j a.old }
{
    let x = a[i];
    let y = a[j];
    a[i] = y;
    a[j] = x;
}
