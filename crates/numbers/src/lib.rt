// The limits of document 01, why a call refuses, and the tests of lent values that every call makes.
//
// Inner calls but for `Refusal`, its `number` and `number_of`, which callers of the library read: the crates above share them.
#![tactic(auto)]

ghost use Rattle.std.specs.Prelude.{◌≡◌, true, ◌&&◌, length};
ghost use Rattle.numbers.specs.Limits.{sized, magnitude_fine, value_fine, similarity_fine, rate_fine, slab_fine, slab_whole};
ghost use Rattle.numbers.specs.Refusals.{number, number_of, unless};
ghost use Rattle.numbers.specs.Lists.{every, IsTest};

// samples a second
pub const MOST_RATE: u32 = 192_000;
// magnitude rows, or slots of a lent envelope
pub const MOST_ROWS: usize = 1_048_576;
// bins of a magnitude row
pub const MOST_BINS: usize = 4_096;
// a beat period, in frames
pub const MOST_PERIOD: usize = 45_000;
// feature rows
pub const MOST_FEATURES: usize = 50_000;
// values of a feature row
pub const FEATURE_WIDTH: usize = 16;
// samples of a feature row
pub const MOST_LENGTH: u64 = 2_147_483_648;
// a listed frame
pub const MOST_FRAME: u32 = 1_048_575;
// a listed row of a feature curve
pub const MOST_LISTED_ROW: u32 = 49_999;
// samples from a frame to the next
pub const HOP: f64 = 256.0;
// milliseconds of a second
pub const THOUSAND: f64 = 1000.0;
// 2^-52: an energy or a variance of at most so much is none
pub const EPSILON: f64 = 0.0000000000000002220446049250313080847263336181640625;
// the size of a value of an envelope, curve, median or feature row, 2 ^ 150
const VALUE_TOP: f64 = 1427247692705959881058285969449495136382746624.0;
// the size of a similarity
const SIMILARITY_TOP: f64 = 1.0;

// Why a call refuses: a row of the table of refusals. What C is told is its number there.
#[derive(Clone, Copy, Debug, PartialEq, Eq)]
pub enum Refusal {
    OutOfBounds = 1,
    WrongLength = 2,
    TooLittleRoom = 3,
    WrongValue = 4,
    Malformed = 5,
    WrongGrid = 6,
    GapTooLong = 7,
    OtherShape = 8,
    NotOfThisForm = 9,
    NoListedFrame = 10,
    NotAscending = 11,
}

impl Refusal {
    // Its number in the table, 1 to 11.
    pub fn number(self) -> u32
        ensures { result ≡ number self }
    {
        self as u32
    }
}

// The number of an answer: 0, or that of its refusal.
pub fn number_of<T>(answer: &Result<T, Refusal>) -> u32
    ensures { result ≡ number_of answer.now }
{
    match answer {
        Ok(_) => 0,
        Err(refusal) => refusal.number(),
    }
}

// The shape of a slab of magnitudes: so many rows of so many bins, one row behind the other.
#[derive(Clone, Copy)]
pub struct Slab {
    pub rows: usize,
    pub bins: usize,
}

// Inner: a row of a call's table: it refuses unless its test holds, and then the rows behind it say.
pub fn unless(holds: bool, refusal: Refusal, rest: Result<(), Refusal>) -> Result<(), Refusal>
    ensures { number_of result ≡ unless holds (number refusal) (number_of rest) }
{
    if holds { rest } else { Err(refusal) }
}

// Inner: whether a sample rate is 1 to 192,000.
pub fn rate_fine(rate: u32) -> bool
    ensures { result ≡ rate_fine rate }
{
    1 <= rate && rate <= MOST_RATE
}

// Inner: whether the shape of a slab is in bounds: rows 0 to 1,048,576, bins 1 to 4,096.
pub fn slab_fine(slab: Slab) -> bool
    ensures { result ≡ slab_fine slab }
{
    let rows = slab.rows;
    let bins = slab.bins;
    rows <= MOST_ROWS && (1 <= bins && bins <= MOST_BINS)
}

// Inner: whether so many slots are the slab's rows times its bins.
pub fn slab_whole(slab: Slab, slots: usize) -> bool
    requires { slab_fine slab ≡ true }
    ensures { result ≡ slab_whole slab slots }
{
    slots == slab.rows * slab.bins
}

// Inner: whether a magnitude is finite and of size at most 2 ^ 126.
pub fn magnitude_fine(x: f32) -> bool
    ensures { result ≡ magnitude_fine x }
{
    x >= -85070591730234615865843651857942052864.0 && x <= 85070591730234615865843651857942052864.0
}

// Inner: whether x is finite and of size at most top.
fn size_fine(x: f64, top: f64) -> bool
    ensures { result ≡ sized top x }
{
    x >= -top && x <= top
}

// Inner: whether a value of an envelope, curve, median or feature row is finite and of size at most 2 ^ 150.
pub fn value_fine(x: f64) -> bool
    ensures { result ≡ value_fine x }
{
    size_fine(x, VALUE_TOP)
}

// Inner: whether a similarity is within -1 to 1.
fn similarity_fine(x: f64) -> bool
    ensures { result ≡ similarity_fine x }
{
    size_fine(x, SIMILARITY_TOP)
}

// Inner: whether every entry of four runs of one length passes the test. One flat pass with no early exit: no test waits for another's answer,
// and the four runs come from memory side by side.
fn runs_pass<T: Copy, F: Fn(T) -> bool>(a: &[T], b: &[T], c: &[T], d: &[T], test: &F) -> bool
    requires callable { F.IsAlwaysCallable test.now }
    requires b_len { length b.now ≡ length a.now }
    requires c_len { length c.now ≡ length a.now }
    requires d_len { length d.now ≡ length a.now }
    ensures { (p : _) → IsTest (F.post test.now) p → result ≡
        (every p a.now && (every p b.now && (every p c.now && every p d.now))) }
{
    let mut fine = true;
    for i in 0..a.len() {
        fine = test(a[i]) & (test(b[i]) & (test(c[i]) & (test(d[i]) & fine)));
    }
    fine
}

// Inner: whether every entry of one run passes the test.
fn run_passes<T: Copy, F: Fn(T) -> bool>(s: &[T], test: &F) -> bool
    requires { F.IsAlwaysCallable test.now }
    ensures { (p : _) → IsTest (F.post test.now) p → result ≡ every p s.now }
{
    let mut fine = true;
    for &x in s {
        fine = test(x) & fine;
    }
    fine
}

// Inner: whether every entry passes the test: four quarters side by side, then the at most three that are left.
pub fn all_pass<T: Copy, F: Fn(T) -> bool>(s: &[T], test: F) -> bool
    requires { F.IsAlwaysCallable test }
    ensures { (p : _) → IsTest (F.post test) p → result ≡ every p s.now }
{
    let q = s.len() / 4;
    let quarters = runs_pass(
        &s[0..q],
        &s[q..2 * q],
        &s[2 * q..3 * q],
        &s[3 * q..4 * q],
        &test,
    );
    quarters & run_passes(&s[4 * q..], &test)
}

// Inner: whether every magnitude is fine.
pub fn magnitudes_fine(s: &[f32]) -> bool
    ensures { result ≡ every magnitude_fine s.now }
{
    all_pass(s, magnitude_fine)
}

// Inner: whether every value is fine.
pub fn values_fine(s: &[f64]) -> bool
    ensures { result ≡ every value_fine s.now }
{
    all_pass(s, value_fine)
}

// Inner: whether every similarity is fine.
pub fn similarities_fine(s: &[f64]) -> bool
    ensures { result ≡ every similarity_fine s.now }
{
    all_pass(s, similarity_fine)
}
