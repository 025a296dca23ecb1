// A window of twenty-one values that is kept sorted while it slides: one value leaves, one comes; and the median of the distances from its middle.
//
// Inner calls, for the threshold; none refuses anything. A window holds +0 for either zero. Then no two of its values differ and compare as
// equal, so that a comparison of floats decides their order, and a step has no branch that depends on the values.
#![tactic(auto)]

ghost use Rattle.std.specs.Prelude.{◌≡◌, map, ◌<◌, length, get_or};
ghost use Rattle.std.specs.Float.{nan};
ghost use Rattle.std.specs.Float.Ieee.{lt};
ghost use Rattle.numbers.specs.Rounded.{pick};
ghost use Rattle.median.specs.Median.{sort, mad_of};
ghost use Rattle.windows.specs.Windows.{one_zero, lower, higher, without, among, slid, farther, Window};

// the values of a window
const SIZE: usize = 21;
// and without one of them
const REST: usize = 20;
// the place of its middle one
const MIDDLE: usize = 10;
// half of the runs of eleven but for the last
const HALF: usize = 5;

// Inner: +0 for either zero, and any other value itself.
pub fn one_zero(x: f64) -> f64
    ensures { result ≡ one_zero x }
{
    if x == 0.0 { 0.0 } else { x }
}

// Inner: the window of these values, sorted.
pub fn sorted(values: &[f64]) -> [f64; 21]
    requires { length values.now ≡ 21 }
    ensures { result ≡ sort (map one_zero values.now) }
{
    let mut s = [0.0; SIZE];
    for i in 0..SIZE {
        s[i] = one_zero(values[i]);
    }
    median::sort_by_bits(&mut s);
    s
}

// Inner: a sorted window with the value v in place of o, in order.
pub fn replace(s: &mut [f64; 21], o: f64, v: f64)
    requires { length s.old ≡ 21 }
    ensures { s.new ≡ slid s.old o v }
{
    let mut rest = [0.0; 20];
    without(s, o, &mut rest);
    among(&rest, v, s);
}

// What lies below o stays, the rest moves down by one.
fn without(s: &[f64; 21], o: f64, rest: &mut [f64; 20])
    requires { length rest.old ≡ 20 }
    ensures { rest.new ≡ without s.now o }
{
    for i in 0..REST {
        rest[i] = kept(s[i], s[i + 1], o);
    }
}

fn kept(x: f64, next: f64, o: f64) -> f64
    ensures { result ≡ pick (lt x o) x next }
{
    if x < o { x } else { next }
}

// Each place has the middle one of three: v, and the two values that it stands between.
fn among(rest: &[f64; 20], v: f64, s: &mut [f64; 21])
    requires { (length rest.now ≡ 20) × (length s.old ≡ 21) }
    ensures { s.new ≡ among rest.now v }
{
    s[0] = lower_of(rest[0], v);
    for i in 1..REST {
        s[i] = higher_of(rest[i - 1], lower_of(rest[i], v));
    }
    s[REST] = higher_of(rest[REST - 1], v);
}

fn lower_of(x: f64, y: f64) -> f64
    ensures { result ≡ lower x y }
{
    if x < y { x } else { y }
}

fn higher_of(x: f64, y: f64) -> f64
    ensures { result ≡ higher x y }
{
    if x < y { y } else { x }
}

// Inner: the median of the distances from the middle value: the least, over eleven values side by side, of how far the farther end of them lies.
// In two halves, since each step waits for the one before.
pub fn middle_distance(s: &[f64; 21]) -> f64
    requires { Window s.now }
    ensures { result ≡ mad_of s.now (get_or s.now 10 nan) }
{
    let mut low = farther_end(s, 0);
    let mut high = farther_end(s, HALF);
    for j in 1..HALF {
        low = lower_of(farther_end(s, j), low);
        high = lower_of(farther_end(s, j + HALF), high);
    }
    lower_of(farther_end(s, MIDDLE), lower_of(high, low))
}

fn farther_end(s: &[f64; 21], j: usize) -> f64
    requires { j < 11 }
    ensures { result ≡ farther s.now 10 j }
{
    higher_of(s[MIDDLE] - s[j], s[j + MIDDLE] - s[MIDDLE])
}
