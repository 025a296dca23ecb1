// A float's bits and back, its whole part, and its place in the total order.
//
// The one NaN has one pattern here, so that no caller has to show that a value is none.
ghost use Rattle.std.specs.Prelude.{◌≡◌, from_bits, nat_lt, to_bits};
ghost use Rattle.std.specs.Float.{binary64};
ghost use Rattle.std.specs.Float.Ieee.{to_unsigned};
ghost use Rattle.floats.specs.TotalOrder.{key};

// Inner: the bits of x.
pub fn bits_of(x: f64) -> u64
    ensures { result ≡ to_bits binary64 x }
{
    if x != x {
        0x7ff8_0000_0000_0000
    } else {
        f64::to_bits(x)
    }
}

// Inner: the float with the bits n.
pub fn float_of(n: u64) -> f64
    ensures { result ≡ from_bits binary64 n }
{
    if n % 0x8000_0000_0000_0000 > 0x7ff0_0000_0000_0000 {
        0.0 / 0.0
    } else {
        f64::from_bits(n)
    }
}

// Inner: Rust's `x as u64`: x cut to a whole number, held to 64 bits; 0 for a NaN.
pub fn whole_of(x: f64) -> u64
    ensures { result ≡ to_unsigned 64 x }
{
    if x > -1.0 {
        if x < 18446744073709551616.0 {
            return std::num::truncating_f64_to_u64(x);
        }
        return 0xffff_ffff_ffff_ffff;
    }
    0
}

// Inner: the key of x, whose order is IEEE's totalOrder.
pub fn key_of(x: f64) -> u64
    ensures { result ≡ key x }
{
    let b = bits_of(x);
    if b < 0x8000_0000_0000_0000 {
        b + 0x8000_0000_0000_0000
    } else {
        0xffff_ffff_ffff_ffff - b
    }
}

// Inner: whether x stands before y in the total order. Keys are taken only where neither is below the other, which is rare.
pub fn precedes(x: f64, y: f64) -> bool
    ensures { result ≡ nat_lt (key x) (key y) }
{
    if x < y {
        return true;
    }
    if y < x {
        return false;
    }
    key_of(x) < key_of(y)
}
