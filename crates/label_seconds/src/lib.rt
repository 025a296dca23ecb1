// Microseconds as seconds with six decimals, written as bytes.
//
// Document 02, No. 6. Inner calls all. Each call that writes does so from `at` on and answers the place behind what it wrote; every other byte stays.
#![tactic(auto)]

ghost use Rattle.std.specs.Prelude.{◌≡◌, [], ◌∷◌, ◌+◌, ◌/◌, ◌%◌, ◌≤◌, length};
ghost use Rattle.texts.specs.Texts.{Put};
ghost use Rattle.texts.specs.Decimals.{digit_of, decimal};
ghost use Rattle.label_seconds.specs.Seconds.{padded, seconds_text};

use texts::put_byte;

// The last digit of a number.
fn put_last(out: &mut [u8], at: usize, n: u64) -> usize
    requires { at + 1 ≤ length out.old }
    ensures { Put out.old at (digit_of (n % 10) ∷ []) result out.new }
{
    put_byte(out, at, b'0' + (n % 10) as u8)
}

// The last six digits of a number, with zeros in front.
fn put_six(out: &mut [u8], at: usize, n: u64) -> usize
    requires { at + 6 ≤ length out.old }
    ensures { Put out.old at (padded 6 n) result out.new }
{
    let n5 = n / 10;
    let n4 = n5 / 10;
    let n3 = n4 / 10;
    let n2 = n3 / 10;
    let n1 = n2 / 10;
    let e1 = put_last(out, at, n1);
    let e2 = put_last(out, e1, n2);
    let e3 = put_last(out, e2, n3);
    let e4 = put_last(out, e3, n4);
    let e5 = put_last(out, e4, n5);
    put_last(out, e5, n)
}

// Inner: seconds with six decimals.
pub fn put_seconds(out: &mut [u8], at: usize, u: u64) -> usize
    requires { at + length (seconds_text u) ≤ length out.old }
    ensures { Put out.old at (seconds_text u) result out.new }
{
    let e1 = texts::put_decimal(out, at, u / 1_000_000);
    let e2 = put_byte(out, e1, b'.');
    put_six(out, e2, u % 1_000_000)
}

// How many digits a number has.
fn decimal_length(n: u64) -> usize
    ensures { (result ≡ length (decimal n)) × (result ≤ n + 1) }
{
    let mut m = n;
    let mut k: usize = 1;
    // Kept as a while: it ends by the value, digit by digit.
    while m >= 10 {
        m = m / 10;
        k += 1;
    }
    k
}

// Inner: how many bytes a time has.
pub fn seconds_length(u: u64) -> usize
    ensures { (result ≡ length (seconds_text u)) × (result ≤ u / 1000000 + 8) }
{
    decimal_length(u / 1_000_000) + 7
}
