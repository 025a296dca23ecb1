// Numbers in decimal, as bytes: written without needless zeros, and read where they are exactly so written; and texts that are written on into lent
// bytes.
//
// Document 01, The reporting program, "N and B without needless zeros". Inner calls all. No call refuses anything: a text that is no number is an answer.
#![tactic(auto)]

ghost use Rattle.std.specs.Prelude.{◌≡◌, ◌+◌, ◌-◌, ◌*◌, ◌≤◌, min, [], ◌∷◌, length, drop};
ghost use Rattle.texts.specs.Texts.{starts, Put};
ghost use Rattle.texts.specs.Decimals.{decimal, leading, plain, number_from};

// ---- reading

// What stands in the text from `at` on: nothing where it ends before.
fn rest_of(text: &[u8], at: usize) -> &[u8]
    ensures { result.now ≡ drop at text.now }
{
    &text[at.min(text.len())..]
}

// Inner: whether the text has these bytes from the place `at` on.
pub fn stands(text: &[u8], at: usize, bytes: &[u8]) -> bool
    ensures { result ≡ starts bytes.now (drop at text.now) }
{
    rest_of(text, at).starts_with(bytes)
}

// Inner: the place behind the digits that stand from `at` on.
pub fn digits_end(text: &[u8], at: usize) -> usize
    ensures { result ≡ at + length (leading (drop at text.now)) }
{
    let count = rest_of(text, at)
        .iter()
        .take_while(|x| x.is_ascii_digit())
        .count();
    at + count
}

// Inner: whether digits stand from `at` on without a needless zero.
pub fn plain_number(text: &[u8], at: usize) -> bool
    ensures { result ≡ plain (leading (drop at text.now)) }
{
    match digits_end(text, at) - at {
        0 => false,
        1 => true,
        _ => text[at] != b'0',
    }
}

// v followed by one digit more, held to `most`: what no u64 holds is above every bound.
fn one_more(v: u64, x: u8, most: u64) -> u64
    requires { 48 ≤ x }
    ensures { result ≡ min (v * 10 + (x - 48)) most }
{
    let digit = u64::from(x - b'0');
    v.saturating_mul(10).saturating_add(digit).min(most)
}

// Inner: the number whose digits stand from `at` on, however many, held to `most`.
pub fn number_at(text: &[u8], at: usize, most: u64) -> u64
    ensures { result ≡ min (number_from 0 (leading (drop at text.now))) most }
{
    let mut v: u64 = 0;
    for &x in rest_of(text, at) {
        if !x.is_ascii_digit() {
            return v;
        }
        v = one_more(v, x, most);
    }
    v
}

// ---- writing: each call writes from `at` on and answers the place behind what it wrote; every other byte stays

// Inner: one byte.
pub fn put_byte(out: &mut [u8], at: usize, byte: u8) -> usize
    requires { at + 1 ≤ length out.old }
    ensures { Put out.old at (byte ∷ []) result out.new }
{
    out[at] = byte;
    at + 1
}

// Inner: bytes as they are.
pub fn put_words(out: &mut [u8], at: usize, words: &[u8]) -> usize
    requires { at + length words.now ≤ length out.old }
    ensures { Put out.old at words.now result out.new }
{
    let end = at + words.len();
    out[at..end].copy_from_slice(words);
    end
}

// Inner: a number in decimal. It calls itself for the digits before the last.
pub fn put_decimal(out: &mut [u8], at: usize, n: u64) -> usize
    requires { at + length (decimal n) ≤ length out.old }
    ensures { Put out.old at (decimal n) result out.new }
{
    let digit = b'0' + (n % 10) as u8;
    if n < 10 {
        return put_byte(out, at, digit);
    }
    let end = put_decimal(out, at, n / 10);
    put_byte(out, end, digit)
}
