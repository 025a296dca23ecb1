// Thirty-two bits as four bytes, the low byte first: written and read.
//
// NumPy arrays and RIFF chunks hold numbers so. Inner calls all; none refuses anything.
#![tactic(auto)]

ghost use Rattle.std.specs.Prelude.{◌≡◌, ◌+◌, ◌≤◌, length};
ghost use Rattle.texts.specs.Texts.{Put};
ghost use Rattle.words.specs.Words.{word, word_of, word_at};

// Inner: writes a number from `at` on and answers the place behind it; every other byte stays.
pub fn put_word(out: &mut [u8], at: usize, n: u32) -> usize
    requires { at + 4 ≤ length out.old }
    ensures { Put out.old at (word n) result out.new }
{
    let e1 = texts::put_byte(out, at, (n % 256) as u8);
    let e2 = texts::put_byte(out, e1, (n / 256 % 256) as u8);
    let e3 = texts::put_byte(out, e2, (n / 256 / 256 % 256) as u8);
    texts::put_byte(out, e3, (n / 256 / 256 / 256 % 256) as u8)
}

// Inner: four bytes as a number.
pub fn word_of(a: u8, b: u8, c: u8, d: u8) -> u32
    ensures { result ≡ word_of a b c d }
{
    (a as u32) + (b as u32) * 256 + (c as u32) * 65536 + (d as u32) * 16777216
}

// Inner: the number whose four bytes stand from `at` on.
pub fn word_at(bytes: &[u8], at: usize) -> u32
    requires { at + 4 ≤ length bytes.now }
    ensures { result ≡ word_at bytes.now at }
{
    word_of(bytes[at], bytes[at + 1], bytes[at + 2], bytes[at + 3])
}
