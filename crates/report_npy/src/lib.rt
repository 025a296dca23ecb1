// The NumPy array that the reporting program reads: what its first bytes and its header say, and its rows of values.
//
// Document 01, The reporting program. Inner calls all: the reporting program is their only caller.
// No call refuses anything or prints: that a header is malformed is an answer, None.
#![tactic(auto)]

ghost use Rattle.std.specs.Prelude.{◌≡◌, drop};
ghost use Rattle.report_npy.specs.Header.{ended, header_of, preamble_of};
ghost use Rattle.report_npy.specs.Values.{single_of, row_read};

use texts::{digits_end, number_at, plain_number, stands};

// above every bound of document 01: a number is told as at most this
const MOST_NUMBER: u64 = 4_294_967_295;

// the bytes before N in a header's text, and those between N and B and behind B
const FRONT: usize = 51;

const COMMA: usize = 2;

const CLOSING: usize = 4;

// the bytes before a header's text
const FIRST: usize = 10;

// What a header's text says: N and B, each held to 4,294,967,295, which is above every bound.
#[derive(Clone, Copy)]
pub struct Shape {
    pub rows: u64,
    pub bins: u64,
}

// Whether spaces and then a line feed stand from `at` on, and nothing behind them.
fn ends(text: &[u8], at: usize) -> bool
    ensures { result ≡ ended (drop at text.now) }
{
    for place in at..text.len() {
        let x = text[place];
        if x != b' ' {
            return x == b'\n' && text.len() - place == 1;
        }
    }
    false
}

// Inner: reads the text of a header: its shape where it is exactly the text that document 01 gives; else it is malformed, and there is none.
// Digits may be of any number: a number above 4,294,967,295 is told as that.
pub fn read_header(text: &[u8]) -> Option<Shape>
    ensures { result ≡ header_of text.now }
{
    if !stands(
        text,
        0,
        b"{'descr': '<f4', 'fortran_order': False, 'shape': (",
    ) {
        return None;
    }
    if !plain_number(text, FRONT) {
        return None;
    }
    let rows_end = digits_end(text, FRONT);
    if !stands(text, rows_end, b", ") {
        return None;
    }
    let columns = rows_end + COMMA;
    if !plain_number(text, columns) {
        return None;
    }
    let columns_end = digits_end(text, columns);
    if !stands(text, columns_end, b"), }") {
        return None;
    }
    if !ends(text, columns_end + CLOSING) {
        return None;
    }
    Some(Shape {
        rows: number_at(text, FRONT, MOST_NUMBER),
        bins: number_at(text, columns, MOST_NUMBER),
    })
}

// Inner: reads the ten bytes before a header: the length of its text, none where they are not those of a NumPy 1.0 file.
// Fewer than ten bytes are malformed; bytes behind the tenth are not read.
pub fn read_preamble(bytes: &[u8]) -> Option<usize>
    ensures { result ≡ preamble_of bytes.now }
{
    if !stands(bytes, 0, b"\x93NUMPY\x01\x00") {
        return None;
    }
    if bytes.len() < FIRST {
        return None;
    }
    Some(usize::from(bytes[8]) + usize::from(bytes[9]) * 256)
}

// Inner: the float that four bytes stand for, the low byte first. Every pattern has one: a NaN's gives a NaN.
pub fn value_of(a: u8, b: u8, c: u8, d: u8) -> f32
    ensures { result ≡ single_of a b c d }
{
    let word = words::word_of(a, b, c, d);
    if word % 2147483648 > 2139095040 {
        f32::NAN
    } else {
        f32::from_bits(word)
    }
}

// Inner: reads values into the first slots of a row, as many as the bytes hold whole and the row has slots for; later slots
// stay. Bytes behind the last whole value are not read.
pub fn read_values(bytes: &[u8], row: &mut [f32])
    ensures { row.new ≡ row_read bytes.now row.old }
{
    let count = (bytes.len() / 4).min(row.len());
    for i in 0..count {
        let at = i * 4;
        row[i] = value_of(bytes[at], bytes[at + 1], bytes[at + 2], bytes[at + 3]);
    }
}
