// The head of an input of the reporting program that comes byte by byte: its first ten bytes, and the header's text behind them.
//
// Document 01, The reporting program. Inner calls all: report_feed calls them, which takes the rows too.
#![tactic(auto)]

ghost use Rattle.std.specs.Prelude.{◌≡◌, ℕ, ◌≤◌, ◌<◌, Some, length};
ghost use Rattle.report_npy.specs.Header.{preamble_of};
ghost use Rattle.report.specs.Input.{preamble_length};
ghost use Rattle.report_head.specs.Heads.{most_text, behind_first, behind_text, FirstTaken, TextTaken};

use numbers::Refusal;
use report_npy::Shape;

// the bytes before a header's text
const FIRST: usize = 10;

// How far an input has come. `have` bytes of what is coming are held: of the ten bytes, of the header's text, which is `size` long, or of row t.
// Rows before row t have come whole, and `fine` tells whether each of their values is fine. An input that is refused stays so, whatever comes.
#[derive(Clone, Copy)]
pub enum Feed {
    First {
        have: usize,
    },
    Text {
        size: usize,
        have: usize,
    },
    Rows {
        rows: usize,
        bins: usize,
        t: usize,
        have: usize,
        fine: bool,
    },
    Refused(Refusal),
}

// What the ten bytes say: a length of two bytes is at most 65,535.
fn stated(bytes: &[u8]) -> Option<usize>
    ensures { (result ≡ preamble_of bytes.now) × ((size : ℕ) → result ≡ Some size → size ≤ most_text) }
{
    report_npy::read_preamble(bytes)
}

// What comes behind the ten bytes, by the length that they say. A header's text of no bytes is malformed.
fn behind_first(stated: Option<usize>) -> Feed
    ensures { result ≡ behind_first stated }
{
    match stated {
        None => Feed::Refused(Refusal::Malformed),
        Some(size) => {
            if size == 0 {
                return Feed::Refused(Refusal::Malformed);
            }
            Feed::Text { size, have: 0 }
        }
    }
}

// What comes behind a header's text, by the shape that it says.
fn behind_text(shape: Option<Shape>) -> Feed
    ensures { result ≡ behind_text shape }
{
    match shape {
        None => Feed::Refused(Refusal::Malformed),
        Some(Shape { rows, bins }) => {
            if !report::shape_fine(rows, bins) {
                return Feed::Refused(Refusal::OutOfBounds);
            }
            Feed::Rows {
                rows: rows as usize,
                bins: bins as usize,
                t: 0,
                have: 0,
                fine: true,
            }
        }
    }
}

// Inner: takes one of the ten bytes.
pub fn take_first(byte: u8, have: usize, held: &mut [u8]) -> Feed
    requires { (have < preamble_length) × (preamble_length ≤ length held.old) }
    ensures { FirstTaken byte have held.old result held.new }
{
    held[have] = byte;
    let come = have + 1;
    if come < FIRST {
        return Feed::First { have: come };
    }
    behind_first(stated(&held[..FIRST]))
}

// Inner: takes one byte of a header's text.
pub fn take_text(byte: u8, size: usize, have: usize, held: &mut [u8]) -> Feed
    requires { (have < size) × (size ≤ length held.old) }
    ensures { TextTaken byte size have held.old result held.new }
{
    held[have] = byte;
    let come = have + 1;
    if come < size {
        return Feed::Text { size, have: come };
    }
    behind_text(report_npy::read_header(&held[..size]))
}
