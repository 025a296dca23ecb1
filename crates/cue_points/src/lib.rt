// The parts of a RIFF WAVE cue chunk, as bytes: its head and its points, written and read.
//
// Document 02, No. 6. Inner calls all; crate cues has the library's. Each call that writes answers the place behind what it wrote; every other byte stays.
#![tactic(auto)]

ghost use Rattle.std.specs.Prelude.{◌≡◌, ◌+◌, ◌*◌, ◌≤◌, ◌<◌, length};
ghost use Rattle.numbers.specs.Limits.{most_frame};
ghost use Rattle.texts.specs.Texts.{Put};
ghost use Rattle.cue_points.specs.Chunks.{head_of, point, head_fine, fields_fine, point_fine, offset_at, offset_fine, offset_read, point_frame, count_of};

use lists::Reading;
use words::{put_word, word_at};

// `cue ` and `data` as words
const CUE: u32 = 543520099;

const DATA: u32 = 1635017060;

// ---- writing

// Inner: what stands before n points.
pub fn put_head(out: &mut [u8], n: u32) -> usize
    requires in_bounds { 12 ≤ length out.old }
    requires n_bound { n ≤ most_frame + 1 }
    ensures { Put out.old 0 (head_of n) result out.new }
{
    let e1 = put_word(out, 0, CUE);
    let e2 = put_word(out, e1, 4 + 24 * n);
    put_word(out, e2, n)
}

// Inner: point i, from 0 upward.
pub fn put_point(out: &mut [u8], at: usize, i: u32, offset: u32) -> usize
    requires at_in_bounds { at + 24 ≤ length out.old }
    requires i_le_most_frame { i ≤ most_frame }
    ensures { Put out.old at (point i offset) result out.new }
{
    let e1 = put_word(out, at, i + 1);
    let e2 = put_word(out, e1, offset);
    let e3 = put_word(out, e2, DATA);
    let e4 = put_word(out, e3, 0);
    let e5 = put_word(out, e4, 0);
    put_word(out, e5, offset)
}

// ---- reading

// Inner: whether a chunk's first twelve bytes and its length are of the form.
pub fn head_fine(chunk: &[u8]) -> bool
    ensures { result ≡ head_fine chunk.now }
{
    if chunk.len() < 12 {
        return false;
    }
    if word_at(chunk, 0) != CUE {
        return false;
    }
    let size = word_at(chunk, 4) as usize;
    let whole = 4 + 24 * (word_at(chunk, 8) as usize);
    if size != whole {
        return false;
    }
    chunk.len() == 8 + whole
}

// Inner: how many points a chunk with a fine head has.
pub fn point_count(chunk: &[u8]) -> u32
    requires { 12 ≤ length chunk.now }
    ensures { result ≡ count_of chunk.now }
{
    word_at(chunk, 8)
}

// Whether the six fields of point i are of the form.
fn fields_fine(
    i: u32,
    name: u32,
    position: u32,
    id: u32,
    first: u32,
    second: u32,
    offset: u32,
) -> bool
    requires { i + 1 < 4294967296 }
    ensures { result ≡ fields_fine i name position id first second offset }
{
    name == i + 1 && id == DATA && first == 0 && second == 0 && position == offset
}

// Inner: whether point i, which is within the bytes, is of the form.
pub fn point_fine(chunk: &[u8], i: u32) -> bool
    requires i_bound { i + 1 < 4294967296 }
    requires i_in_bounds { 36 + i * 24 ≤ length chunk.now }
    ensures { result ≡ point_fine chunk.now i }
{
    let at = 12 + (i as usize) * 24;
    let name = word_at(chunk, at);
    let position = word_at(chunk, at + 4);
    let id = word_at(chunk, at + 8);
    let first = word_at(chunk, at + 12);
    let second = word_at(chunk, at + 16);
    let offset = word_at(chunk, at + 20);
    fields_fine(i, name, position, id, first, second, offset)
}

// Inner: the offset of point i.
pub fn offset_at(chunk: &[u8], i: u32) -> u32
    requires { 36 + i * 24 ≤ length chunk.now }
    ensures { result ≡ offset_at chunk.now i }
{
    word_at(chunk, 32 + (i as usize) * 24)
}

// Inner: whether an offset is that of a listed frame.
pub fn offset_fine(offset: u32) -> bool
    ensures { result ≡ offset_fine offset }
{
    512 <= offset && offset % 256 == 0 && offset <= numbers::MOST_FRAME * 256 + 512
}

// Inner: the frame of point i. A match, and not `saturating_sub(512) / 256`: with that `read_cues` took a third longer (docs/LOOK-BACK.md).
pub fn frame_at(chunk: &[u8], i: u32) -> u32
    requires { 36 + i * 24 ≤ length chunk.now }
    ensures { (result ≡ point_frame chunk.now i) × (result ≤ 16777213) }
{
    match offset_at(chunk, i).checked_sub(512) {
        Some(past) => past / 256,
        None => 0,
    }
}

// Inner: one offset more that is read.
pub fn read_offset(j: Reading, offset: u32) -> Reading
    ensures { result ≡ offset_read j offset }
{
    if !offset_fine(offset) {
        return lists::read_none(j);
    }
    lists::read_frame(j, (offset - 512) / 256)
}
