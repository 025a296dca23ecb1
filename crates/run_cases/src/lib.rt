// What the programs of the gate read their cases with: parts of a text between marks, and the numbers and the curves that they spell; and how
// many slots of two curves differ.
#![tactic(auto)]

ghost use Rattle.std.specs.Prelude.{◌≡◌, ◌≤◌, ◌+◌, ◌%◌, min, length, drop};
ghost use Rattle.run_cases.specs.Texts.{index_of, marks_of, parts_from, case_part, case_number, case_column, case_digit, most_small};
ghost use Rattle.run_cases.specs.Curves.{case_value, spelled_in, differs, differing};

// How many marks a text has.
pub fn marks(text: &[u8], mark: u8) -> usize
    ensures { result ≡ marks_of mark text.now }
{
    let mut n = 0;
    for &byte in text {
        if byte == mark {
            n += 1;
        }
    }
    n
}

// Where part k of a text begins: behind mark k, or at the end where there are fewer.
fn start(text: &[u8], mark: u8, k: usize) -> usize
    ensures { (result ≤ length text.now) × (drop result text.now ≡ parts_from mark text.now k) }
{
    let mut left = k;
    for (i, &byte) in text.iter().enumerate() {
        if left == 0 {
            return i;
        }
        if byte == mark {
            left -= 1;
        }
    }
    text.len()
}

// The first place from a place on where a byte is the mark, or the text's end.
fn find(text: &[u8], from: usize, mark: u8) -> usize
    requires { from ≤ length text.now }
    ensures { (result ≤ length text.now) × (result ≡ from + index_of mark (drop from text.now)) }
{
    for i in from..text.len() {
        if text[i] == mark {
            return i;
        }
    }
    text.len()
}

// Part k of a text: what stands behind its mark k, up to the next one. Empty where it has fewer.
pub fn part(text: &[u8], mark: u8, k: usize) -> &[u8]
    ensures { result.now ≡ case_part mark text.now k }
{
    let from = start(text, mark, k);
    let end = find(text, from, mark);
    &text[from..end]
}

// The number that a text spells: digits, behind a minus sign if it has one, which the caller reads.
pub fn number(text: &[u8]) -> usize
    ensures { result ≡ case_number text.now }
{
    if texts::stands(text, 0, b"-") {
        return texts::number_at(text, 1, u64::MAX) as usize;
    }
    texts::number_at(text, 0, u64::MAX) as usize
}

// The number in column k of a line, whose columns have bars between them.
pub fn column(line: &[u8], k: usize) -> usize
    ensures { result ≡ case_column line.now k }
{
    number(part(line, b'|', k))
}

// The number in column k of a line, at most so much.
pub fn column_within(line: &[u8], k: usize, most: usize) -> usize
    ensures { result ≡ min (case_column line.now k) most }
{
    column(line, k).min(most)
}

// The number in column k of a line, or the largest u32.
pub fn column_u32(line: &[u8], k: usize) -> u32
    ensures { result ≡ min (case_column line.now k) most_small }
{
    column_within(line, k, u32::MAX as usize) as u32
}

// The value of a digit, or of a letter from ten on.
fn digit_of(byte: u8) -> usize
    ensures { result ≡ case_digit byte }
{
    if byte < 97 {
        return (byte % 48) as usize;
    }
    (byte - 87) as usize
}

// The value of a digit, or of a letter from ten on, at most so much.
pub fn digit(byte: u8, most: usize) -> usize
    ensures { result ≡ min (case_digit byte) most }
{
    digit_of(byte).min(most)
}

// The place of a letter from a on.
pub fn letter(byte: u8) -> usize
    ensures { result ≡ byte % 97 }
{
    (byte % 97) as usize
}

// What a byte of a curve stands for: a letter for a value that is no digit, else its distance from 0.
pub fn value(byte: u8) -> f64
    ensures { result ≡ case_value byte }
{
    match byte {
        b'z' => -0.0,
        b't' => 0.1,
        b'q' => 0.25,
        b'h' => 0.5,
        b'f' => 2.5,
        b'u' => 5.000000000000001,
        b'v' => 1.0000000000000002,
        b'w' => -1.0000000000000002,
        b'm' => -1.0,
        b'b' => 1427247692705959881058285969449495136382746624.0, // 2^150
        b'c' => -1427247692705959881058285969449495136382746624.0,
        b'a' => 1427247692705960197970936026506845510558547968.0, // the next above it
        b'd' => -1427247692705960197970936026506845510558547968.0,
        b'i' => 1.0 / 0.0,
        b'j' => -1.0 / 0.0,
        b'n' => 0.0 / 0.0,
        _ => byte as f64 - 48.0,
    }
}

// Lays the values of a text in a curve's first slots, as many as both have.
pub fn spell(text: &[u8], curve: &mut [f64])
    ensures { curve.new ≡ spelled_in text.now curve.old }
{
    let most = text.len().min(curve.len());
    for i in 0..most {
        curve[i] = value(text[i]);
    }
}

// 1 where slot i lies outside first up to past and has not the same bits in both.
pub fn differ(i: usize, first: usize, past: usize, x: f64, y: f64) -> usize
    ensures { (result ≡ differs first past i x y) × (result ≤ 1) }
{
    if floats::bits::bits_of(x) == floats::bits::bits_of(y) {
        return 0;
    }
    if i < first {
        return 1;
    }
    if past <= i {
        return 1;
    }
    0
}

// How many slots of two curves differ outside first up to past.
pub fn changed(old: &[f64], new: &[f64], first: usize, past: usize) -> usize
    ensures { result ≡ differing first past 0 old.now new.now }
{
    let most = old.len().min(new.len());
    let mut n = 0;
    for i in 0..most {
        n += differ(i, first, past, old[i], new[i]);
    }
    n
}
