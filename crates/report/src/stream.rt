// Rows that come one after the other, with two of them kept: the flux that they leave is that of the whole slab.
//
// Document 01, The reporting program.
ghost use Rattle.std.specs.Prelude.{◌≡◌, true, ◌++◌, ◌*◌, ◌<◌, length, drop};
ghost use Rattle.numbers.specs.Limits.{magnitude_fine};
ghost use Rattle.numbers.specs.Lists.{every};
ghost use Rattle.report.specs.Input.{values_of};
ghost use Rattle.report.specs.Stream.{RowTaken};

use flux_rows::Magnitudes;
use numbers::Slab;

// Keeps the row before and, behind it, the row of these bytes.
fn keep_row(bytes: &[u8], bins: usize, kept: &mut [f32])
    requires { (length bytes.now ≡ bins * 4) × (length kept.old ≡ 2 * bins) }
    ensures { kept.new ≡ drop bins kept.old ++ values_of bytes.now }
{
    kept.copy_within(bins..2 * bins, 0);
    report_npy::read_values(bytes, &mut kept[bins..]);
}

// Inner: takes row t, whose bytes are given: two rows are kept, and slot t of the flux is written while every value is fine.
pub fn take_row(
    bytes: &[u8],
    bins: usize,
    t: usize,
    fine: bool,
    kept: &mut [f32],
    flux: &mut [f64],
) -> bool
    requires bytes_len { (length bytes.now ≡ bins * 4) × (length kept.old ≡ 2 * bins) × (t < length flux.old) }
    requires kept_value { fine ≡ true → every magnitude_fine kept.old ≡ true }
    ensures { RowTaken bytes.now bins t fine kept.old flux.old result kept.new flux.new }
{
    keep_row(bytes, bins, kept);
    if !fine {
        return false;
    }
    if !numbers::magnitudes_fine(&kept[bins..]) {
        return false;
    }
    let pair = Magnitudes {
        values: kept,
        slab: Slab { rows: 2, bins },
    };
    flux[t] = flux::flux_slot(pair, t.min(1));
    true
}
