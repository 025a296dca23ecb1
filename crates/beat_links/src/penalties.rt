// The penalty of an interval, which depends on nothing else: it is computed once for each interval of a period.
ghost use Rattle.std.specs.Prelude.{◌≡◌, ◌*◌, ◌≤◌, length};
ghost use Rattle.numbers.specs.Lists.{filled};
ghost use Rattle.beat_links.specs.Extensions.{penalty};
ghost use Rattle.beat_links.specs.Inner.{slot_penalty};

use lists::float_of;

// Inner: the penalty of an interval between two beats.
pub fn penalty_of(period: usize, interval: usize) -> f64
    ensures { result ≡ penalty period interval }
{
    let periods = float_of(interval) / float_of(period);
    let ln = floats::logs::log(periods);
    -400.0 * ln * ln
}

// Inner: fills the table: slot k has the penalty of interval 2 * period - k, so that slots run as the earlier frames do.
pub fn fill_penalties(period: usize, table: &mut [f64])
    requires { 2 * period ≤ length table.old }
    ensures { table.new ≡ filled (slot_penalty period) table.old 0 (2 * period) }
{
    for k in 0..2 * period {
        table[k] = penalty_of(period, 2 * period - k);
    }
}
