// The link of a frame: which of the earlier beats it may follow extends best, and by how much.
//
// Document 01, "Beats and bars". The Rust: tempo.rs `beat_grid`, the inner loop.
#![tactic(auto)]

mod bests;
pub mod penalties;

ghost use Rattle.std.specs.Prelude.{◌≡◌, ◌≤◌, length};
ghost use Rattle.numbers.specs.Limits.{most_rows, most_period};
ghost use Rattle.beat_links.specs.Extensions.{extension};
ghost use Rattle.beat_links.specs.Inner.{Penalties};

use crate::bests::{best_by_eights, best_computed, best_in_table};
use lists::Best;

// a frame with no beat before it
pub const NO_LINK: u32 = 4_294_967_295;

// Inner: the best extension of a beat at frame t. A table of 2 * period slots or more holds the penalties.
pub fn extension_at(score: &[f64], table: &[f64], period: usize, t: usize) -> Best
    requires { (1 ≤ period) × (period ≤ most_period) × (t ≤ length score.now) × (t ≤ most_rows) × Penalties period table.now }
    ensures { result ≡ extension period score.now t }
{
    if t == 0 {
        return Best {
            value: 0.0,
            at: NO_LINK,
        };
    }
    let lo = t.saturating_sub(2 * period);
    let end = t.saturating_sub((period + 1) / 2) + 1;
    if table.len() < 2 * period {
        return best_computed(score, period, t, lo, end);
    }
    let first = 2 * period - (t - lo);
    if lo + 8 <= end {
        return best_by_eights(score, table, first, lo, end);
    }
    best_in_table(score, table, first, lo, end)
}
