// What a patch of magnitude rows and a patch of feature rows have in common: the lengths that are lent, and the copy.
//
// Document 01, Patching (added). Inner calls: no caller of the library needs them.
#![tactic(auto)]

ghost use Rattle.std.specs.Prelude.{◌≡◌, ◌+◌, ◌*◌, ◌^◌, ◌≤◌, ◌<◌, length};
ghost use Rattle.numbers.specs.Lists.{over};
ghost use Rattle.patches.specs.Patches.{new_rows, whole_rows};

// Inner: whether `added` values are whole rows, and those rows, put in from row `start` on, end inside the `rows` lent ones.
pub fn new_rows(rows: usize, width: usize, start: usize, added: usize) -> bool
    requires { (1 ≤ width) × (start ≤ rows) }
    ensures { result ≡ new_rows rows width start added }
{
    if added % width != 0 {
        return false;
    }
    added / width <= rows - start
}

// Inner: whether `slots` lent values are `rows` rows, and the `added` ones are whole rows that end inside them.
pub fn whole_rows(slots: usize, rows: usize, width: usize, start: usize, added: usize) -> bool
    requires { (1 ≤ width) × (rows * width < 2 ^ 64) × (start ≤ rows) }
    ensures { result ≡ whole_rows slots rows width start added }
{
    if slots != rows * width {
        return false;
    }
    new_rows(rows, width, start, added)
}

// Inner: writes new values over the old ones from slot `at` on. Value by value: std's `copy_from_slice` has the archive for C ask for `memmove`, which a
// program without a C library would have to bring.
pub fn put_over<T: Copy>(old: &mut [T], at: usize, new: &[T])
    requires { at + length new.now ≤ length old.old }
    ensures { old.new ≡ over old.old at new.now }
{
    for j in 0..new.len() {
        old[at + j] = new[j];
    }
}
