// The entries of a grid, LEN numbers each, in reading order, moved to where a shift puts them.
ghost use Rattle.std.specs.Prelude.{◌≡◌, ◌+◌, ◌-◌, ◌*◌, ◌<◌, ◌≤◌, max, ◌++◌, length, take, drop, replicate};
ghost use Rattle.recalc.specs.Entries.{entry, entries_from};
ghost use Rattle.shift.specs.declared.shift.Change.TheVariants.{Insert, Delete};
ghost use Rattle.shift.specs.Entries.{coming, size_after, cells_of, first_entry, left_behind, most_behind, origin_behind, entry_or_zeros, placed, shifted_entries};

use crate::reshape::Reshape;
use crate::shift::Change;

fn clear(numbers: &mut [u64], from: usize, to: usize)
    requires { (from ≤ to) × (to ≤ length numbers.old) }
    ensures { numbers.new ≡ take from numbers.old ++ (replicate (to - from) 0 ++ drop to numbers.old) }
{
    numbers[from..to].fill(0);
}

fn copy_entry<const LEN: usize>(entries: &mut [u64], from: usize, to: usize)
    requires { (LEN * from + LEN ≤ length entries.old) × (LEN * to + LEN ≤ length entries.old) }
    ensures { entries.new ≡ take (LEN * to) entries.old ++ (entry LEN from entries.old ++ drop (LEN * to + LEN) entries.old) }
{
    let start = LEN * from;
    entries.copy_within(start..start + LEN, LEN * to);
}

// Entry `to` of those from the line on becomes what comes there, an entry or zeros. The part and the reshape stay apart, here and below:
// what a struct that is gone has left in a part that was lent to it no proof knows.
fn put_entry<const LEN: usize>(part: &mut [u64], reshape: Reshape, to: usize)
    requires left { to < left_behind reshape.shift reshape.size }
    requires room { LEN * most_behind reshape.shift reshape.size ≤ length part.old }
    ensures { part.new ≡ take (LEN * to) part.old ++ (entry_or_zeros LEN (origin_behind reshape.shift reshape.size to) part.old ++ drop (LEN * to + LEN) part.old) }
{
    match reshape.origin_behind(to) {
        Some(from) if from == to => {}
        Some(from) => copy_entry::<LEN>(part, from, to),
        None => clear(part, LEN * to, LEN * to + LEN),
    }
}

// Moves the entries behind an inserted line, the last one first, so that none is overwritten before it is moved.
fn spread<const LEN: usize>(part: &mut [u64], reshape: Reshape)
    requires change { reshape.shift.change ≡ Insert }
    requires room { LEN * most_behind reshape.shift reshape.size ≤ length part.old }
    ensures { part.new ≡ placed LEN (origin_behind reshape.shift reshape.size) (left_behind reshape.shift reshape.size) part.old }
{
    for i in (0..reshape.entries_behind()).rev() {
        put_entry::<LEN>(part, reshape, i);
    }
}

// Moves the entries behind a deleted line, the first one first.
// Two loops: an order that is handed in would need a contract that no entry is overwritten before it has moved, which is longer than the loop.
fn gather<const LEN: usize>(part: &mut [u64], reshape: Reshape)
    requires change { reshape.shift.change ≡ Delete }
    requires room { LEN * most_behind reshape.shift reshape.size ≤ length part.old }
    ensures { part.new ≡ placed LEN (origin_behind reshape.shift reshape.size) (left_behind reshape.shift reshape.size) part.old }
{
    for i in 0..reshape.entries_behind() {
        put_entry::<LEN>(part, reshape, i);
    }
}

// Moves the entries from the line of a shift on to where it puts them. A match: the change is data of the shift, and of a closure the caller would have to say the same.
fn move_behind<const LEN: usize>(part: &mut [u64], reshape: Reshape)
    requires room { LEN * most_behind reshape.shift reshape.size ≤ length part.old }
    ensures { part.new ≡ placed LEN (origin_behind reshape.shift reshape.size) (left_behind reshape.shift reshape.size) part.old }
{
    match reshape.shift.change {
        Change::Insert => spread::<LEN>(part, reshape),
        Change::Delete => gather::<LEN>(part, reshape),
    }
}

// Moves all entries of a grid at the front of a row to where a shift puts them.
fn move_entries<const LEN: usize>(entries: &mut [u64], reshape: Reshape)
    requires room { LEN * max (cells_of reshape.size) (cells_of (size_after reshape.shift reshape.size)) ≤ length entries.old }
    ensures { entries.new ≡ entries_from (coming LEN reshape.shift reshape.size entries.old) 0 (cells_of (size_after reshape.shift reshape.size)) ++ drop (LEN * cells_of (size_after reshape.shift reshape.size)) entries.old }
{
    move_behind::<LEN>(&mut entries[LEN * reshape.first_entry()..], reshape);
}

// Shifts the grid at the front of a row; what comes free becomes 0, and what lies behind stays as it was.
pub(crate) fn shift_entries<const LEN: usize>(entries: &mut [u64], reshape: Reshape)
    requires room { LEN * max (cells_of reshape.size) (cells_of (size_after reshape.shift reshape.size)) ≤ length entries.old }
    ensures { entries.new ≡ shifted_entries LEN reshape.shift reshape.size entries.old }
{
    move_entries::<LEN>(entries, reshape);
    clear(
        entries,
        LEN * reshape.entries_after(),
        LEN * reshape.most_entries(),
    );
}
