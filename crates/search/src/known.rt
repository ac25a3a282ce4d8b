//! The table of known states.

ghost use Rattle.std.specs.Prelude.{◌≡◌, ◌≤◌, ◌<◌, ◌⊎◌, ℕ, length, slice_index_or, true};
ghost use Rattle.search.specs.Searches.{AreTrueEntries, HasOneMore, IsKnownBy, known_of};
ghost use Rattle.search.specs.Tests.{Test};
ghost use Rattle.search.specs.declared.path.Known.{Known};

use crate::path::{Key, Known};

/// Returns the index of the first entry that has this key or is empty. The look-up begins at entry `key.one` modulo the
/// number of entries, and wraps. If there is no such entry, returns the number of entries.
///
/// The contract doesn't state that the entry is the first one.
pub fn find(known: &[Known], key: Key) -> usize
    ensures within { result ≤ length known.now }

    // `slice_index_or` is the entry at the index of the result. Outside of the table, it would be `none`.
    ensures found { (none : Known) → result < length known.now
        → ((slice_index_or known.now result none).key.one ≡ 0) ⊎ ((slice_index_or known.now result none).key ≡ key) }
{
    let size = known.len();
    if size == 0 {
        return 0;
    }
    // The remainder is below `size`, so the second cast doesn't change it.
    let mut at = (key.one % size as u64) as usize;
    for _ in 0..size {
        let there = known[at].key;
        if there.one == 0 || (there.one == key.one && there.two == key.two) {
            return at;
        }
        at = if at + 1 < size { at + 1 } else { 0 };
    }
    size
}

/// Returns whether an entry states that each schedule from the state with this key passes if its deviations cost at
/// most `left`. An entry states nothing of a key whose `one` is 0. The contract states only what `true` means.
pub(crate) fn is_known(entry: Known, key: Key, left: u32) -> bool
    ensures { result ≡ true → IsKnownBy entry key left }
{
    key.one > 0 && entry.key.one == key.one && entry.key.two == key.two && left <= entry.left
}

/// Notes that each schedule from the state with this key passes if its deviations cost at most `left`. The note
/// replaces the entry that [`find`] finds: one with this key, or an empty one. Does nothing if `find` finds none. If
/// `key.one` is 0, the entry remains empty.
///
/// The contract doesn't state which entry is replaced.
pub(crate) fn note(known: &mut [Known], key: Key, left: u32)
    ensures { HasOneMore known.old (known_of key left) known.new }
{
    let at = find(known, key);
    if at < known.len() {
        known[at] = Known { key, left };
    }
}

/// Notes the entries of the table `from` in the table `known`, as far as there is room. Skips empty entries. So a
/// caller can continue with a larger table.
///
/// The contract states only this: if both tables contain only true entries, so does `known` after the call.
pub fn grow(from: &[Known], known: &mut [Known])
    ensures { (test : Test) (cost : ℕ) → AreTrueEntries test cost from.now → AreTrueEntries test cost known.old
        → AreTrueEntries test cost known.new }
{
    for entry in from {
        if entry.key.one > 0 {
            note(known, entry.key, entry.left);
        }
    }
}
