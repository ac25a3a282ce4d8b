// Tables of words.

ghost use Rattle.std.specs.Prelude.{◌≡◌, map};
ghost use Rattle.text.specs.Tables.{entry_of, value_in};

/// Returns the value of the first entry with this word in a table of words and values. Returns `None` if there is no
/// such entry.
pub fn value_of<T: Copy>(table: &[(&str, T)], word: &str) -> Option<T>
    ensures { result ≡ value_in (map entry_of table.now) word.now }
{
    for (name, value) in table {
        if word == *name {
            return Some(*value);
        }
    }
    None
}
