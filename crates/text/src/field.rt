// Fields of a line that is printed.

ghost use Rattle.std.specs.Prelude.{◌≡◌, ◌≤◌, ◌+◌, ◌++◌, length};
ghost use Rattle.text.specs.Fields.{labelled};

use arrayvec::ArrayVec;
use itoa::Buffer;

/// Appends a label and a number in decimal.
///
/// The label must have at most 20 bytes. The line must have room for 60 more bytes: 20 for the label, and 40 for the
/// digits, the maximum that itoa's contract states. So the `unwrap`s can't fail.
pub fn push_field<const N: usize>(line: &mut ArrayVec<u8, N>, label: &[u8], number: u64)
    requires label { length label.now ≤ 20 }
    requires room { length line.old.items + 60 ≤ N }
    ensures text { line.new.items ≡ line.old.items ++ labelled label.now number }
    ensures short { length line.new.items ≤ length line.old.items + 60 }
{
    let mut buffer = Buffer::new();
    let digits = buffer.format(number).as_bytes();
    line.try_extend_from_slice(label).unwrap();
    line.try_extend_from_slice(digits).unwrap();
}
