// Texts that are copied to an area of C, as far as there is room.

ghost use Rattle.nic82540em.specs.Copies.{CopiesFront};

/// Copies the beginning of a text to the beginning of `into`, as far as there is room. Returns the text's length.
pub(crate) fn copy_front(text: &[u8], into: &mut [u8]) -> usize
    ensures { CopiesFront text.now into.old into.new result }
{
    let room = into.len();
    if text.len() <= room {
        into[..text.len()].copy_from_slice(text);
    } else {
        into.copy_from_slice(&text[..room]);
    }
    text.len()
}
