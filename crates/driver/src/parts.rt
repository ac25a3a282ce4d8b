// The pieces of a received frame, each in its buffer.

ghost use Rattle.std.specs.Prelude.{◌≡◌, ◌<◌, ◌≤◌, ◌++◌, ◌∷◌, [], length, IfNone, IfSome, slice_index_or};

use dma_memory::BufId;
use std::marker::Model;

/// The greatest number of receive buffers of a frame (our choice). A frame of 1,518 bytes fills five buffers of 256
/// bytes and needs a sixth.
pub const MOST_PARTS: usize = 6;

/// A piece of a received frame: the buffer that contains the piece, and the size of the piece in bytes.
#[derive(Drop)]
pub struct Part {
    pub buffer: BufId,
    pub length: u16,
}

/// Up to six pieces, in order.
#[derive(Drop)]
pub struct Parts {
    /// The pieces, and `None` after the last piece.
    places: [Option<Part>; MOST_PARTS],
    /// The number of pieces.
    count: usize,
}

impl Model for Parts {
    ghost use Rattle.std.specs.Prelude.{List};
    ghost use Rattle.driver.specs.declared.parts.Part.{Part};

    ghost Value = { List Part };

    ghost use Rattle.driver.specs.Parts.{IsFilled, parts_in};

    ghost view = { λ inside. parts_in inside.places };

    ghost invariant = { IsFilled };
}

impl Parts {
    /// Returns an empty list of pieces.
    pub fn new() -> Parts
        ensures { result ≡ [] }
    {
        Parts {
            places: [None, None, None, None, None, None],
            count: 0,
        }
    }

    /// Returns the number of pieces.
    pub fn len(&self) -> usize
        ensures count { result ≡ length self.now }
        ensures most { result ≤ MOST_PARTS }
    {
        self.count
    }

    /// Returns the piece at an index, from 0 on. Returns `None` if the index isn't below the number of pieces.
    pub fn get(&self, index: usize) -> Option<&Part>
        ensures none { IfNone result (length self.now ≤ index) }
        ensures some { IfSome result (λ part. index < length self.now) }
        // The index is below the number of pieces, so the default value `part.now` isn't used.
        ensures part { IfSome result (λ part. part.now ≡ slice_index_or self.now index part.now) }
        ensures most { length self.now ≤ MOST_PARTS }
    {
        if index < self.count {
            self.places[index].as_ref()
        } else {
            None
        }
    }

    /// Appends a piece. There must be fewer than six pieces.
    pub fn push(&mut self, part: Part)
        requires { length self.old < MOST_PARTS }
        ensures { self.new ≡ self.old ++ part ∷ [] }
    {
        self.places[self.count] = Some(part);
        self.count += 1;
    }

    /// Removes and returns the last piece. If there is no piece, returns `None`, and the list remains empty.
    pub fn pop(&mut self) -> Option<Part>
        ensures none { IfNone result (self.old ≡ []) }
        ensures last { IfSome result (λ part. self.old ≡ self.new ++ part ∷ []) }
    {
        if self.count == 0 {
            return None;
        }
        self.count -= 1;
        self.places[self.count].take()
    }
}
