//! Calls of queues of frames, each made twice, from equal states: only their clauses determine the outcomes.

ghost use Rattle.std.specs.Prelude.{◌≡◌, ◌+◌, ◌<◌, ◌≤◌, ◌↔◌, IfSome, IsNone, length, sum_by};

use descriptors::{FrameQueue, PLACE_BYTES, PackedQueue};
use std::hash::Hasher;

/// Calls [`FrameQueue::front`] twice.
pub fn front_twice<'a>(
    one: &'a FrameQueue,
    other: &'a FrameQueue,
) -> (Option<&'a [u8]>, Option<&'a [u8]>)
    requires { one.now ≡ other.now }
    ensures none { IsNone result.0 ↔ IsNone result.1 }
    ensures frame { IfSome result.0 (λ frame. IfSome result.1 (λ another. frame.now ≡ another.now)) }
{
    (one.front(), other.front())
}

/// Calls [`FrameQueue::push`] twice.
pub fn push_twice(one: &mut FrameQueue, other: &mut FrameQueue, frame: &[u8])
    requires queue { one.old ≡ other.old }
    requires room { length one.old.frames < one.old.capacity }
    requires fits { length frame.now ≤ PLACE_BYTES }
    ensures { one.new ≡ other.new }
{
    one.push(frame);
    other.push(frame);
}

/// Calls [`FrameQueue::push_padded`] twice.
pub fn push_padded_twice(one: &mut FrameQueue, other: &mut FrameQueue, frame: &[u8], least: usize)
    requires queue { one.old ≡ other.old }
    requires room { length one.old.frames < one.old.capacity }
    requires fits { length frame.now ≤ PLACE_BYTES }
    requires least_fits { least ≤ PLACE_BYTES }
    ensures { one.new ≡ other.new }
{
    one.push_padded(frame, least);
    other.push_padded(frame, least);
}

/// Calls [`FrameQueue::pop`] twice.
pub fn pop_twice(one: &mut FrameQueue, other: &mut FrameQueue)
    requires { one.old ≡ other.old }
    ensures { one.new ≡ other.new }
{
    one.pop();
    other.pop();
}

/// Calls [`PackedQueue::front`] twice.
pub fn packed_front_twice<'a>(
    one: &'a PackedQueue,
    other: &'a PackedQueue,
) -> (Option<&'a [u8]>, Option<&'a [u8]>)
    requires { one.now ≡ other.now }
    ensures none { IsNone result.0 ↔ IsNone result.1 }
    ensures frame { IfSome result.0 (λ frame. IfSome result.1 (λ another. frame.now ≡ another.now)) }
{
    (one.front(), other.front())
}

/// Calls [`PackedQueue::push`] twice.
pub fn packed_push_twice(one: &mut PackedQueue, other: &mut PackedQueue, frame: &[u8])
    requires queue { one.old ≡ other.old }
    requires place { length one.old.frames < one.old.capacity }
    requires room { sum_by length one.old.frames + length frame.now ≤ one.old.room }
    requires short { length frame.now < 65536 }
    ensures { one.new ≡ other.new }
{
    one.push(frame);
    other.push(frame);
}

/// Calls [`PackedQueue::pop`] twice.
pub fn packed_pop_twice(one: &mut PackedQueue, other: &mut PackedQueue)
    requires { one.old ≡ other.old }
    ensures { one.new ≡ other.new }
{
    one.pop();
    other.pop();
}

/// Calls [`PackedQueue::feed`] twice.
pub fn packed_feed_twice<H: Hasher>(
    one: &PackedQueue,
    other: &PackedQueue,
    hasher: &mut H,
    another: &mut H,
)
    requires queue { one.now ≡ other.now }
    requires hasher { hasher.old ≡ another.old }
    ensures { hasher.new ≡ another.new }
{
    one.feed(hasher);
    other.feed(another);
}
