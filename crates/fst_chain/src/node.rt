//! A node: its links, its record and its payload. Its bytes lie in its own block, so a node takes one allocation.
//!
//! It holds no pointer of its own: a link is a `Place`, which owns nothing, and the payload is a `Vec` that lies in the block.
ghost use Rattle.std.specs.Prelude.{◌≡◌, ◌^◌, ◌<◌, ◌≤◌, [], length, IfSome};
ghost use Rattle.core.specs.Mem.{type_size};
ghost use Rattle.std_alloc.specs.Vec.{vec_len, vec_ptr, vec_capacity};

use crate::block::Block;
use crate::heap::Place;
use crate::room::Room;
use crate::size::{header_size, layout_of};
use std::alloc::Allocator;
use std_alloc::vec::Lodged;

/// A record and its payload, linked to the nodes before and after it.
pub(crate) struct Node<T> {
    pub(crate) next: Option<Place>,
    pub(crate) prev: Option<Place>,
    pub(crate) item: T,
    pub(crate) payload: Vec<u8, Lodged>,
}

/// Room for a node, with the payload copied behind it. `None` where the allocator refuses the block.
pub(crate) fn room_for<T, A: Allocator>(
    alloc: &A,
    payload: &[u8],
) -> Option<(Room<Node<T>, A>, Vec<u8, Lodged>)>
    requires { type_size T.row < 2 ^ 62 }
    ensures room { IfSome result (λ r. (r.0.alloc ≡ alloc.now) × (vec_ptr r.1 ≡ r.0.tail) × (vec_capacity r.1 ≡ r.0.len)) }
    ensures payload { IfSome result (λ r. r.1.items ≡ payload.now) }
{
    let len = payload.len();
    let (size, align) = layout_of::<Node<T>>(len);
    let block = Block::new(alloc, len, size, align)?;
    let (room, mut bytes) = block.open(header_size::<Node<T>>());
    fill(&mut bytes, payload);
    Some((room, bytes))
}

/// Frees a node's block.
pub(crate) fn release<T, A: Allocator>(alloc: &A, room: Room<Node<T>, A>, payload: Vec<u8, Lodged>)
    requires { (room.alloc ≡ alloc.now) × (vec_ptr payload ≡ room.tail) × (vec_capacity payload ≡ room.len) }
{
    let len = payload.capacity();
    let (size, align) = layout_of::<Node<T>>(len);
    room.close(payload, len).free(alloc, size, align);
}

// Copies the payload into the empty row, which stays in its place.
fn fill(bytes: &mut Vec<u8, Lodged>, payload: &[u8])
    requires { (bytes.old.items ≡ []) × (vec_len bytes.old ≡ 0) × (length payload.now ≤ vec_capacity bytes.old) }
    ensures items { bytes.new.items ≡ payload.now }
    ensures in_place { (vec_ptr bytes.new ≡ vec_ptr bytes.old) × (vec_capacity bytes.new ≡ vec_capacity bytes.old) }
{
    for byte in payload {
        bytes.push_reserved(*byte);
    }
}
