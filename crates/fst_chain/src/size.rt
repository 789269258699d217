//! The size and the alignment of a node's block.
ghost use Rattle.std.specs.Prelude.{◌≡◌};
ghost use Rattle.core.specs.Allocator.{HasLayout};
ghost use Rattle.core.specs.Mem.{type_size};
ghost use Rattle.core.specs.Align.{type_align};
ghost use prog.Memory.{capped};
ghost use Rattle.fst_chain.specs.Blocks.{node_type};

use std::mem::{align_of, size_of};

/// The size of a header, which is also where the bytes behind it begin.
pub(crate) fn header_size<X>() -> usize
    ensures { result ≡ capped (type_size X.row) }
{
    size_of::<X>()
}

// The alignment of a header, and so of its block.
fn header_align<X>() -> usize
    ensures { result ≡ capped (type_align X.row) }
{
    align_of::<X>()
}

/// The size and the alignment of a block for a header and `len` bytes. A size past the greatest is given as the greatest,
/// so that there is an answer for each block that may be given back.
pub(crate) fn layout_of<X>(len: usize) -> (usize, usize)
    ensures { HasLayout (node_type X.row len) result.0 result.1 }
{
    let align = header_align::<X>();
    let end = header_size::<X>().saturating_add(len);
    match end.checked_next_multiple_of(align) {
        Some(size) => (size, align),
        None => (usize::MAX, align),
    }
}
