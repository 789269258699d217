//! The row of a new change: the named patches, and the newest change over each of its bytes.

ghost use Rattle.std.specs.Prelude.{◌≡◌, ◌↔◌, map, IsTrue, IfOk, OnOk};
ghost use Rattle.std.specs.List.Sorted.{IsStrictlyIncreasing};
ghost use Rattle.fst_heads.specs.Covers.{GainsTouched, IsCovered};
ghost use Rattle.fst_heads.specs.Heads.{patch_of, patches_of};
ghost use Rattle.fst_heads.specs.Lists.{entries_of, entries_on};
ghost use Rattle.fst_heads.specs.Names.{numbers_of};
ghost use Rattle.fst_heads.specs.Rows.{IsSparseRow, IsTouched, touches};

use crate::cover::{Cover, Run};
use crate::head::{Head, Kind};
use crate::heads::Heads;
use crate::lists::Listed;
use crate::row::{Row, dependencies_of, live_named, put, shares};
use crate::test::is_live;
use fst_types::{PatchNo, Span};
use std::alloc::{AllocError, Global};

/// A change that is to be made: its block, its bytes, and the patches that it is to depend on.
#[derive(Clone, Copy)]
pub struct Wanted<'a> {
    pub block: u32,
    pub span: Span,
    pub names: &'a [PatchNo],
}

// Whether it is a change of the block that is not on disk and shares a byte with the span.
fn touches(head: &Head, block: u32, span: Span) -> bool
    ensures { result ≡ touches block span.at span.len (patch_of head.now) }
{
    match head.kind {
        Kind::Change(_, on, own) => is_live(head.place)
            && u32::from(on) == block
            && shares(own, span),
        Kind::Empty | Kind::OpenGate | Kind::SealedGate => false,
    }
}

/// Whether the number is that of a change of the block that is not on disk and shares a byte with the span.
pub fn is_touched(heads: &Heads, number: u32, block: u32, span: Span) -> bool
    ensures { IsTrue result ↔ IsTouched (patches_of heads.now.list.items) block span.at span.len number }
{
    match heads.index_of(number) {
        Some(index) => touches(&heads.list[index], block, span),
        None => false,
    }
}

// Puts those of the runs' numbers into the row that share a byte with the span. Equal ones mostly stand side by side.
fn gain_touched(
    heads: &Heads,
    runs: &[Run],
    block: u32,
    span: Span,
    row: &mut Row,
) -> Result<(), AllocError>
    requires row { IsStrictlyIncreasing row.old.items }
    ensures { OnOk result (GainsTouched (patches_of heads.now.list.items) (map (λ r. r.number) runs.now) block span.at span.len row.old.items row.new.items) }
{
    let mut last = 0;
    for run in runs {
        if run.number != last {
            last = run.number;
            if is_touched(heads, last, block, span) {
                put(row, last)?;
            }
        }
    }
    Ok(())
}

/// What a new change is to name so that it depends on the named patches that are not on disk, and on each change not on
/// disk that shares a byte with it. It looks at its bytes alone, but for a block of which a change was made that its runs do
/// not tell of, or a change that has no byte: there at the list, which has the changes of the block that are not on disk.
pub fn sparse_row(
    alloc: Global,
    heads: &Heads,
    list: &[Listed],
    cover: &Cover,
    wanted: &Wanted<'_>,
) -> Result<Row, AllocError>
    requires listed { entries_of list.now ≡ entries_on wanted.now.block (patches_of heads.now.list.items) }
    requires covered { IsCovered (patches_of heads.now.list.items) wanted.now.block cover.now }
    ensures { IfOk result (λ row. IsSparseRow (patches_of heads.now.list.items) (numbers_of wanted.now.names.now) wanted.now.block wanted.now.span.at wanted.now.span.len row.items) }
{
    let block = wanted.block;
    let span = wanted.span;
    if span.len == 0 || cover.has_untold() {
        return dependencies_of(alloc, heads, list, block, span, wanted.names);
    }
    let mut row = live_named(alloc, heads, wanted.names)?;
    gain_touched(heads, cover.over(span), block, span, &mut row)?;
    Ok(row)
}
