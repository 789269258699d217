//! Rows of numbers, and the names that a call is given.

ghost use Rattle.std.specs.Prelude.{◌≡◌, ◌<◌, ◌+◌, ◌↔◌, IsTrue, IfOk, OnOk, Contains};
ghost use Rattle.std.specs.List.Sorted.{IsStrictlyIncreasing};
ghost use Rattle.fst_types.specs.Dependencies.{IsLiveNumber};
ghost use Rattle.fst_types.specs.Gates.{IsGiven};
ghost use Rattle.fst_types.specs.Lists.{Lists};
ghost use Rattle.fst_types.specs.Order.{NamesUnknown};
ghost use Rattle.fst_types.specs.Tests.{is_among};
ghost use Rattle.fst_heads.specs.Heads.{patches_of};
ghost use Rattle.fst_heads.specs.Names.{numbers_of};
ghost use Rattle.fst_heads.specs.Lists.{entries_of, entries_on};
ghost use Rattle.fst_heads.specs.Nodes.{nodes_of, pending_in};
ghost use Rattle.fst_heads.specs.Pendings.{Fits, joined, sums_of};
ghost use Rattle.fst_heads.specs.Rows.{Gains, shares, IsDependency};

use crate::heads::Heads;
use crate::lists::Listed;
use crate::pending::{Pending, Sums, join, no_sums};
use crate::test::is_live;
use fst_types::{PatchNo, Span};
use smallvec::SmallVec;
use std::alloc::{AllocError, Global};

/// Numbers in rising order, four of them without an allocation.
pub type Row = SmallVec<u32, 4>;

/// Whether the number was given.
pub fn is_given(numbers: u32, number: u32) -> bool
    ensures { IsTrue result ↔ IsGiven numbers number }
{
    0 < number && number <= numbers
}

/// Whether one of the names was never given.
pub fn names_unknown(numbers: u32, names: &[PatchNo]) -> bool
    ensures { IsTrue result ↔ NamesUnknown numbers (numbers_of names.now) }
{
    for name in names {
        if !is_given(numbers, name.0) {
            return true;
        }
    }
    false
}

/// Whether the number is that of a patch that is not on disk.
pub fn is_live_number(heads: &Heads, number: u32) -> bool
    ensures { IsTrue result ↔ IsLiveNumber (patches_of heads.now.list.items) number }
{
    match heads.index_of(number) {
        Some(index) => is_live(heads.list[index].place),
        None => false,
    }
}

/// Whether the rising row has the number.
pub fn has_number(row: &[u32], number: u32) -> bool
    requires { IsStrictlyIncreasing row.now }
    ensures { result ≡ is_among row.now number }
{
    row.binary_search(&number).is_ok()
}

/// Puts the number into the row, unless it is there.
pub fn put(row: &mut Row, number: u32) -> Result<(), AllocError>
    requires { IsStrictlyIncreasing row.old.items }
    ensures { OnOk result (Gains row.old.items number row.new.items) }
{
    match row.as_slice().binary_search(&number) {
        Ok(_) => {}
        Err(at) => row.insert(at, number)?,
    }
    Ok(())
}

/// The row of the names that are not on disk.
pub fn live_named(alloc: Global, heads: &Heads, names: &[PatchNo]) -> Result<Row, AllocError>
    ensures { IfOk result (λ row. Lists (λ n. IsLiveNumber (patches_of heads.now.list.items) n × Contains (numbers_of names.now) n) row.items) }
{
    let mut row = SmallVec::new(alloc);
    for name in names {
        if is_live_number(heads, name.0) {
            put(&mut row, name.0)?;
        }
    }
    Ok(row)
}

// The byte after the span.
fn end_of(span: Span) -> u64
    ensures { result ≡ span.at + span.len }
{
    let at = span.at;
    let len = span.len;
    u64::from(at) + u64::from(len)
}

/// Whether the two share a byte.
pub fn shares(own: Span, span: Span) -> bool
    ensures { result ≡ shares span.at span.len own.at own.len }
{
    u64::from(own.at) < end_of(span) && u64::from(span.at) < end_of(own)
}

/// What a new change of the span depends on: the names that are not on disk, and the changes not on disk that share a
/// byte with it. The list has the changes of the block that are not on disk.
pub(crate) fn dependencies_of(
    alloc: Global,
    heads: &Heads,
    list: &[Listed],
    block: u32,
    span: Span,
    names: &[PatchNo],
) -> Result<Row, AllocError>
    requires listed { entries_of list.now ≡ entries_on block (patches_of heads.now.list.items) }
    ensures { IfOk result (λ row. Lists (IsDependency (patches_of heads.now.list.items) (numbers_of names.now) block span.at span.len) row.items) }
{
    let mut row = live_named(alloc, heads, names)?;
    for listed in list {
        if shares(listed.span, span) {
            put(&mut row, listed.number)?;
        }
    }
    Ok(row)
}

/// What is pending of the patch with the number, as its dependants know it.
pub fn pending_at(heads: &Heads, number: u32) -> Pending
    ensures { result ≡ pending_in (nodes_of heads.now.list.items) number }
{
    match heads.index_of(number) {
        Some(index) => heads.list[index].pending,
        None => Pending::Nothing,
    }
}

/// What is pending of the row.
pub fn row_pending(heads: &Heads, row: &[u32]) -> Pending
    ensures { result ≡ joined (pending_in (nodes_of heads.now.list.items)) row.now }
{
    let mut pending = Pending::Nothing;
    for number in row {
        pending = join(pending_at(heads, *number), pending);
    }
    pending
}

/// What the row adds up to.
pub fn row_sums(heads: &Heads, row: &[u32]) -> Sums
    requires room { (sums_of (pending_in (nodes_of heads.now.list.items)) row.now).count < 65536 }
    ensures sums { result ≡ sums_of (pending_in (nodes_of heads.now.list.items)) row.now }
    ensures fits { Fits result }
{
    let mut sums = no_sums();
    for number in row {
        sums.add(pending_at(heads, *number));
    }
    sums
}
