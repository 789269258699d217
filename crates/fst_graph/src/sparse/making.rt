//! Making a change: first room for it, then the change itself.

ghost use Rattle.std.specs.Prelude.{◌≡◌, ◌↔◌, ◌<◌, ◌+◌, ◌∷◌, [], ℕ, Some, IfOk, IfErr, OnErr, IfSome, IfNone, MatchResult, IsTrue, Contains, length, map, slice_index_or, slice_set, vec_len, vec_capacity, ◌++◌};
ghost use Rattle.fst_types.specs.Gates.{IsOpenNumber};
ghost use Rattle.fst_types.specs.Order.{make_order};
ghost use Rattle.fst_types.specs.declared.grade.Grade.{Grade};
ghost use Rattle.fst_graph.specs.Known.{Known, Prepared, unprepared, prepared_for, Refuses, DependsGate};
ghost use Rattle.fst_graph.specs.Sparse.{AddsSparse, ForeseesSparse};
ghost use Rattle.fst_heads.specs.Heads.{kind_of};
ghost use Rattle.fst_heads.specs.Lists.{entries_of, entry_of, HasRoomInList};
ghost use Rattle.fst_heads.specs.Names.{numbers_of};
ghost use Rattle.fst_heads.specs.Frames.{HasRoomBelow};
ghost use Rattle.fst_heads.specs.Nodes.{Node, nodes_of, pending_in, at_number, gains_names, linked_to, HasRoomAbove};
ghost use Rattle.fst_heads.specs.Pendings.{Fits, is_pending, sums_of};
ghost use Rattle.fst_heads.specs.Standings.{entered};
ghost use Rattle.fst_heads.specs.Tests.{is_hard_kind};
ghost use Rattle.fst_heads.specs.declared.standing.Standing.{Standing as Counts};
ghost use Rattle.fst_heads.specs.declared.pending.Pending.TheVariants as pending_as;

use crate::fresh::{Fresh, row_of};
use crate::prepared::{given_up, keep, let_go, prepare};
use crate::refusals::make_fault;
use crate::sparse::Sparse;
use crate::sparse::reserving::{reserve_around, reserve_in};
use fst_heads::growth::gain_one;
use fst_heads::head::Kind;
use fst_heads::heads::Heads;
use fst_heads::links::link;
use fst_heads::lists::Listed;
use fst_heads::pending::{Pending, is_of_block};
use fst_heads::row::row_sums;
use fst_heads::standings::Standings;
use fst_levels::ancestors::ancestry_over;
use fst_levels::sight::Sight;
use fst_levels::under_hard::keep_under;
use fst_types::{BlockNo, Fault, Grade, PatchNo, Place, Span};
use fst_walks::lift::rise_of;
use std::alloc::Global;

// The gate gains the number, which is that of the newest patch.
fn tie(alloc: Global, heads: &mut Heads, gate: u32, number: u32)
    requires counted { (x : Node) → Contains (nodes_of heads.old.list.items) x → x.patch.number ≡ gate → (x.sums.count + (sums_of (pending_in (nodes_of heads.old.list.items)) (number ∷ [])).count < 65536) × Fits x.sums }
    requires below { HasRoomBelow heads.old.list.items gate }
    requires above { HasRoomAbove heads.old.list.items (number ∷ []) }
    ensures { nodes_of heads.new.list.items ≡ map (linked_to (number ∷ []) gate) (map (at_number gate (gains_names (number ∷ []) (sums_of (pending_in (nodes_of heads.old.list.items)) (number ∷ [])))) (nodes_of heads.old.list.items)) }
{
    let row = row_of(alloc, number);
    let sums = row_sums(heads, row.as_slice());
    gain_one(heads, gate, number, sums);
    link(heads, row.as_slice(), gate);
}

// A new change stands last in the list of its block, and is counted where it is pending of that block alone or is hard.
fn enlist(
    lists: &mut Vec<Vec<Listed>>,
    standings: &mut Standings,
    block: u32,
    listed: Listed,
    kind: Kind,
    pending: Pending,
)
    requires list { block < length lists.old.items }
    requires standing { block < length standings.old }
    requires room { HasRoomInList (map (λ l. vec_len l) lists.old.items) (map (λ l. vec_capacity l) lists.old.items) block }
    requires few { (own : Counts) → own ≡ slice_index_or standings.old block own → (own.ready < 18446744073709551615) × (own.held < 18446744073709551615) }
    ensures listed { map (λ l. entries_of l.items) lists.new.items ≡ slice_set (map (λ l. entries_of l.items) lists.old.items) block (slice_index_or (map (λ l. entries_of l.items) lists.old.items) block [] ++ entry_of listed ∷ []) }
    ensures entered { (d : Counts) → standings.new ≡ slice_set standings.old block (entered (is_hard_kind (kind_of kind)) (is_pending pending (pending_as.Block block)) listed.number (slice_index_or standings.old block d)) }
{
    lists[block as usize].push_reserved(listed);
    let is_ready = is_of_block(pending, block);
    standings.enter(block, kind, is_ready, listed.number);
}

impl Sparse {
    /// Makes room for a new change, and answers the number and the grade that `add_data` with these arguments will answer.
    /// It is refused as `add_data` is. Where the patches near the change do not tell the grade, it looks at what the
    /// change depends on and at what may hold that back, at each patch once. What is prepared is gone after any other call
    /// that may change the graph, and after a refused `room`.
    pub fn room(
        &mut self,
        block: BlockNo,
        span: Span,
        after: &[PatchNo],
    ) -> Result<(PatchNo, Grade), Fault>
        requires { block.0 < self.old.blocks }
        ensures ok { IfOk result (λ made. ForeseesSparse (unprepared self.old) block.0 span.at span.len (numbers_of after.now) made.0.0 made.1) }
        ensures prepared { IfOk result (λ made. self.new ≡ record self.old { prepared = Some (prepared_for block.0 span.at span.len (numbers_of after.now) made.0.0 made.1) }) }
        ensures refused { IfErr result (Refuses (make_order self.old.heads self.old.numbers (numbers_of after.now))) }
        ensures same { OnErr result (self.new ≡ unprepared self.old) }
        ensures blocks { self.new.blocks ≡ self.old.blocks }
    {
        let standing = self.standing();
        let_go(&mut self.prepared);
        if let Some(fault) = make_fault(standing, self.numbers, after) {
            return Err(fault);
        }
        let sight = Sight {
            heads: &self.columns.heads,
            lists: &self.lists,
            covers: &self.covers,
            levels: &self.columns.levels,
            needs: &self.needs,
        };
        let Ok(prepared) = prepare(
            self.alloc,
            &sight,
            &mut self.columns.ends,
            block.0,
            span,
            after,
        ) else {
            return Err(Fault::Memory);
        };
        let made = (PatchNo(self.numbers + 1), prepared.told.grade);
        let around = reserve_around(&mut self.columns, &mut self.landed, &prepared);
        if around.is_err() {
            return Err(given_up(prepared));
        }
        let inside = reserve_in(
            &mut self.lists,
            &mut self.covers,
            &mut self.needs,
            &self.columns.heads,
            &prepared,
        );
        if inside.is_err() {
            return Err(given_up(prepared));
        }
        keep(&mut self.prepared, prepared);
        Ok(made)
    }

    // Whether a change with these arguments is prepared.
    fn is_prepared(&self, block: BlockNo, span: Span, after: &[PatchNo]) -> bool
        ensures { IsTrue result ↔ ((number : ℕ) × (grade : Grade) × (self.now.prepared ≡ Some (prepared_for block.0 span.at span.len (numbers_of after.now) number grade))) }
    {
        match &self.prepared {
            Some(prepared) => prepared.is_for(block.0, span, after),
            None => false,
        }
    }

    // As `put`, but of what lies below the change nothing is kept.
    fn put_alone(&mut self) -> (PatchNo, Grade)
        requires { (p : Prepared) × (self.old.prepared ≡ Some p) × IfSome p.group (λ head. IsOpenNumber self.old.heads head → ⊥) }
        ensures alone { IfSome self.old.prepared (λ p. IfNone p.group (AddsSparse (unprepared self.old) p.block p.at p.len p.after result.0.0 result.1 self.new)) }
        ensures tied { IfSome self.old.prepared (λ p. IfSome p.group (λ head. (with_change : Known) × AddsSparse (unprepared self.old) p.block p.at p.len (head ∷ []) result.0.0 result.1 with_change × DependsGate with_change (head + 1) (result.0.0 ∷ []) self.new)) }
        ensures foreseen { IfSome self.old.prepared (λ p. (result.0.0 ≡ p.number) × (result.1 ≡ p.grade)) }
    {
        let Some(prepared) = self.prepared.take() else {
            unreachable!();
        };
        let gates = prepared.gates;
        let number = self.numbers + 1;
        let grade = prepared.told.grade;
        let span = prepared.span;
        let block = prepared.block;
        let kind = Kind::Change(grade, block as u16, span);
        let row = prepared.dependencies.as_slice();
        let sight = Sight {
            heads: &self.columns.heads,
            lists: &self.lists,
            covers: &self.covers,
            levels: &self.columns.levels,
            needs: &self.needs,
        };
        let rise = rise_of(
            &sight,
            &mut self.columns.ends.up.walk,
            &mut self.columns.ends.up.crossed,
            block,
            row,
            prepared.told,
        );
        self.columns.levels.lift(&self.columns.heads, &self.columns.ends.up.walk, block, rise);
        self.needs.put(&self.columns.heads, row, grade);
        self.needs.note(number, prepared.told.end);
        let ancestry = ancestry_over(&self.columns.levels, &self.columns.heads, row, number);
        let fresh = Fresh {
            number,
            kind,
            place: Place::Memory,
            dependencies: prepared.dependencies,
        };
        let pending = self
            .columns
            .put_down(self.alloc, fresh, rise.level, ancestry);
        let listed = Listed { number, span };
        enlist(
            &mut self.lists,
            &mut self.standings,
            block,
            listed,
            kind,
            pending,
        );
        self.covers[block as usize].put(span, number);
        self.live += 1;
        self.numbers = number;
        match gates {
            Some(gates) => {
                tie(self.alloc, &mut self.columns.heads, gates.tail, number);
                (PatchNo(number), grade)
            }
            None => (PatchNo(number), grade),
        }
    }

    // Keeps the change with the number, if it is hard, as the one over what lies below it.
    fn keep_under(&mut self, number: u32)
        ensures { self.new ≡ self.old }
    {
        keep_under(
            &mut self.columns.levels,
            &self.columns.heads,
            &mut self.columns.ends.up.walk,
            number,
        );
    }

    /// Puts down the change that is prepared. Where it is for a group, whose head is not open, the tail gains it.
    pub fn put(&mut self) -> (PatchNo, Grade)
        requires { (p : Prepared) × (self.old.prepared ≡ Some p) × IfSome p.group (λ head. IsOpenNumber self.old.heads head → ⊥) }
        ensures alone { IfSome self.old.prepared (λ p. IfNone p.group (AddsSparse (unprepared self.old) p.block p.at p.len p.after result.0.0 result.1 self.new)) }
        ensures tied { IfSome self.old.prepared (λ p. IfSome p.group (λ head. (with_change : Known) × AddsSparse (unprepared self.old) p.block p.at p.len (head ∷ []) result.0.0 result.1 with_change × DependsGate with_change (head + 1) (result.0.0 ∷ []) self.new)) }
        ensures foreseen { IfSome self.old.prepared (λ p. (result.0.0 ≡ p.number) × (result.1 ≡ p.grade)) }
    {
        let (number, grade) = self.put_alone();
        self.keep_under(number.0);
        (number, grade)
    }

    /// A new change of the block, which depends on the named patches that are not on disk and on the changes not on disk
    /// with which it shares a byte. It is refused as `add_empty` is. Where `room` has prepared it for these arguments, it
    /// answers what `room` did, and takes no memory.
    pub fn add_data(
        &mut self,
        block: BlockNo,
        span: Span,
        after: &[PatchNo],
    ) -> Result<(PatchNo, Grade), Fault>
        requires { block.0 < self.old.blocks }
        ensures ok { IfOk result (λ made. AddsSparse (unprepared self.old) block.0 span.at span.len (numbers_of after.now) made.0.0 made.1 self.new) }
        ensures prepared { (number : ℕ) (grade : Grade) → self.old.prepared ≡ Some (prepared_for block.0 span.at span.len (numbers_of after.now) number grade) → MatchResult result (λ made. (made.0.0 ≡ number) × (made.1 ≡ grade)) (λ f. ⊥) }
        ensures refused { IfErr result (Refuses (make_order self.old.heads self.old.numbers (numbers_of after.now))) }
        ensures same { OnErr result (self.new ≡ unprepared self.old) }
        ensures blocks { self.new.blocks ≡ self.old.blocks }
    {
        if self.is_prepared(block, span, after) {
            return Ok(self.put());
        }
        if let Err(fault) = self.room(block, span, after) {
            return Err(fault);
        }
        Ok(self.put())
    }
}
