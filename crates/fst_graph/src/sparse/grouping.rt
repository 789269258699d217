//! Making a change of a group: first room for it, while its head stays as it is, then the change itself.

ghost use Rattle.std.specs.Prelude.{◌≡◌, ◌↔◌, ◌<◌, ◌+◌, ℕ, Some, None, IfOk, IfErr, IfSome, IfNone, OnOk, OnErr, IsTrue};
ghost use Rattle.fst_types.specs.declared.grade.Grade.{Grade};
ghost use Rattle.fst_types.specs.Gates.{IsOpenNumber};
ghost use Rattle.fst_types.specs.Refusals.{NoneHolds};
ghost use Rattle.fst_graph.specs.Grouping.{SealsIfOpen};
ghost use Rattle.fst_graph.specs.Known.{Prepared, unprepared, member_for, Refuses};
ghost use Rattle.fst_graph.specs.Membering.{ArePaired, member_order};
ghost use Rattle.fst_graph.specs.Sparse.{ForetellsSparse, GainsSparse};

use crate::gates::gate_index;
use crate::member::prepare_member;
use crate::prepared::{Gates, given_up, keep, let_go};
use crate::refusals::{reaches_tail, room_fault};
use crate::sparse::Sparse;
use crate::sparse::reserving::{reserve_around, reserve_in};
use fst_heads::cascade::{cascade, seal_at};
use fst_levels::ancestors::renew;
use fst_levels::sight::Sight;
use fst_types::{BlockNo, Fault, Grade, PatchNo, Span};

impl Sparse {
    /// Makes room for a new change of the group with these gates, and answers the number and the grade that it will have.
    /// It is refused as `Cycle` exactly where a change that it overlaps depends on the tail, as `Full(Heads)` and
    /// `Full(Numbers)`, and as `Memory`. The head stays as it is.
    pub fn member_room(
        &mut self,
        gates: Gates,
        block: BlockNo,
        span: Span,
    ) -> Result<(PatchNo, Grade), Fault>
        requires block { block.0 < self.old.blocks }
        requires gates { ArePaired self.old.heads self.old.numbers gates.head gates.tail }
        ensures ok { IfOk result (λ made. ForetellsSparse (unprepared self.old) gates.head block.0 span.at span.len made.0.0 made.1) }
        ensures prepared { IfOk result (λ made. self.new ≡ record self.old { prepared = Some (member_for gates.head block.0 span.at span.len made.0.0 made.1) }) }
        ensures clear { OnOk result (NoneHolds (member_order self.old.heads self.old.numbers gates.tail block.0 span.at span.len)) }
        ensures next { IfOk result (λ made. made.0.0 ≡ self.old.numbers + 1) }
        ensures refused { IfErr result (Refuses (member_order self.old.heads self.old.numbers gates.tail block.0 span.at span.len)) }
        ensures same { OnErr result (self.new ≡ unprepared self.old) }
        ensures blocks { self.new.blocks ≡ self.old.blocks }
    {
        let standing = self.standing();
        let_go(&mut self.prepared);
        let sight = Sight {
            heads: &self.columns.heads,
            lists: &self.lists,
            covers: &self.covers,
            levels: &self.columns.levels,
            needs: &self.needs,
        };
        if reaches_tail(&sight, &mut self.columns.ends, gates.tail, block.0, span) {
            return Err(Fault::Cycle);
        }
        if let Some(fault) = room_fault(standing, self.numbers) {
            return Err(fault);
        }
        let Ok(prepared) = prepare_member(
            self.alloc,
            &sight,
            &mut self.columns.ends,
            block.0,
            span,
            gates,
        ) else {
            return Err(Fault::Memory);
        };
        let made = (PatchNo(self.numbers + 1), prepared.told.grade);
        let around = reserve_around(&mut self.columns, &mut self.landed, &prepared);
        if around.is_err() {
            return Err(given_up(prepared));
        }
        let inside = reserve_in(
            &mut self.lists,
            &mut self.covers,
            &mut self.needs,
            &self.columns.heads,
            &prepared,
        );
        if inside.is_err() {
            return Err(given_up(prepared));
        }
        keep(&mut self.prepared, prepared);
        Ok(made)
    }

    /// Whether a change of the group with that head and these arguments is prepared.
    pub fn is_member_prepared(&self, head: PatchNo, block: BlockNo, span: Span) -> bool
        ensures { IsTrue result ↔ ((number : ℕ) × (grade : Grade) × (self.now.prepared ≡ Some (member_for head.0 block.0 span.at span.len number grade))) }
    {
        match &self.prepared {
            Some(prepared) => prepared.is_for_group(head.0, block.0, span),
            None => false,
        }
    }

    /// The block and the bytes of the change that is prepared, if there is one.
    pub fn prepared_span(&self) -> Option<(BlockNo, Span)>
        ensures none { IfNone result (self.now.prepared ≡ None) }
        ensures some { IfSome result (λ at. (p : Prepared) × (self.now.prepared ≡ Some p) × (p.block ≡ at.0.0) × (p.at ≡ at.1.at) × (p.len ≡ at.1.len)) }
    {
        match &self.prepared {
            Some(prepared) => Some((BlockNo(prepared.block), prepared.span)),
            None => None,
        }
    }

    // As `begin_member`, but what was put behind the head stays at the top. Answers whether the head was open.
    fn seal_head(&mut self, head: u32) -> bool
        requires { (p : Prepared) × (self.old.prepared ≡ Some p) × (p.group ≡ Some head) }
        ensures begun { SealsIfOpen (unprepared self.old) head (unprepared self.new) }
        ensures prepared { self.new.prepared ≡ self.old.prepared }
        ensures closed { IsOpenNumber self.new.heads head → ⊥ }
    {
        match gate_index(&self.columns.heads, self.numbers, head) {
            Ok(index) => {
                seal_at(
                    &mut self.columns.heads,
                    &mut self.columns.queue,
                    head,
                    index,
                );
                let landed = cascade(
                    &mut self.columns.heads,
                    &mut self.columns.queue,
                    &mut self.standings,
                    &mut self.landed,
                );
                self.columns.levels.lower(&self.columns.heads, index);
                // The gates below the head may have had other ancestors when it was put after them.
                renew(&mut self.columns.levels, &self.columns.heads, head);
                self.live -= landed;
                true
            }
            Err(_) => false,
        }
    }

    // Seals the head of the group for which a change is prepared, if it is open, and puts on disk what now rests there. The
    // change stays prepared.
    fn begin_member(&mut self, head: u32)
        requires { (p : Prepared) × (self.old.prepared ≡ Some p) × (p.group ≡ Some head) }
        ensures begun { SealsIfOpen (unprepared self.old) head (unprepared self.new) }
        ensures prepared { self.new.prepared ≡ self.old.prepared }
        ensures closed { IsOpenNumber self.new.heads head → ⊥ }
    {
        if self.seal_head(head) {
            self.come_down(head);
        }
    }

    /// Puts down the change that is prepared for the group with that head, which is sealed if it is open; then the tail
    /// depends on the change. It takes no memory.
    pub fn add_member(&mut self, head: u32) -> (PatchNo, Grade)
        requires { (p : Prepared) × (self.old.prepared ≡ Some p) × (p.group ≡ Some head) }
        ensures added { IfSome self.old.prepared (λ p. GainsSparse (unprepared self.old) head (head + 1) p.block p.at p.len result.0.0 result.1 self.new) }
        ensures foreseen { IfSome self.old.prepared (λ p. (result.0.0 ≡ p.number) × (result.1 ≡ p.grade)) }
        ensures blocks { self.new.blocks ≡ self.old.blocks }
    {
        let _ = &self.columns.heads;
        self.begin_member(head);
        self.put()
    }
}
