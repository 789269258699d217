//! The groups, in order of number. A group stays where it is, closed or not.

ghost use Rattle.std.specs.Prelude.{◌≡◌, ◌↔◌, ◌<◌, ◌++◌, ◌∷◌, [], true, length, All, IsTrue, IfSome, IfNone, OnOk};
ghost use Rattle.fst_types.specs.Groups.{Group as View, IsGroup, IsGroupNumber, IsGroupGate, with_group};
ghost use Rattle.fst_types.specs.Grouping.{new_group};
ghost use Rattle.fst_types.specs.Order.{group_close_order};
ghost use Rattle.fst_types.specs.Refusals.{IsFirst, NoneHolds};
ghost use Rattle.fst_graph.specs.Gathered.{group_of, groups_of, AreKept, HasGroupIndex, HasNoGroup, IsToldBegun};
ghost use Rattle.fst_graph.specs.Grouping.{unstarted_order};

use crate::group::{Group, no_numbers, with_number};
use fst_types::Fault;
use std::alloc::{AllocError, Global};
use std::marker::Model;

/// The groups, by their numbers. Each takes eight bytes.
#[derive(Drop)]
pub struct Groups {
    items: Vec<Group>,
}

impl Model for Groups {
    ghost use Rattle.std.specs.Prelude.{◌-◌, vec_len, vec_capacity};
    ghost use Rattle.fst_graph.specs.Gathered.{Gathered, groups_of, AreKept};

    ghost Value = { Gathered };

    ghost view = { λ g. record { items = groups_of g.items.items; room = vec_capacity g.items - vec_len g.items } };

    ghost invariant = { λ g. AreKept g.items.items };
}

// The index of the group with this number.
fn index_of_group(groups: &[Group], number: u32) -> Option<usize>
    requires { AreKept groups.now }
    ensures found { IfSome result (λ index. HasGroupIndex groups.now number index) }
    ensures none { IfNone result (HasNoGroup groups.now number) }
{
    match groups.binary_search_by_key(&number, |group| group.head) {
        Ok(index) => Some(index),
        Err(_) => None,
    }
}

// Whether the number is that of a group.
fn is_group(groups: &[Group], number: u32) -> bool
    requires { AreKept groups.now }
    ensures { IsTrue result ↔ IsGroupNumber (groups_of groups.now) number }
{
    match index_of_group(groups, number) {
        Some(_) => true,
        None => false,
    }
}

impl Groups {
    /// No groups.
    pub fn new(alloc: Global) -> Groups
        ensures { result.items ≡ [] }
    {
        Groups {
            items: Vec::new(alloc),
        }
    }

    /// How many they are.
    pub fn len(&self) -> usize
        ensures { result ≡ length self.now.items }
    {
        self.items.len()
    }

    /// The group with this number.
    pub fn get(&self, number: u32) -> Option<&Group>
        ensures some { IfSome result (λ g. IsGroup self.now.items number (group_of g.now)) }
        ensures begun { IfSome result (λ g. IsToldBegun g.now) }
        ensures only { IfSome result (λ g. (h : View) → IsGroup self.now.items number h → h ≡ group_of g.now) }
        ensures narrow { IfSome result (λ g. number < 4294967295) }
        ensures none { IfNone result (IsGroupNumber self.now.items number → ⊥) }
    {
        match index_of_group(&self.items, number) {
            Some(index) => Some(&self.items[index]),
            None => None,
        }
    }

    /// Whether the number is that of the head or the tail of a group.
    pub fn has_gate(&self, number: u32) -> bool
        ensures { IsTrue result ↔ IsGroupGate self.now.items number }
    {
        is_group(&self.items, number) || number > 0 && is_group(&self.items, number - 1)
    }

    /// Why the group cannot be closed.
    pub fn close_fault(&self, number: u32) -> Option<Fault>
        ensures first { IfSome result (IsFirst (group_close_order self.now.items number)) }
        ensures clear { IfNone result (NoneHolds (group_close_order self.now.items number)) }
        ensures found { IfNone result (IsGroupNumber self.now.items number) }
        ensures narrow { IfNone result (number < 4294967295) }
    {
        let Some(group) = self.get(number) else {
            return Some(Fault::NoPatch);
        };
        if group.closed {
            return Some(Fault::Sealed);
        }
        None
    }

    /// Why the group cannot be put after the other, whatever depends on what.
    pub fn after_fault(&self, number: u32, other: u32) -> Option<Fault>
        ensures first { IfSome result (IsFirst (unstarted_order self.now.items number other)) }
        ensures clear { IfNone result (NoneHolds (unstarted_order self.now.items number other)) }
        ensures found { IfNone result (IsGroupNumber self.now.items number) }
        ensures other { IfNone result (IsGroupNumber self.now.items other) }
        ensures narrow { IfNone result (other < 4294967295) }
    {
        let Some(group) = self.get(number) else {
            return Some(Fault::NoPatch);
        };
        let Some(_) = self.get(other) else {
            return Some(Fault::NoPatch);
        };
        if group.closed {
            return Some(Fault::Sealed);
        }
        if group.begun {
            return Some(Fault::GroupBegun);
        }
        None
    }

    /// Makes room for one more.
    pub fn reserve(&mut self) -> Result<(), AllocError>
        ensures items { self.new.items ≡ self.old.items }
        ensures room { OnOk result (0 < self.new.room) }
    {
        self.items.reserve(1)
    }

    /// A new group, whose number is past those of all tails. It takes no memory.
    pub fn add(&mut self, number: u32)
        requires room { 0 < self.old.room }
        requires past { All (λ g. g.tail < number) self.old.items }
        requires narrow { number < 4294967295 }
        ensures { self.new.items ≡ self.old.items ++ new_group number ∷ [] }
    {
        self.items.push_reserved(Group {
            head: number,
            begun: false,
            closed: false,
            members: no_numbers(),
            after: no_numbers(),
        });
    }

    /// The change was made for the group.
    pub fn note_member(&mut self, group: u32, change: u32)
        ensures { self.new.items ≡ with_group self.old.items group (λ g. record g { members = g.members ++ change ∷ [] }) }
    {
        if let Some(index) = index_of_group(&self.items, group) {
            let group = &mut self.items[index];
            group.begun = true;
            group.members = with_number(&group.members, change);
        }
    }

    /// The group was put after the other.
    pub fn note_after(&mut self, group: u32, other: u32)
        ensures { self.new.items ≡ with_group self.old.items group (λ g. record g { after = g.after ++ other ∷ [] }) }
    {
        if let Some(index) = index_of_group(&self.items, group) {
            let group = &mut self.items[index];
            group.after = with_number(&group.after, other);
        }
    }

    /// The group is closed.
    pub fn close(&mut self, group: u32)
        ensures { self.new.items ≡ with_group self.old.items group (λ g. record g { closed = true }) }
    {
        if let Some(index) = index_of_group(&self.items, group) {
            self.items[index].closed = true;
        }
    }
}
