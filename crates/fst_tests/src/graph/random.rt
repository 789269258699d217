//! Random graphs beside their plain twins: after each call every answer is compared, with the twin's and with the graph's
//! own by a walk over all patches.

use crate::dice::Dice;
use crate::graph::checked::Checked;
use crate::graph::twin::Twin;
use crate::list::push;
use crate::same::{same, same_change};
use fst_types::{BlockNo, GroupNo, PatchNo, Span};
use std::alloc::Global;
use std::process::Abort;

impl Dice {
    // A number that was given, of the last ones more often, and at times one that was not.
    fn name(&mut self, numbers: u32) -> PatchNo {
        let back = match self.roll(32) {
            0 => return PatchNo(numbers.saturating_add(self.roll(2))),
            1..=15 => 6,
            _ => numbers,
        };
        PatchNo(numbers.saturating_sub(self.roll(back.min(numbers).max(1))))
    }

    // Whether a coin shows its head.
    fn flip(&mut self) -> bool {
        self.roll(2) == 0
    }

    // One of so many blocks, of which there are some.
    fn block(&mut self, blocks: u32) -> BlockNo {
        BlockNo(self.roll(blocks.max(1)))
    }

    // Some bytes of a block.
    fn span(&mut self) -> Span {
        let at = self.roll(4);
        let len = 1 + self.roll(4 - at);
        Span { at, len }
    }

    // Some numbers of patches.
    fn names(&mut self, rt: &impl Abort, twin: &Twin) -> Vec<PatchNo> {
        let mut names = Vec::new(twin.alloc);
        let numbers = twin.numbers();
        if numbers != 0 {
            for _ in 0..self.roll(4) {
                push(rt, &mut names, self.name(numbers));
            }
        }
        names
    }
}

// A change, which `room` may foresee.
fn change(rt: &impl Abort, graph: &mut Checked, twin: &mut Twin, dice: &mut Dice) {
    let block = dice.block(twin.blocks);
    let span = dice.span();
    let names = dice.names(rt, twin);
    let is_foreseen = dice.flip();
    let answer = twin.try_data(rt, block, span, &names);
    if is_foreseen {
        same_change(rt, graph.room(rt, block.0, span, &names), answer);
    }
    same_change(rt, graph.change(rt, block.0, span, &names), answer);
}

fn empty(rt: &impl Abort, graph: &mut Checked, twin: &mut Twin, dice: &mut Dice) {
    let names = dice.names(rt, twin);
    let answer = twin.try_empty(rt, &names);
    same(rt, &graph.empty(&names), &answer);
}

fn gate(rt: &impl Abort, graph: &mut Checked, twin: &mut Twin) {
    let answer = twin.try_gate(rt);
    same(rt, &graph.gate(), &answer);
}

fn depend(rt: &impl Abort, graph: &mut Checked, twin: &mut Twin, dice: &mut Dice) {
    let gate = dice.name(twin.numbers());
    let names = dice.names(rt, twin);
    let answer = twin.try_depend(rt, gate, &names);
    same(rt, &graph.depend(gate, &names), &answer);
}

fn seal(rt: &impl Abort, graph: &mut Checked, twin: &mut Twin, gate: PatchNo) {
    let answer = twin.try_seal(gate);
    same(rt, &graph.seal(gate), &answer);
}

fn seal_one(rt: &impl Abort, graph: &mut Checked, twin: &mut Twin, dice: &mut Dice) {
    let gate = dice.name(twin.numbers());
    seal(rt, graph, twin, gate);
}

// A group, of the last ones more often, and at times a number that is none.
fn group_name(twin: &Twin, dice: &mut Dice) -> GroupNo {
    let count = twin.group_count().min(4_096) as u32;
    let index = dice.roll(count.min(4).max(1));
    match twin.group_at(count.saturating_sub(index + 1) as usize) {
        Some(group) => group,
        None => GroupNo(dice.name(twin.numbers()).0),
    }
}

fn group(rt: &impl Abort, graph: &mut Checked, twin: &mut Twin) {
    let answer = twin.try_group_new(rt);
    same(rt, &graph.group(), &answer);
}

fn group_after(rt: &impl Abort, graph: &mut Checked, twin: &mut Twin, dice: &mut Dice) {
    let late = group_name(twin, dice);
    let early = group_name(twin, dice);
    let answer = twin.try_group_after(rt, late, early);
    same(rt, &graph.group_after(late, early), &answer);
}

// A change for a group, which `group_room` may foresee.
fn member(rt: &impl Abort, graph: &mut Checked, twin: &mut Twin, dice: &mut Dice) {
    let group = group_name(twin, dice);
    let block = dice.block(twin.blocks);
    let span = dice.span();
    let is_foreseen = dice.flip();
    let answer = twin.try_member(rt, group, block, span);
    if is_foreseen {
        same_change(rt, graph.group_room(rt, group, block.0, span), answer);
    }
    same_change(rt, graph.member(rt, group, block.0, span), answer);
}

fn group_close(rt: &impl Abort, graph: &mut Checked, twin: &mut Twin, group: GroupNo) {
    let answer = twin.try_group_close(group);
    same(rt, &graph.group_close(group), &answer);
}

fn close_one(rt: &impl Abort, graph: &mut Checked, twin: &mut Twin, dice: &mut Dice) {
    let group = group_name(twin, dice);
    group_close(rt, graph, twin, group);
}

// Puts the least writable block in flight, and answers which it is.
fn launch(rt: &impl Abort, graph: &mut Checked, twin: &mut Twin) -> Option<BlockNo> {
    let Some((block, chosen)) = graph.launch_next(rt) else {
        return None;
    };
    twin.launch(&chosen);
    Some(block)
}

fn land(graph: &mut Checked, twin: &mut Twin, block: BlockNo) {
    graph.land(block.0);
    twin.land(block);
}

fn forget(rt: &impl Abort, graph: &mut Checked, twin: &mut Twin) {
    let count = twin.forget();
    same(rt, &(graph.forget() as usize), &count);
}

// One random call.
fn step(rt: &impl Abort, graph: &mut Checked, twin: &mut Twin, dice: &mut Dice) {
    let blocks = twin.blocks;
    match dice.roll(40) {
        0..=10 => change(rt, graph, twin, dice),
        11 | 12 => empty(rt, graph, twin, dice),
        13 | 14 => gate(rt, graph, twin),
        15..=17 => depend(rt, graph, twin, dice),
        18 | 19 => seal_one(rt, graph, twin, dice),
        20 | 21 => {
            launch(rt, graph, twin);
        }
        22 | 23 => group(rt, graph, twin),
        24..=27 => group_after(rt, graph, twin, dice),
        28 => close_one(rt, graph, twin, dice),
        29..=36 => member(rt, graph, twin, dice),
        37 | 38 => land(graph, twin, dice.block(blocks)),
        _ => forget(rt, graph, twin),
    }
}

fn compare_places(rt: &impl Abort, graph: &Checked, twin: &Twin) {
    for number in 0..=twin.numbers().saturating_add(1) {
        let no = PatchNo(number);
        same(rt, &(no, graph.place(no)), &(no, twin.place(no)));
    }
    same(rt, &(graph.live() as usize), &twin.live());
}

fn compare_block(rt: &impl Abort, graph: &mut Checked, twin: &Twin, block: BlockNo) {
    let chosen = graph.chosen(rt, block.0);
    same(rt, &(block, chosen), &(block, twin.chosen(rt, block)));
    let held = graph.held(block.0);
    same(rt, &(block, held), &(block, twin.hard_held(rt, block)));
}

fn compare(rt: &impl Abort, graph: &mut Checked, twin: &Twin) {
    compare_places(rt, graph, twin);
    for block in 0..twin.blocks {
        compare_block(rt, graph, twin, BlockNo(block));
    }
    same(rt, &graph.pick(), &twin.pick(rt));
}

fn seal_all(rt: &impl Abort, graph: &mut Checked, twin: &mut Twin) {
    for number in 1..=twin.numbers() {
        seal(rt, graph, twin, PatchNo(number));
    }
}

fn close_all(rt: &impl Abort, graph: &mut Checked, twin: &mut Twin) {
    for index in 0..twin.group_count() {
        if let Some(group) = twin.group_at(index) {
            group_close(rt, graph, twin, group);
        }
    }
}

// Writes block after block, once for each number that was given.
fn write_all(rt: &impl Abort, graph: &mut Checked, twin: &mut Twin) {
    for _ in 0..=twin.numbers() {
        if let Some(block) = launch(rt, graph, twin) {
            land(graph, twin, block);
        }
    }
}

// With every gate sealed, and block after block written, nothing is left that is not on disk.
fn finish(rt: &impl Abort, graph: &mut Checked, twin: &mut Twin) {
    seal_all(rt, graph, twin);
    close_all(rt, graph, twin);
    for block in 0..twin.blocks {
        land(graph, twin, BlockNo(block));
    }
    compare(rt, graph, twin);
    write_all(rt, graph, twin);
    compare_places(rt, graph, twin);
    same(rt, &graph.live(), &0);
}

// A graph of three or four blocks beside its twin, over random calls.
fn play(rt: &impl Abort, alloc: Global, dice: &mut Dice) {
    let blocks = 3 + dice.roll(2);
    let mut graph = Checked::new(rt, alloc, blocks, 0);
    let mut twin = Twin::new(alloc, blocks);
    for _ in 0..40 {
        step(rt, &mut graph, &mut twin, dice);
        compare(rt, &mut graph, &twin);
    }
    finish(rt, &mut graph, &mut twin);
    graph.end();
    twin.end();
}

#[test]
fn random_graphs(rt: HostRuntime) {
    let mut dice = Dice { state: 1 };
    for _ in 0..200 {
        play(&rt, rt.alloc(), &mut dice);
    }
}
