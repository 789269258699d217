//! What a crash may leave of the groups of a script: where any change of a group is left, each group that it comes after is
//! closed, and all its changes are left. All of it is told from the rows so far.

use crate::scripts::told::{landed, made, number, sent};

// Whether the write of the block is out after these rows.
fn is_out(rows: &[&str], block: u32) -> bool {
    let mut is_out = false;
    for row in rows {
        if landed(row) == Some(block) {
            is_out = false;
        }
        if sent(row) == Some(block) {
            is_out = true;
        }
    }
    is_out
}

/// Whether the writes of these blocks are out after these rows.
pub fn are_out(rows: &[&str], blocks: &[u32]) -> bool {
    for block in blocks {
        if !is_out(rows, *block) {
            return false;
        }
    }
    true
}

// Whether the group is closed after these rows.
fn is_closed(rows: &[&str], group: u32) -> bool {
    for row in rows {
        if number(row, " -> group_close ") == Some(group) {
            return true;
        }
    }
    false
}

// Whether the reply to a crash has these two signs there.
fn is_left(reply: &str, place: usize, first: u8, second: u8) -> bool {
    let told = reply.as_bytes();
    match (told.get(place), told.get(place.saturating_add(1))) {
        (Some(one), Some(other)) => *one == first && *other == second,
        _ => false,
    }
}

// How many changes of the group the crash leaves, and how many there are.
fn left_of(rows: &[&str], reply: &str, group: u32) -> (usize, usize) {
    let mut left = 0usize;
    let mut all = 0usize;
    for row in rows {
        if let Some((place, first, second)) = made(row)
            && number(row, "\"group\":") == Some(group)
        {
            all = all.saturating_add(1);
            if is_left(reply, place, first, second) {
                left = left.saturating_add(1);
            }
        }
    }
    (left, all)
}

/// Whether the crash that has this reply leaves the groups in order.
pub fn is_in_order(rows: &[&str], order: &[(u32, u32)], reply: &str) -> bool {
    for (later, earlier) in order {
        let (begun, _) = left_of(rows, reply, *later);
        let (left, all) = left_of(rows, reply, *earlier);
        if begun > 0 && !(left == all && is_closed(rows, *earlier)) {
            return false;
        }
    }
    true
}

/// Whether the crash that has this reply leaves the change of each group.
pub fn is_whole(rows: &[&str], reply: &str) -> bool {
    for row in rows {
        if let Some((place, first, second)) = made(row)
            && !is_left(reply, place, first, second)
        {
            return false;
        }
    }
    true
}
