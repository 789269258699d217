//! What a row of a script tells. A row is a line with its reply behind an arrow.

/// The number that stands behind these signs, where the row has them.
pub fn number(row: &str, before: &str) -> Option<u32> {
    let Some((_, rest)) = row.split_once(before) else {
        return None;
    };
    let mut number = 0u32;
    for byte in rest.as_bytes() {
        let digit = byte.wrapping_sub(b'0');
        if digit > 9 {
            break;
        }
        number = number.saturating_mul(10).saturating_add(u32::from(digit));
    }
    Some(number)
}

/// The block whose write goes out.
pub fn sent(row: &str) -> Option<u32> {
    match number(row, " -> flight ") {
        Some(_) => number(row, " block "),
        None => None,
    }
}

/// The block whose write works.
pub fn landed(row: &str) -> Option<u32> {
    match number(row, " -> done ") {
        Some(_) => number(row, " block "),
        None => None,
    }
}

// The first two signs behind these.
fn two_signs(row: &str, before: &str) -> Option<(u8, u8)> {
    let Some((_, rest)) = row.split_once(before) else {
        return None;
    };
    match (rest.as_bytes().first(), rest.as_bytes().get(1)) {
        (Some(first), Some(second)) => Some((*first, *second)),
        _ => None,
    }
}

// Where the reply to a crash tells the first byte.
const FIRST_BYTE: usize = 6;

/// Of the change of one byte that is made: where the reply to a crash tells that byte, over blocks of four bytes, and by
/// which two signs.
pub fn made(row: &str) -> Option<(usize, u8, u8)> {
    if number(row, " -> patch ").is_none() {
        return None;
    }
    let block = number(row, "\"block\":").unwrap_or(0) as usize;
    let at = number(row, "\"at\":").unwrap_or(0) as usize;
    let place = FIRST_BYTE + 9 * block + 2 * at;
    match two_signs(row, "\"data\":\"") {
        Some((first, second)) => Some((place, first, second)),
        None => None,
    }
}
