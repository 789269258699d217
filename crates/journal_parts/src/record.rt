//! What the journal says of a transfer.

/// The bytes of a block.
pub const SIZE: u32 = 16;

/// A transfer, as the journal has it: its number, which is never 0, and for both accounts the block and what is in it
/// afterwards.
#[derive(Clone, Copy, PartialEq, Eq, Debug)]
pub struct Record {
    pub number: u32,
    pub from: Balance,
    pub to: Balance,
}

/// What an account is to have.
#[derive(Clone, Copy, PartialEq, Eq, Debug)]
pub struct Balance {
    pub block: u16,
    pub amount: u32,
}

/// The number at the start of a block, or 0 where it has no four bytes.
pub fn number_of(bytes: &[u8]) -> u32 {
    match bytes {
        [first, second, third, fourth, ..] => {
            u32::from_le_bytes([*first, *second, *third, *fourth])
        }
        _ => 0,
    }
}

// The block that two bytes name, or 0 where they are fewer.
fn block_of(bytes: &[u8]) -> u16 {
    match bytes {
        [first, second, ..] => u16::from_le_bytes([*first, *second]),
        _ => 0,
    }
}

impl Record {
    /// The record as bytes of the journal block.
    pub fn to_bytes(&self) -> [u8; 16] {
        let mut bytes = [0; 16];
        bytes[..4].copy_from_slice(&self.number.to_le_bytes());
        bytes[4..6].copy_from_slice(&self.from.block.to_le_bytes());
        bytes[6..8].copy_from_slice(&self.to.block.to_le_bytes());
        bytes[8..12].copy_from_slice(&self.from.amount.to_le_bytes());
        bytes[12..].copy_from_slice(&self.to.amount.to_le_bytes());
        bytes
    }

    /// The record in a journal block, or none where no transfer was journalled there.
    pub fn from_bytes(bytes: &[u8]) -> Option<Record> {
        if bytes.len() != 16 {
            return None;
        }
        let record = Record {
            number: number_of(&bytes[..4]),
            from: Balance {
                block: block_of(&bytes[4..6]),
                amount: number_of(&bytes[8..12]),
            },
            to: Balance {
                block: block_of(&bytes[6..8]),
                amount: number_of(&bytes[12..]),
            },
        };
        (record.number != 0).then_some(record)
    }
}
