//! Accounts, with a journal.
//!
//! Each account has a block, in which stands what it has. Behind them is the commit record, with the number of the
//! transfer that is committed, and last the journal, with the record of the newest transfer. A transfer changes the
//! journal, then the commit record, then both accounts, each after the one before; the record of the next transfer comes
//! after all of it. So a crash leaves either no commit record of a transfer, or its record whole, from which it is made
//! good on opening.

ghost use Rattle.std.specs.Prelude.{OnOk, IfErr};
ghost use Rattle.journal_calls.specs.Exhausted.{IsDurable};
ghost use Rattle.journal_parts.specs.Syncing.{IsSyncRefused};

use crate::fault::StoreFault;
use crate::record::{Balance, Record, SIZE, number_of};
use fst_cache::{Cache, Share};
use fst_device::BlockSlot;
use fst_types::{BlockNo, Fault, PatchNo, Shape};
use journal_calls::{ALL_WRITES, Written, patch_or_write, write_until};
use std::alloc::Global;
use std::marker::Model;

/// How many accounts there are.
pub const ACCOUNTS: u32 = 6;

/// How many blocks a store has.
pub const BLOCKS: u32 = ACCOUNTS + 2;

const COMMIT: BlockNo = BlockNo(ACCOUNTS);

const JOURNAL: BlockNo = BlockNo(ACCOUNTS + 1);
// What each account of a new store has.
const START: u32 = 100;

/// The bytes of a block of a new store.
pub fn new_block(block: u32) -> [u8; 16] {
    let mut bytes = [0; 16];
    if block < ACCOUNTS {
        bytes[..4].copy_from_slice(&START.to_le_bytes());
    }
    bytes
}

/// Accounts on a device. What was not synced may be lost when they are let go of.
#[derive(Drop)]
pub struct Accounts<S: BlockSlot> {
    cache: Cache<S>,
    share: Share,
    transfers: u32,
    last: Option<PatchNo>,
}

impl<S: BlockSlot> Model for Accounts<S> {
    ghost use Rattle.journal_parts.specs.Views.{AccountsView, kept_in};

    ghost Value = { AccountsView };

    ghost view = { λ a. kept_in a.cache };
}

impl<S: BlockSlot> Accounts<S> {
    /// The accounts on these slots. Where the newest transfer was committed, it is made good first.
    pub fn open(alloc: Global, slots: Vec<S>) -> Result<Accounts<S>, StoreFault> {
        let shape = Shape::new(BLOCKS, SIZE, BLOCKS)?;
        let mut cache = Cache::open(alloc, shape, slots)?;
        let mut accounts = Accounts {
            share: cache.share(),
            cache,
            transfers: 0,
            last: None,
        };
        match accounts.replay() {
            Ok(()) => Ok(accounts),
            Err(fault) => {
                drop(accounts);
                Err(fault)
            }
        }
    }

    // Makes the committed transfer good.
    fn replay(&mut self) -> Result<(), StoreFault> {
        self.transfers = number_of(self.cache.show(COMMIT)?);
        let Some(record) = Record::from_bytes(self.cache.show(JOURNAL)?) else {
            return Ok(());
        };
        if record.number != self.transfers {
            return Ok(());
        }
        let done = self.settle_accounts(&record, &[])?;
        self.sync(done)
    }

    // Changes both accounts of a transfer, after these patches. The answer is a patch that stands for both changes.
    fn settle_accounts(&mut self, record: &Record, after: &[PatchNo]) -> Result<PatchNo, Fault> {
        let from = self.set(record.from, after)?;
        let to = self.set(record.to, after)?;
        self.cache.empty(&mut self.share, &[from, to])
    }

    fn set(&mut self, balance: Balance, after: &[PatchNo]) -> Result<PatchNo, Fault> {
        let block = BlockNo(u32::from(balance.block));
        self.patch(block, &balance.amount.to_le_bytes(), after)
    }

    fn patch(&mut self, block: BlockNo, bytes: &[u8], after: &[PatchNo]) -> Result<PatchNo, Fault> {
        patch_or_write(&mut self.cache, &mut self.share, block, 0, bytes, after)
    }

    /// What an account has, transfers that are not on disk among it. Accounts count from 0; `NoTransfer` where there is
    /// none.
    pub fn balance(&mut self, account: u16) -> Result<u32, StoreFault> {
        if u32::from(account) >= ACCOUNTS {
            return Err(StoreFault::NoTransfer);
        }
        Ok(number_of(self.cache.show(BlockNo(u32::from(account)))?))
    }

    /// How many transfers were made, those before opening among them.
    pub fn transfers(&self) -> u32 {
        self.transfers
    }

    // The record of a transfer, where there can be such a one.
    fn record(&mut self, from: u16, to: u16, amount: u32) -> Result<Record, StoreFault> {
        let has = self.balance(from)?;
        let gets = self.balance(to)?;
        let left = has.checked_sub(amount);
        let sum = gets.checked_add(amount);
        let number = self.transfers.checked_add(1);
        match (left, sum, number) {
            (Some(left), Some(sum), Some(number)) if from != to => Ok(Record {
                number,
                from: Balance {
                    block: from,
                    amount: left,
                },
                to: Balance {
                    block: to,
                    amount: sum,
                },
            }),
            _ => Err(StoreFault::NoTransfer),
        }
    }

    /// Transfers an amount from one account to another. The answer is a patch: where that is on disk, so is the
    /// transfer.
    ///
    /// `NoTransfer` where there is no such account, the first has less, the second would have too much, or they are the
    /// same. After any other refusal a part of the transfer may stand: the store is to be opened anew.
    pub fn transfer(&mut self, from: u16, to: u16, amount: u32) -> Result<PatchNo, StoreFault> {
        let record = self.record(from, to, amount)?;
        let committed = self.commit(&record)?;
        let done = self.settle_accounts(&record, &[committed])?;
        self.transfers = record.number;
        self.last = Some(done);
        Ok(done)
    }

    // Changes the journal, after all of the transfer before.
    fn journal(&mut self, record: &Record) -> Result<PatchNo, Fault> {
        let bytes = record.to_bytes();
        match self.last {
            Some(last) => self.patch(JOURNAL, &bytes, &[last]),
            None => self.patch(JOURNAL, &bytes, &[]),
        }
    }

    // Changes the journal, and after it the commit record. The answer is that last change.
    fn commit(&mut self, record: &Record) -> Result<PatchNo, Fault> {
        let journalled = self.journal(record)?;
        self.patch(COMMIT, &record.number.to_le_bytes(), &[journalled])
    }

    /// Writes until a patch is on disk.
    ///
    /// `Stuck` where it is not, and nothing more can be written, or as many writes were made as all changes that there
    /// can be may take. Any other refusal is that of a write that could not be sent out.
    pub fn sync(&mut self, patch: PatchNo) -> Result<(), StoreFault>
        ensures on_disk { OnOk result (IsDurable self.new.cache.state patch.0) }
        ensures refused { IfErr result (IsSyncRefused self.old.cache.state self.new.cache.state patch.0) }
    {
        match write_until(&mut self.cache, patch, ALL_WRITES)? {
            Written::OnDisk => Ok(()),
            Written::Stuck | Written::Spent => Err(StoreFault::Stuck),
        }
    }
}
