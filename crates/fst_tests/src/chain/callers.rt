//! Callers: what a cursor did to its chain is known once the cursor is gone, and a record of a few words is small enough.
ghost use Rattle.std.specs.Prelude.{◌≡◌, ◌+◌, ◌^◌, ◌<◌, length, IsTrue};
ghost use Rattle.fst_chain.specs.Records.{without, payload_at, set_payload, set_item, chain_list};

use fst_chain::Chain;

#[derive(Clone, Copy)]
pub enum Kind {
    Hard,
    Soft,
}

#[derive(Clone, Copy)]
pub struct Record {
    pub no: u32,
    pub kind: Kind,
}

pub fn add(chain: &mut Chain<Record>, item: Record, payload: &[u8]) -> bool
    requires { length (chain_list chain.old) < 2 ^ 32 }
    ensures { IsTrue result → length (chain_list chain.new) ≡ length (chain_list chain.old) + 1 }
{
    chain.push_back(item, payload).is_ok()
}

pub fn remove_first(chain: &mut Chain<Record>)
    ensures { chain_list chain.new ≡ without (chain_list chain.old) 0 }
{
    let mut cursor = chain.cursor_front();
    drop(cursor.remove());
}

pub fn swap_second(chain: &mut Chain<Record>, block: &mut [u8])
    requires two { 1 < length (chain_list chain.old) }
    requires fits { length (payload_at (chain_list chain.old) 1) ≡ length block.old }
    ensures list { chain_list chain.new ≡ set_payload (chain_list chain.old) 1 block.old }
    ensures block { block.new ≡ payload_at (chain_list chain.old) 1 }
{
    let mut cursor = chain.cursor_front();
    cursor.next();
    cursor.swap_payload(block, 0);
}

pub fn set_second(chain: &mut Chain<Record>, item: Record)
    requires { 1 < length (chain_list chain.old) }
    ensures { chain_list chain.new ≡ set_item (chain_list chain.old) 1 item }
{
    let mut cursor = chain.cursor_front();
    cursor.next();
    if let Some(current) = cursor.current_mut() {
        *current = item;
    }
}
