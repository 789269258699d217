//! What a crew prints.

ghost use Rattle.std.specs.Prelude.{◌≡◌, ◌++◌, OnOk, IfOk, map, string_bytes};
ghost use Rattle.std.specs.List.{range_with_len};
ghost use Rattle.fst_types.specs.Bytes.{bytes_of};
ghost use Rattle.fst_crew.specs.Crewing.{block_line, told};

use crate::fault::CrewFault;
use crate::plan::CREW_BLOCKS;
use fst_cache::Cache;
use fst_device::BlockSlot;
use fst_types::BlockNo;
use std::alloc::{AllocError, Global};

fn add_line(alloc: Global, text: &mut String, block: u32, bytes: &[u8]) -> Result<(), AllocError>
    ensures { OnOk result (string_bytes text.new ≡ string_bytes text.old ++ block_line block bytes.now) }
{
    let shown = hex::encode(alloc, bytes)?;
    writeln!(text, "block {block} {shown}")
}

/// How many changes were made, and what each block holds. All of it is made before anything is printed, so that a
/// refusal prints nothing.
pub fn report<S: BlockSlot>(
    alloc: Global,
    made: u64,
    cache: &mut Cache<S>,
) -> Result<String, CrewFault>
    ensures { IfOk result (λ text. string_bytes text ≡ told made (map (bytes_of cache.old.state) (range_with_len 0 8))) }
{
    let mut text = format!(in alloc; "made {made}\n")?;
    for block in 0..CREW_BLOCKS {
        let bytes = cache.show(BlockNo(block))?;
        add_line(alloc, &mut text, block, bytes)?;
    }
    Ok(text)
}
