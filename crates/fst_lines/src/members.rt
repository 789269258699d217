//! The members of a script line's JSON object, each read as what it has to be: a number, a list of numbers, bytes in
//! hex, or a failure's name. What is not so is `BadField`, and want of memory is `Memory`.

ghost use Rattle.std.specs.Prelude.{◌≡◌, map, option_map};
ghost use Rattle.serde_json.specs.View.{view, items_view};
ghost use Rattle.fst_lines.specs.Parsing.{block_numbers, patch_numbers, Gives};
ghost use Rattle.fst_lines.specs.Members.{is_one_of, has_only, number_in, numbers_of, numbers_in, failure_in, number_at, long_at, bytes_at, numbers_at, numbers_if_any, failure_if_any};

use crate::failure::Failure;
use fst_types::{BlockNo, Fault, PatchNo};
use serde_json::Value;
use std::alloc::Global;

fn is_one_of(names: &[&str], key: &str) -> bool
    ensures { result ≡ is_one_of (map (λ n. n.now) names.now) key.now }
{
    for name in names {
        if key == *name {
            return true;
        }
    }
    false
}

/// Whether this is an object that has no member but these.
pub fn has_only(names: &[&str], value: &Value) -> bool
    ensures { result ≡ has_only (map (λ n. n.now) names.now) (view value.now) }
{
    let Some(members) = value.as_object() else {
        return false;
    };
    for (key, _) in members {
        if !is_one_of(names, key.as_str()) {
            return false;
        }
    }
    true
}

fn number(value: &Value) -> Option<u32>
    ensures { result ≡ number_in (view value.now) }
{
    match value.as_u64() {
        Some(n) if n <= 4_294_967_295 => Some(n as u32),
        _ => None,
    }
}

/// The number of a member, if it is there and is one.
pub fn number_at(value: &Value, name: &str) -> Option<u32>
    ensures { result ≡ number_at name.now (view value.now) }
{
    number(value.get(name)?)
}

/// The number of 64 bits of a member, if it is there and is one.
pub fn long_at(value: &Value, name: &str) -> Option<u64>
    ensures { result ≡ long_at name.now (view value.now) }
{
    value.get(name)?.as_u64()
}

/// The bytes in hex that have to be there.
pub fn bytes_at(alloc: Global, value: &Value, name: &str) -> Result<Vec<u8>, Fault>
    ensures { Gives (λ v. v.items) result (bytes_at name.now (view value.now)) }
{
    let Some(text) = value.get(name).and_then(Value::as_str) else {
        return Err(Fault::BadField);
    };
    match hex::decode(alloc, text) {
        Ok(bytes) => Ok(bytes),
        Err(hex::FromHexError::OutOfMemory) => Err(Fault::Memory),
        Err(_) => Err(Fault::BadField),
    }
}

fn patches(alloc: Global, values: &[Value]) -> Result<Vec<PatchNo>, Fault>
    ensures { Gives (λ v. patch_numbers v.items) result (numbers_of (items_view values.now)) }
{
    let mut patches = Vec::new(alloc);
    for value in values {
        let Some(n) = number(value) else {
            return Err(Fault::BadField);
        };
        if patches.push(PatchNo(n)).is_err() {
            return Err(Fault::Memory);
        }
    }
    Ok(patches)
}

fn patches_in(alloc: Global, value: &Value) -> Result<Vec<PatchNo>, Fault>
    ensures { Gives (λ v. patch_numbers v.items) result (numbers_in (view value.now)) }
{
    match value.as_array() {
        Some(values) => patches(alloc, values.as_slice()),
        None => Err(Fault::BadField),
    }
}

/// The patches of a list that has to be there.
pub fn patches_at(alloc: Global, value: &Value, name: &str) -> Result<Vec<PatchNo>, Fault>
    ensures { Gives (λ v. patch_numbers v.items) result (numbers_at name.now (view value.now)) }
{
    match value.get(name) {
        Some(found) => patches_in(alloc, found),
        None => Err(Fault::BadField),
    }
}

/// The patches of a list that may be left out, which is then empty.
pub fn patches_if_any(alloc: Global, value: Option<&Value>) -> Result<Vec<PatchNo>, Fault>
    ensures { Gives (λ v. patch_numbers v.items) result
        (numbers_if_any (option_map (λ v. view v.now) value.entry)) }
{
    match value {
        Some(found) => patches_in(alloc, found),
        None => Ok(Vec::new(alloc)),
    }
}

fn blocks(alloc: Global, values: &[Value]) -> Result<Vec<BlockNo>, Fault>
    ensures { Gives (λ v. block_numbers v.items) result (numbers_of (items_view values.now)) }
{
    let mut blocks = Vec::new(alloc);
    for value in values {
        let Some(n) = number(value) else {
            return Err(Fault::BadField);
        };
        if blocks.push(BlockNo(n)).is_err() {
            return Err(Fault::Memory);
        }
    }
    Ok(blocks)
}

/// The blocks of a list that may be left out, which is then empty.
pub fn blocks_if_any(alloc: Global, value: Option<&Value>) -> Result<Vec<BlockNo>, Fault>
    ensures { Gives (λ v. block_numbers v.items) result
        (numbers_if_any (option_map (λ v. view v.now) value.entry)) }
{
    let Some(value) = value else {
        return Ok(Vec::new(alloc));
    };
    match value.as_array() {
        Some(values) => blocks(alloc, values.as_slice()),
        None => Err(Fault::BadField),
    }
}

fn failure(value: &Value) -> Option<Failure>
    ensures { result ≡ failure_in (view value.now) }
{
    match value.as_str()? {
        "before" => Some(Failure::Before),
        "after" => Some(Failure::After),
        "read" => Some(Failure::Read),
        _ => None,
    }
}

/// A failure that may be left out, in which case it is none.
pub fn failure_if_any(value: Option<&Value>) -> Option<Option<Failure>>
    ensures { result ≡ failure_if_any (option_map (λ v. view v.now) value.entry) }
{
    match value {
        Some(value) => Some(Some(failure(value)?)),
        None => Some(None),
    }
}
