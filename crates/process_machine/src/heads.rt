//! The first bytes of files.
ghost use Rattle.std.specs.Prelude.{◌≡◌, ◌≤◌, ◌+◌, length, vec_len, IfOk};

use crate::trouble::Trouble;
use crate::world::World;
use plain_data::Items;
use std::alloc::Global;
use std::io::Read;
use std::{fs, mem};

/// The bytes that one read asks for.
const BLOCK: usize = 65_536;

/// The first bytes of a file, at most so many. What is no file is trouble.
pub(crate) fn head_of<R: World>(rt: &R, path: &str, limit: u64) -> Result<Items<u8>, Trouble>
    ensures { IfOk result (λ bytes. length bytes ≤ limit) }
{
    if !fs::metadata(rt, path)?.is_file() {
        return Err(Trouble::Failed);
    }
    let mut reader = fs::open(rt, path)?;
    let bytes = first_bytes(rt.alloc(), &mut reader, limit);
    mem::drop(reader);
    Ok(Items::from_vec(bytes?))
}

// Reads until there are so many bytes, or the reader is at its end.
pub(crate) fn first_bytes<F: Read>(
    alloc: Global,
    reader: &mut F,
    limit: u64,
) -> Result<Vec<u8>, Trouble>
    ensures { IfOk result (λ bytes. vec_len bytes ≤ limit) }
{
    let mut block = vec![in alloc; 0u8; BLOCK]?;
    let mut bytes = Vec::new(alloc);
    while (bytes.len() as u64) < limit {
        let most = limit - bytes.len() as u64;
        if read_more(reader, &mut block, most, &mut bytes)? == 0 {
            return Ok(bytes);
        }
    }
    Ok(bytes)
}

// Reads once, at most so many bytes, and adds them.
fn read_more<F: Read>(
    reader: &mut F,
    block: &mut [u8],
    most: u64,
    bytes: &mut Vec<u8>,
) -> Result<usize, Trouble>
    ensures added { IfOk result (λ count. vec_len bytes.new ≡ vec_len bytes.old + count) }
    ensures within { IfOk result (λ count. count ≤ most) }
{
    let room = room_for(block.len(), most);
    let part = &mut block[..room];
    let count = reader.read(part)?;
    bytes.extend_from_slice(&part[..count])?;
    Ok(count)
}

// As many bytes as both allow.
fn room_for(length: usize, most: u64) -> usize
    ensures within { result ≤ length }
    ensures most { result ≤ most }
{
    if most < length as u64 {
        most as usize
    } else {
        length
    }
}
