//! The bytes that one call reads.

ghost use Rattle.std.specs.Prelude.{◌≡◌, ◌≤◌, ◌-◌, IfOk, SomeIff};
ghost use Rattle.call_bytes.specs.CallLists.{bytes_in};

use crate::trace::ReadList;
use asm_syntax::unit::ByteList;
use call_bytes::bytes::CallBytes;
use std::alloc::{AllocError, Global};

/// How many of so many bytes are left behind those of a call; None where it reads more.
#[tactic(auto, using(crate::proofs::Reading::bytes_next, crate::proofs::Reading::bytes_end))]
pub fn left_behind(bytes: &CallBytes, room: u32) -> Option<u32>
    ensures { SomeIff result (bytes_in bytes.now ≤ room) (room - bytes_in bytes.now) }
{
    let mut left = room;
    for i in 0..bytes.count() {
        let n = bytes.bytes(i).len();
        if n > left as usize {
            return None;
        }
        left -= n as u32;
    }
    Some(left)
}

/// A copy of what a call reads.
#[tactic(auto, using(elf_view::proofs::ByAddressLemmas::take_one))]
pub fn copied(alloc: Global, bytes: &CallBytes) -> Result<ReadList, AllocError>
    ensures { IfOk result (λ list. list ≡ bytes.now) }
{
    let mut lists = Vec::new(alloc);
    for i in 0..bytes.count() {
        let list = Vec::from_slice(alloc, bytes.bytes(i))?;
        lists.push(ByteList::from_vec(list))?;
    }
    Ok(ReadList::from_vec(lists))
}
