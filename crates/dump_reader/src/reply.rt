//! Replies.

ghost use Rattle.std.specs.Prelude.{◌≡◌, [], true, false, codes};
ghost use Rattle.serde_json.specs.View.{view};
ghost use Rattle.json_tree.specs.Answers.{Gives};
ghost use Rattle.json_tree.specs.Arrays.{list};
ghost use Rattle.json_tree.specs.Reading.{field};
ghost use Rattle.dump_reader.specs.Versions.{has_buffers};
ghost use Rattle.dump_reader.specs.ReplyTree.{reply_of, two_words, one_word, fill, with_fills, reply, replies};

use crate::profile::{Dump, NEWEST, WithBuffers, WithoutBuffers};
use asm_syntax::listed::Listed;
use asm_syntax::unit::{ByteList, FillList, Replies, Reply};
use json_tree::array::{list_field_by, nth, tuple};
use json_tree::fault::{Cause, ReadError};
use json_tree::number::Word;
use json_tree::profile::header;
use json_tree::tree::{Reads, Tree, field};
use limits::{MOST_BUFFER_BYTES, MOST_BUFFERS, MOST_REPLIES};
use serde_json::Value;
use std::alloc::Global;

/// What an external call leaves in a register that its result does not use.
pub const UNSPECIFIED: u32 = 0xdead_beef;

fn reply_of(r3: u32, r4: u32, fills: FillList) -> Reply
    ensures { result ≡ reply_of r3 r4 fills }
{
    Reply {
        r0: UNSPECIFIED,
        r3,
        r4,
        r5: UNSPECIFIED,
        r6: UNSPECIFIED,
        r7: UNSPECIFIED,
        r8: UNSPECIFIED,
        r9: UNSPECIFIED,
        r10: UNSPECIFIED,
        r11: UNSPECIFIED,
        r12: UNSPECIFIED,
        cr: UNSPECIFIED,
        ctr: UNSPECIFIED,
        lr: UNSPECIFIED,
        xer: UNSPECIFIED,
        fills,
    }
}

#[tactic(auto, unfolding(crate::specs::ReplyTree::two_words))]
fn two_words(alloc: Global, tree: &Value) -> Result<Reply, ReadError>
    ensures { Gives result (two_words (view tree.now)) }
{
    let values = tuple(alloc, tree, 2)?;
    let r3: Word = nth(alloc, values, 0)?;
    let r4: Word = nth(alloc, values, 1)?;
    Ok(reply_of(r3.value(), r4.value(), Listed::new(alloc)))
}

#[tactic(auto, unfolding(crate::specs::ReplyTree::one_word))]
fn one_word(alloc: Global, tree: &Value) -> Result<Reply, ReadError>
    ensures { Gives result (one_word (view tree.now)) }
{
    let r3: Word = Tree::read(alloc, tree)?;
    Ok(reply_of(r3.value(), UNSPECIFIED, Listed::new(alloc)))
}

/// The bytes of a buffer.
#[tactic(auto, unfolding(crate::specs::ReplyTree::fill))]
impl Reads<ByteList> for WithBuffers {
    ghost reads = { fill };

    fn read(alloc: Global, tree: &Value) -> Result<ByteList, ReadError> {
        let bytes = <Dump as Reads<ByteList>>::read(alloc, tree)?;
        if bytes.items().len() > MOST_BUFFER_BYTES as usize {
            return Err(ReadError::here(alloc, Cause::Limit(MOST_BUFFER_BYTES)));
        }
        Ok(bytes)
    }
}

#[tactic(auto, unfolding(crate::specs::ReplyTree::with_fills))]
fn with_fills(alloc: Global, tree: &Value) -> Result<Reply, ReadError>
    ensures { Gives result (with_fills (view tree.now)) }
{
    let r3: Word = field(alloc, tree, "r3")?;
    let r4: Word = field(alloc, tree, "r4")?;
    let fills = list_field_by::<WithBuffers, ByteList>(alloc, tree, "fills", MOST_BUFFERS)?;
    Ok(reply_of(r3.value(), r4.value(), fills))
}

#[tactic(auto, unfolding(crate::specs::ReplyTree::reply))]
fn reply(alloc: Global, tree: &Value, buffered: bool) -> Result<Reply, ReadError>
    ensures { Gives result (reply buffered (view tree.now)) }
{
    if tree.is_array() {
        return two_words(alloc, tree);
    }
    if buffered && tree.is_object() {
        return with_fills(alloc, tree);
    }
    one_word(alloc, tree)
}

impl Reads<Reply> for WithoutBuffers {
    ghost reads = { reply false };

    fn read(alloc: Global, tree: &Value) -> Result<Reply, ReadError> {
        reply(alloc, tree, false)
    }
}

impl Reads<Reply> for WithBuffers {
    ghost reads = { reply true };

    fn read(alloc: Global, tree: &Value) -> Result<Reply, ReadError> {
        reply(alloc, tree, true)
    }
}

/// The replies, as the version of the file has them.
fn reply_list(alloc: Global, tree: &Value, version: u32) -> Result<Replies, ReadError>
    ensures { Gives result
        (field (codes "replies") (list MOST_REPLIES (reply (has_buffers version))) (view tree.now)) }
{
    if version >= 2 {
        list_field_by::<WithBuffers, Reply>(alloc, tree, "replies", MOST_REPLIES)
    } else {
        list_field_by::<WithoutBuffers, Reply>(alloc, tree, "replies", MOST_REPLIES)
    }
}

#[tactic(auto, unfolding(crate::specs::ReplyTree::replies))]
impl Reads<Replies> for Dump {
    ghost reads = { replies };

    fn read(alloc: Global, tree: &Value) -> Result<Replies, ReadError> {
        let version = header(alloc, tree, "replies", NEWEST)?;
        reply_list(alloc, tree, version)
    }
}
