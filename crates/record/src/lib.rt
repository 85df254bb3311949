// The size of each write of a server in its write-ahead log (record_bytes of storage.rs): postcard lengths from leading zero bits.
#![tactic(auto)]

ghost use Rattle.std.specs.Prelude.{◌≡◌, ◌+◌, ◌≤◌, ◌^◌, length};
ghost use Rattle.record.specs.Postcard.{varint, option, payload, zeros, hard_state_record, truncate_record, framed, record_bytes, put_bytes, command_length};

use units::{LogIndex, NodeId, PayloadShape, Term};

// The length of a number's varint: 7 bits a byte, at least one byte.
#[tactic(auto, using(crate::specs::Lengths::varint_length, std::proofs::lemmas::Nat::leading_le))]
pub fn varint_length(x: u64) -> u64
    ensures { (result ≡ length (varint x)) × (1 ≤ result) × (result ≤ 10) }
{
    let bits = u64::BITS - x.leading_zeros();
    u64::from(bits.max(1).div_ceil(7))
}

// The size in the write-ahead log of a record of `bytes` bytes: a 4-byte length stands before it.
#[tactic(auto, unfolding(crate::specs::Postcard::framed))]
fn framed(bytes: u64) -> u64
    requires { bytes ≤ 2 ^ 33 }
    ensures { (result ≡ framed bytes) × (result ≤ bytes + 4) }
{
    4 + bytes
}

// The length of an id that may be absent.
#[tactic(auto, using(crate::specs::Lengths::none_length, crate::specs::Lengths::some_length))]
fn option_length(id: Option<NodeId>) -> u64
    ensures { (result ≡ length (option id)) × (result ≤ 11) }
{
    match id {
        None => 1,
        Some(node) => 1 + varint_length(node.0),
    }
}

// The length of a payload.
#[tactic(auto, using(crate::specs::Lengths::noop_length, crate::specs::Lengths::command_length_lem))]
fn payload_length(shape: PayloadShape) -> u64
    requires { command_length shape ≤ 2 ^ 32 }
    ensures { (result ≡ length (payload (zeros shape))) × (result ≤ 11 + command_length shape) }
{
    match shape {
        PayloadShape::Noop => 1,
        PayloadShape::Command { length } => 1 + varint_length(length as u64) + length as u64,
    }
}

// The size of a hard state record.
#[tactic(auto, using(crate::specs::Lengths::hard_state_bytes))]
pub fn hard_state_bytes(term: Term, voted_for: Option<NodeId>) -> u64
    ensures { (result ≡ record_bytes (hard_state_record term voted_for)) × (result ≤ 26) }
{
    framed(1 + varint_length(term.0) + option_length(voted_for))
}

// The size of a put of an entry whose payload has this shape.
#[tactic(auto, using(crate::specs::Lengths::put_bytes_lem))]
pub fn put_bytes(index: LogIndex, term: Term, shape: PayloadShape) -> u64
    requires { command_length shape ≤ 2 ^ 32 }
    ensures { (result ≡ put_bytes index term shape) × (result ≤ 36 + command_length shape) }
{
    framed(1 + varint_length(index.0) + varint_length(term.0) + payload_length(shape))
}

// The size of a truncate record.
#[tactic(auto, using(crate::specs::Lengths::truncate_bytes))]
pub fn truncate_bytes(from: LogIndex) -> u64
    ensures { (result ≡ record_bytes (truncate_record from)) × (result ≤ 15) }
{
    framed(1 + varint_length(from.0))
}
