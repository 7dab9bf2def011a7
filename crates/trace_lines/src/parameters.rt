//! The parameters of a trace line.
ghost use Rattle.std.specs.Prelude.{◌≡◌, map};
ghost use Rattle.trace_lines.specs.Parameters.{ReadsAs, bytes_of, flag_of, guid_of, pairs_of, u32_of, u64_of, u64_up_to, u64s_of};

use crate::faults::TraceFault;
use boot_calls::{CallBytes, CallHandles, CallPairs};
use std::alloc::Allocator;
use text_lines::number_of;
use uuid::Uuid;

/// A number of 64 bits.
pub fn read_u64(word: &[u8]) -> Result<u64, TraceFault>
    ensures { result ≡ u64_of word.now }
{
    number_of(word).ok_or(TraceFault::Number)
}

/// A number of 32 bits.
pub fn read_u32(word: &[u8]) -> Result<u32, TraceFault>
    ensures { result ≡ u32_of word.now }
{
    let number = read_u64(word)?;
    u32::try_from(number).map_err(|_| TraceFault::Number)
}

/// A number that is `most` or less.
pub fn read_u64_up_to(most: u64, word: &[u8]) -> Result<u64, TraceFault>
    ensures { result ≡ u64_up_to most word.now }
{
    let number = read_u64(word)?;
    if number <= most {
        Ok(number)
    } else {
        Err(TraceFault::Number)
    }
}

/// A number that is 0 or 1: whether it is 1.
pub fn read_flag(word: &[u8]) -> Result<bool, TraceFault>
    ensures { result ≡ flag_of word.now }
{
    let number = read_u64_up_to(1, word)?;
    Ok(number == 1)
}

/// Handles, numbers of 64 bits from left to right.
pub fn read_handles<A: Allocator>(alloc: A, words: &[&[u8]]) -> Result<CallHandles<A>, TraceFault>
    ensures { ReadsAs result (u64s_of (map (λ word. word.now) words.now)) }
{
    let mut handles = Vec::with_capacity(alloc, words.len())?;
    for word in words {
        handles.push(read_u64(word)?)?;
    }
    Ok(CallHandles::new(handles))
}

/// Bytes: two hexadecimal digits for each, or `-` for none.
pub fn read_bytes<A: Allocator>(alloc: A, word: &[u8]) -> Result<CallBytes<A>, TraceFault>
    ensures { ReadsAs result (bytes_of word.now) }
{
    match word {
        [] => Err(TraceFault::Hex),
        [b'-'] => Ok(CallBytes::new(Vec::new(alloc))),
        digits => Ok(CallBytes::new(hex::decode(alloc, digits)?)),
    }
}

/// A GUID, of any form that `uuid` parses.
pub fn read_guid(word: &[u8]) -> Result<Uuid, TraceFault>
    ensures { result ≡ guid_of word.now }
{
    match Uuid::try_parse_ascii(word) {
        Ok(guid) => Ok(guid),
        Err(_) => Err(TraceFault::Guid),
    }
}

/// Pairs of a GUID and a value, from left to right. A word that is left over belongs to none.
pub fn read_pairs<A: Allocator>(alloc: A, words: &[&[u8]]) -> Result<CallPairs<A>, TraceFault>
    ensures { ReadsAs result (pairs_of (map (λ word. word.now) words.now)) }
{
    let mut pairs = Vec::with_capacity(alloc, words.len() / 2)?;
    let mut rest = words;
    while let [guid, value, others @ ..] = rest {
        pairs.push((read_guid(guid)?, read_u64(value)?))?;
        rest = others;
    }
    Ok(CallPairs::new(pairs))
}
