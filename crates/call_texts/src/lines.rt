//! The line of a call, where a line can ask for it.
ghost use Rattle.std.specs.Prelude.{◌≡◌, true, IfOk, OnErr};
ghost use Rattle.call_texts.specs.CallLines.{IsLineFor, may_ask};

use crate::calls::print_call;
use boot_calls::Call;
use std::alloc::{AllocError, Allocator};
use text_lines::MAX_LINE_LENGTH;
use trace_lines::{MAX_BUFFER_SIZE, MAX_READ_SIZE};

/// The line of a call, with its line feed; None where no line can ask for it. Memory runs out only for a call that a
/// line may ask for.
pub fn line_for<A: Allocator + Copy>(
    alloc: A,
    call: &Call<A>,
) -> Result<Option<String<A>>, AllocError>
    ensures line { IfOk result (λ line. IsLineFor call.now line) }
    ensures asks { OnErr result (may_ask call.now ≡ true) }
{
    if !may_ask(call) {
        return Ok(None);
    }
    let mut text = String::new(alloc);
    print_call(alloc, &mut text, call)?;
    if text.len() > MAX_LINE_LENGTH + 1 {
        return Ok(None);
    }
    Ok(Some(text))
}

/// Whether a line may ask for a call, however long it is.
fn may_ask<A: Allocator>(call: &Call<A>) -> bool
    ensures { result ≡ may_ask call.now }
{
    match call {
        Call::GetMemoryMap { size } => *size <= MAX_BUFFER_SIZE,
        Call::PoolRead { size, .. } => *size <= MAX_READ_SIZE,
        Call::InstallMultipleProtocolInterfaces { pairs, .. } => !pairs.as_slice().is_empty(),
        _ => true,
    }
}
