//! Values in a caller's buffer.
ghost use Rattle.std.specs.Prelude.{◌≡◌};
ghost use Rattle.c_interface.specs.Buffers.{front_filled};

/// Copies values into the front of a buffer, as many as it has room for.
pub(crate) fn copy_to_front<T: Copy>(buffer: &mut [T], values: &[T])
    ensures { buffer.new ≡ front_filled values.now buffer.old }
{
    let count = values.len().min(buffer.len());
    buffer[..count].copy_from_slice(&values[..count]);
}
