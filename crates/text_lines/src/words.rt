//! The words of a line.
ghost use Rattle.std.specs.Prelude.{◌≡◌, IfOk, map};
ghost use Rattle.text_lines.specs.Words.{is_blank, words_of};

use std::alloc::{AllocError, Allocator};

/// The words that nearly all lines have at most. Memory for them is taken at once.
const MOST_WORDS: usize = 8;

/// Whether a byte separates words: a space or a tab.
fn is_blank(byte: u8) -> bool
    ensures { result ≡ is_blank byte }
{
    byte == b' ' || byte == b'\t'
}

/// The words of a line, from left to right.
pub fn words_of<A: Allocator>(alloc: A, line: &[u8]) -> Result<Vec<&[u8], A>, AllocError>
    ensures { IfOk result (λ words. map (λ word. word.now) words.items ≡ words_of line.now) }
{
    let mut words = Vec::new(alloc);
    words.reserve(MOST_WORDS)?;
    words.extend(
        line.split(|byte| is_blank(*byte))
            .filter(|word| !word.is_empty()),
    )?;
    Ok(words)
}
