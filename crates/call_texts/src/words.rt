//! The words of a line.
ghost use Rattle.std.specs.Prelude.{◌≡◌, ◌++◌, OnOk, map};
ghost use Rattle.text_lines.specs.Printed.{Gains, space};
ghost use Rattle.trace_verbs.specs.Verbs.{verb_name};
ghost use Rattle.call_texts.specs.CallText.{bytes_word, pair_words, spaced};
ghost use Rattle.call_texts.specs.WordText.{word_text};
ghost use Rattle.std.specs.Fmt.{decimal};

use std::alloc::{AllocError, Allocator};
use trace_verbs::Verb;
use uuid::Uuid;

/// A parameter that is a word of its own.
#[derive(Clone, Copy)]
pub(crate) enum Word {
    /// In decimal.
    Number(u64),
    /// In hexadecimal: an address, or the value of an interface.
    Address(u64),
    Guid(Uuid),
    Flag(bool),
}

/// Appends a word behind a space.
fn print_word<A: Allocator>(text: &mut String<A>, word: Word) -> Result<(), AllocError>
    ensures { OnOk result (Gains text.old text.new (space ++ word_text word)) }
{
    match word {
        Word::Number(number) => write!(text, " {number}"),
        Word::Address(address) => write!(text, " 0x{address:x}"),
        Word::Guid(guid) => {
            let mut buffer = Uuid::encode_buffer();
            let name = guid.hyphenated().encode_lower(&mut buffer);
            write!(text, " {name}")
        }
        Word::Flag(true) => write!(text, " 1"),
        Word::Flag(false) => write!(text, " 0"),
    }
}

/// Appends words, each behind a space.
pub(crate) fn print_words<A: Allocator>(
    text: &mut String<A>,
    words: &[Word],
) -> Result<(), AllocError>
    ensures { OnOk result (Gains text.old text.new (spaced (map word_text words.now))) }
{
    for word in words {
        print_word(text, *word)?;
    }
    Ok(())
}

/// Appends a verb, and words behind it.
pub(crate) fn print_start<A: Allocator>(
    text: &mut String<A>,
    verb: Verb,
    words: &[Word],
) -> Result<(), AllocError>
    ensures { OnOk result
        (Gains text.old text.new (verb_name verb ++ spaced (map word_text words.now))) }
{
    text.push_str(verb.name())?;
    print_words(text, words)
}

/// Appends numbers in decimal, each behind a space.
pub(crate) fn print_numbers<A: Allocator>(
    text: &mut String<A>,
    numbers: &[u64],
) -> Result<(), AllocError>
    ensures { OnOk result (Gains text.old text.new (spaced (map decimal numbers.now))) }
{
    for number in numbers {
        print_word(text, Word::Number(*number))?;
    }
    Ok(())
}

/// Appends GUIDs and values, each behind a space.
pub(crate) fn print_pairs<A: Allocator>(
    text: &mut String<A>,
    pairs: &[(Uuid, u64)],
) -> Result<(), AllocError>
    ensures { OnOk result (Gains text.old text.new (spaced (pair_words pairs.now))) }
{
    for pair in pairs {
        print_words(text, &[Word::Guid(pair.0), Word::Address(pair.1)])?;
    }
    Ok(())
}

/// Appends bytes behind a space: two hexadecimal digits for each, or a dash where there are none.
pub(crate) fn print_bytes<A: Allocator + Copy>(
    alloc: A,
    text: &mut String<A>,
    bytes: &[u8],
) -> Result<(), AllocError>
    ensures { OnOk result (Gains text.old text.new (space ++ bytes_word bytes.now)) }
{
    if bytes.is_empty() {
        return write!(text, " -");
    }
    let digits = hex::encode(alloc, bytes)?;
    write!(text, " {digits}")
}
