//! Lists in replies.
ghost use Rattle.std.specs.Prelude.{◌≡◌};
ghost use Rattle.reply_texts.specs.PrintedText.{Prints};
ghost use Rattle.reply_texts.specs.ListTexts.{events_text, guids_text, numbers_text, separator_at};

use std::alloc::{AllocError, Allocator};
use uuid::Uuid;

/// What comes before the item at an index of a row.
fn separator_at(index: usize) -> &'static str
    ensures { result.now ≡ separator_at index }
{
    if index == 0 { "" } else { "," }
}

/// Appends numbers in a row, joined by commas.
pub(crate) fn print_numbers<A: Allocator>(
    text: &mut String<A>,
    numbers: &[u64],
) -> Result<(), AllocError>
    ensures { Prints result text.old text.new (numbers_text numbers.now) }
{
    for (index, number) in numbers.iter().enumerate() {
        let separator = separator_at(index);
        write!(text, "{separator}{number}")?;
    }
    Ok(())
}

/// Appends events in a row, or a dash where there are none.
pub(crate) fn print_events<A: Allocator>(
    text: &mut String<A>,
    events: &[u64],
) -> Result<(), AllocError>
    ensures { Prints result text.old text.new (events_text events.now) }
{
    if events.is_empty() {
        return write!(text, "-");
    }
    print_numbers(text, events)
}

/// Appends GUIDs in a row, joined by commas.
pub(crate) fn print_guids<A: Allocator>(
    text: &mut String<A>,
    guids: &[Uuid],
) -> Result<(), AllocError>
    ensures { Prints result text.old text.new (guids_text guids.now) }
{
    for (index, guid) in guids.iter().enumerate() {
        let separator = separator_at(index);
        let mut buffer = Uuid::encode_buffer();
        let name = guid.hyphenated().encode_lower(&mut buffer);
        write!(text, "{separator}{name}")?;
    }
    Ok(())
}
