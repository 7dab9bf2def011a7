//! The lines of certificate blocks, by their words.
ghost use Rattle.std.specs.Prelude.{◌≡◌, [], ◌∷◌, map};
ghost use Rattle.certificate_blocks.specs.BlockLines.{type_of_word, named, name_alone, number_after, entry_of_words, request_of, request_with, bound_of};

use page_ranges::{Descriptor, MemoryType};
use placement_certificate::{Bound, Request};
use text_lines::number_of;

/// Nothing where the word is this name, None where it is another.
fn named(name: &[u8], word: &[u8]) -> Option<()>
    ensures { result ≡ named name.now word.now }
{
    (word == name).then_some(())
}

/// `NAME`, None for other words.
pub fn name_alone(name: &[u8], words: &[&[u8]]) -> Option<()>
    ensures { result ≡ name_alone name.now (map (λ word. word.now) words.now) }
{
    match words {
        [word] => named(name, word),
        _ => None,
    }
}

/// The number of `NAME NUMBER`, None for other words.
pub fn number_after(name: &[u8], words: &[&[u8]]) -> Option<u64>
    ensures { result ≡ number_after name.now (map (λ word. word.now) words.now) }
{
    match words {
        [word, number] => {
            named(name, word)?;
            number_of(number)
        }
        _ => None,
    }
}

/// The map entry of `TYPE FIRST PAGES ATTRIBUTES`, None for other words.
pub fn entry_of_words(words: &[&[u8]]) -> Option<Descriptor>
    ensures { result ≡ entry_of_words (map (λ word. word.now) words.now) }
{
    match words {
        [mtype, first, pages, attributes] => entry_with(mtype, first, pages, attributes),
        _ => None,
    }
}

/// A map entry of these fields.
fn entry_with(mtype: &[u8], first: &[u8], pages: &[u8], attributes: &[u8]) -> Option<Descriptor>
    ensures { result ≡ entry_of_words (mtype.now ∷ first.now ∷ pages.now ∷ attributes.now ∷ []) }
{
    Some(Descriptor {
        mtype: type_of_word(mtype)?,
        first: number_of(first)?,
        pages: number_of(pages)?,
        attributes: number_of(attributes)?,
    })
}

/// The request of `request TYPE PAGES LIMIT`, with a granule of 1, or of `request TYPE PAGES LIMIT 16`,
/// None for other words.
pub fn request_of(words: &[&[u8]]) -> Option<Request>
    ensures { result ≡ request_of (map (λ word. word.now) words.now) }
{
    match words {
        [word, mtype, pages, limit] => request_with(word, mtype, pages, limit, 1),
        [word, mtype, pages, limit, granule] => {
            named(b"16", granule)?;
            request_with(word, mtype, pages, limit, 16)
        }
        _ => None,
    }
}

/// A request of these fields, after its name, with a granule.
fn request_with(
    word: &[u8],
    mtype: &[u8],
    pages: &[u8],
    limit: &[u8],
    granule: u64,
) -> Option<Request>
    ensures { result ≡ request_with word.now mtype.now pages.now limit.now granule }
{
    named(b"request", word)?;
    Some(Request {
        mtype: type_of_word(mtype)?,
        pages: number_of(pages)?,
        limit: number_of(limit)?,
        granule,
    })
}

/// The bound of `FIRST PAGES COUNT TOP` or `FIRST PAGES none`, None for other words.
pub fn bound_of(words: &[&[u8]]) -> Option<Bound>
    ensures { result ≡ bound_of (map (λ word. word.now) words.now) }
{
    match words {
        [first, pages, count, top] => priced_bound(first, pages, count, top),
        [first, pages, word] => empty_bound(first, pages, word),
        _ => None,
    }
}

/// A bound with the lowest price and the highest start at it.
fn priced_bound(first: &[u8], pages: &[u8], count: &[u8], top: &[u8]) -> Option<Bound>
    ensures { result ≡ bound_of (first.now ∷ pages.now ∷ count.now ∷ top.now ∷ []) }
{
    Some(Bound {
        first: number_of(first)?,
        pages: number_of(pages)?,
        least: Some((number_of(count)?, number_of(top)?)),
    })
}

/// A bound of an entry with no permitted start.
fn empty_bound(first: &[u8], pages: &[u8], word: &[u8]) -> Option<Bound>
    ensures { result ≡ bound_of (first.now ∷ pages.now ∷ word.now ∷ []) }
{
    let first = number_of(first)?;
    let pages = number_of(pages)?;
    named(b"none", word)?;
    Some(Bound {
        first,
        pages,
        least: None,
    })
}

/// A memory type, a number of 32 bits.
fn type_of_word(word: &[u8]) -> Option<MemoryType>
    ensures { result ≡ type_of_word word.now }
{
    let number = number_of(word)?;
    Some(MemoryType::new(u32::try_from(number).ok()?))
}
