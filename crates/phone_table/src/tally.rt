//! How often texts were counted.
ghost use Rattle.std.specs.Prelude.{◌≡◌, ◌∷◌, [], IfOk, OnOk};
ghost use Rattle.phone_table.specs.Summaries.{texts_in, words};
ghost use Rattle.phone_table.specs.Tallies.{Counts, CountsMore, CountsOnce, IsPut, times};

use std::alloc::{AllocError, Global};
use std::collections::BTreeMap;

/// How often each of some texts was counted, in the order of their bytes.
pub type Tally = BTreeMap<String, u64>;

/// How often a text was counted.
pub fn times(tally: &Tally, text: &str) -> u64
    ensures { result ≡ times tally.now text.now }
{
    tally.get(text).copied().unwrap_or(0)
}

/// Gives a text this count. Refused only for memory.
fn put(tally: &mut Tally, alloc: Global, text: &str, count: u64) -> Result<(), AllocError>
    ensures { OnOk result (IsPut tally.old text.now count tally.new) }
{
    let key = String::from_str(alloc, text)?;
    tally.insert(key, count)?;
    Ok(())
}

/// Counts a text once more; a count stays at 2^64 - 1. Refused only for memory.
pub fn add(tally: &mut Tally, alloc: Global, text: &str) -> Result<(), AllocError>
    ensures { OnOk result (CountsOnce tally.old text.now tally.new) }
{
    let next = times(tally, text).saturating_add(1);
    put(tally, alloc, text, next)
}

/// Counts a text that isn't empty. Refused only for memory.
fn add_if_any(tally: &mut Tally, alloc: Global, text: &str) -> Result<(), AllocError>
    ensures { OnOk result (Counts tally.old text.now tally.new) }
{
    if text.is_empty() {
        return Ok(());
    }
    add(tally, alloc, text)
}

/// Counts a text that isn't empty; bytes that are no UTF-8 are none. Refused only for memory.
pub(crate) fn add_bytes(tally: &mut Tally, alloc: Global, bytes: &[u8]) -> Result<(), AllocError>
    ensures { OnOk result (CountsMore tally.old (bytes.now ∷ []) tally.new) }
{
    match std::str::from_utf8(bytes) {
        Ok(text) => add_if_any(tally, alloc, text),
        Err(_) => Ok(()),
    }
}

/// The words of a text, parted by spaces. Refused only for memory.
fn words_in<'a>(alloc: Global, text: &'a [u8]) -> Result<Vec<&'a [u8]>, AllocError>
    ensures { IfOk result (λ v. texts_in v.items ≡ words text.now) }
{
    text.split(|byte| *byte == b' ').collect(alloc)
}

/// Counts each of some texts. Refused only for memory.
fn add_each(tally: &mut Tally, alloc: Global, texts: &[&[u8]]) -> Result<(), AllocError>
    ensures { OnOk result (CountsMore tally.old (texts_in texts.now) tally.new) }
{
    for text in texts {
        add_bytes(tally, alloc, *text)?;
    }
    Ok(())
}

/// Counts each word of a text. Refused only for memory.
pub(crate) fn add_words(tally: &mut Tally, alloc: Global, text: &[u8]) -> Result<(), AllocError>
    ensures { OnOk result (CountsMore tally.old (words text.now) tally.new) }
{
    let words = words_in(alloc, text)?;
    add_each(tally, alloc, words.as_slice())
}
