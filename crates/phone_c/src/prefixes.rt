//! The calls of tables of prefixes.
ghost use Rattle.std.specs.Prelude.{◌≡◌, ◌⊎◌, ◌↔◌, IsUtf8, length};
ghost use Rattle.phone_prefixes.specs.Tables.{NoneBegins};
ghost use Rattle.phone_c_base.specs.Buffers.{IsTooLongA, IsWrittenA};
ghost use Rattle.phone_c_base.specs.PrefixTables.{IsLineRefusedAs, IsTableClosed};
ghost use Rattle.phone_c_base.specs.PrefixTables.{IsTableKept, IsTableOpen, IsTableOpenedBy};
ghost use Rattle.phone_c_base.specs.PrefixTables.{IsTextFor, IsTextOfLongest};

use phone_c_base::prefixes::{longest, open_table};
use phone_c_base::sharing::share_table;
use phone_c_base::status::{CLOSED, MEMORY, NO_PREFIX, NOT_UTF8, OK, TOO_SMALL};
use phone_c_base::table::{PrefixTable, close_table, put_table, take_table};
use std::alloc::Global;

/// Opens the table of prefixes that a text is, as `Prefixes::of` reads it: lines of a prefix of 1
/// to 15 digits, a tab, and a text in UTF-8. What the handle had open is closed first, whatever
/// comes of the text.
///
/// `OK`: the table is open. `LINE_EMPTY`, `LINE_NO_TAB`, `LINE_NO_PREFIX`, `LINE_NOT_UTF8` and
/// `LINE_TWICE` only where a line is no entry's: `line` is the number of the first, counted from 1,
/// and is 0 for all other statuses. `MEMORY`: memory was refused. For each but `OK` the handle is
/// closed.
#[unsafe(no_mangle)]
pub extern "C" fn phone_prefixes_open(
    alloc: Global,
    text: &[u8],
    table: &mut PrefixTable,
    line: &mut usize,
) -> u32
    ensures opened { result ≡ OK → IsTableOpenedBy text.now table.new }
    ensures refused { ¬ (result ≡ OK) → (result ≡ MEMORY) ⊎
        IsLineRefusedAs text.now line.new result }
    ensures no_line { (result ≡ OK) ⊎ (result ≡ MEMORY) → line.new ≡ 0 }
    ensures closed { ¬ (result ≡ OK) → IsTableClosed table.new }
{
    *line = 0;
    close_table(alloc, table);
    match open_table(alloc, text) {
        Ok(prefixes) => {
            put_table(alloc, table, prefixes);
            OK
        }
        Err((status, at)) => {
            *line = at;
            status
        }
    }
}

/// Opens behind `mine` the table of prefixes that is open behind `table`. It takes the memory of a
/// few words, and copies no table. What `mine` had open is closed first, whatever comes.
///
/// `OK`: the table is open behind `mine`. `CLOSED` exactly where `table` is closed. `MEMORY`:
/// memory was refused. For each but `OK` `mine` is closed.
#[unsafe(no_mangle)]
pub extern "C" fn phone_prefixes_share(
    alloc: Global,
    table: &mut PrefixTable,
    mine: &mut PrefixTable,
) -> u32
    ensures shared { result ≡ OK → IsTableOpen mine.new table.old.entries }
    ensures closed { (result ≡ CLOSED) ↔ IsTableClosed table.old }
    ensures status { (result ≡ OK) ⊎ (result ≡ CLOSED) ⊎ (result ≡ MEMORY) }
    ensures refused { ¬ (result ≡ OK) → IsTableClosed mine.new }
    ensures kept { IsTableKept table.old table.new }
{
    share_table(alloc, table, mine)
}

/// Closes the handle of a table of prefixes; nothing where it is closed already. The table is freed
/// with the last of the handles that stand on it.
#[unsafe(no_mangle)]
pub extern "C" fn phone_prefixes_close(alloc: Global, table: &mut PrefixTable)
    ensures { IsTableClosed table.new }
{
    close_table(alloc, table)
}

/// Looks up digits, as those of an E.164 text, in a table of prefixes: writes the text of the
/// longest prefix that begins them. It takes no memory.
///
/// `OK`: the text stands at the front of `out`, which is else as it was, `wrote` is its length, and
/// `prefix_len` that of the prefix. `TOO_SMALL` only where `out` is shorter than the text: then
/// `wrote` is the length that it needs. `CLOSED` exactly where the handle is closed, else
/// `NOT_UTF8` exactly where the digits aren't UTF-8, else `NO_PREFIX` exactly where no prefix
/// begins them. For each but `OK` `out` and `prefix_len` are as they were, and for each but `OK`
/// and `TOO_SMALL` `wrote` is 0.
#[unsafe(no_mangle)]
pub extern "C" fn phone_prefixes_longest(
    alloc: Global,
    table: &mut PrefixTable,
    digits: &[u8],
    out: &mut [u8],
    wrote: &mut usize,
    prefix_len: &mut usize,
) -> u32
    ensures written { result ≡ OK → IsWrittenA (λ text. IsTextOfLongest table.old.entries
        digits.now text prefix_len.new) out.old out.new wrote.new }
    ensures too_small { result ≡ TOO_SMALL →
        IsTooLongA (IsTextFor table.old.entries digits.now) out.old out.new wrote.new }
    ensures closed { (result ≡ CLOSED) ↔ IsTableClosed table.old }
    ensures not_utf8 { (result ≡ NOT_UTF8) ↔
        (¬ (IsTableClosed table.old) × ¬ (IsUtf8 digits.now)) }
    ensures none { ¬ (result ≡ CLOSED) → ¬ (result ≡ NOT_UTF8) →
        (result ≡ NO_PREFIX) ↔ NoneBegins table.old.entries digits.now }
    ensures status { ¬ (result ≡ OK) → ¬ (result ≡ TOO_SMALL) → ¬ (result ≡ CLOSED) →
        ¬ (result ≡ NOT_UTF8) → result ≡ NO_PREFIX }
    ensures untouched { ¬ (result ≡ OK) → out.new ≡ out.old }
    ensures no_prefix { ¬ (result ≡ OK) → prefix_len.new ≡ prefix_len.old }
    ensures no_length { ¬ (result ≡ OK) → ¬ (result ≡ TOO_SMALL) → wrote.new ≡ 0 }
    ensures kept { IsTableKept table.old table.new }
{
    *wrote = 0;
    let Some(owner) = take_table(alloc, table) else {
        return CLOSED;
    };
    let status = longest(owner.thing(), digits, out, wrote, prefix_len);
    put_table(alloc, table, owner);
    status
}
