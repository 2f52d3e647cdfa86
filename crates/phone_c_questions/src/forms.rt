//! The forms in which a number that is given as plain numbers is written for who dials it from a
//! region, where the text may be known that it was read from.
ghost use Rattle.std.specs.Prelude.{◌≡◌, ◌↔◌, ℕ, IfOk, IsUtf8, List, None, Option, string_bytes};
ghost use Rattle.phone_values.specs.declared.country.Id.{Id as Region};
ghost use Rattle.phone_values.specs.declared.reading.Reading.{Reading};
ghost use Rattle.phone_records.specs.declared.loader.Metadata as loader;
ghost use Rattle.phone_c_base.specs.Buffers.{IsTooLongA, IsWrittenA};
ghost use Rattle.phone_c_base.specs.Hints.{hint_of};
ghost use Rattle.phone_c_base.specs.Numbers.{AreNoNumber};
ghost use Rattle.phone_c_questions.specs.Forms.{IsTextOf};

use phone_c_base::buffer::give;
use phone_c_base::hint::hint_of;
use phone_c_base::number::{Number, to_phone_number};
use phone_c_base::status::{BAD_NUMBER, MEMORY, NO_REGION, NOT_UTF8, OK, TOO_SMALL};
use phone_dialling::{
    dialled_text, dialled_with_letters, original_text, text_with_letters, unless_empty,
};
use phone_plans::Plans;
use phone_values::country::Id;
use phonenumber::PhoneNumber;
use std::alloc::AllocError;

/// A form in which a number is written for who dials it from a region, or from none. Contracts see
/// its texts.
pub trait Form {
    // It writes this of a number that was read from these bytes, dialled from there.
    ghost writes: { Self → List loader.Metadata → Option Region → List ℕ → Reading → List ℕ →
        Type 0 };

    /// The text of a number that was read from a text, which has no byte where it isn't known.
    /// Refused only for memory.
    fn text(
        &self,
        database: &Plans,
        from: Option<Id>,
        raw: &str,
        number: &PhoneNumber,
    ) -> Result<String, AllocError>
        ensures { IfOk result (λ t. writes self.now database.now from raw.now number.now
            (string_bytes t)) };
}

/// As libphonenumber dials it.
#[derive(Clone, Copy)]
pub struct Abroad;

impl Form for Abroad {
    ghost use Rattle.std.specs.Prelude.{◌≡◌};
    ghost use Rattle.phone_dialling.specs.Abroad.{dialled_text, if_some};

    ghost writes = { λ _ db from raw n text. text ≡ dialled_text db from (if_some raw) n };

    fn text(
        &self,
        database: &Plans,
        from: Option<Id>,
        raw: &str,
        number: &PhoneNumber,
    ) -> Result<String, AllocError> {
        dialled_text(database, from, unless_empty(raw), number)
    }
}

/// As the text was written.
#[derive(Clone, Copy)]
pub struct Original;

impl Form for Original {
    ghost use Rattle.phone_dialling.specs.Abroad.{if_some};
    ghost use Rattle.phone_dialling.specs.Original.{IsOriginal};

    ghost writes = { λ _ db from raw n text. IsOriginal db from n (if_some raw) text };

    fn text(
        &self,
        database: &Plans,
        from: Option<Id>,
        raw: &str,
        number: &PhoneNumber,
    ) -> Result<String, AllocError> {
        original_text(database, from, unless_empty(raw), number)
    }
}

/// With the letters of the text, as libphonenumber has it.
#[derive(Clone, Copy)]
pub struct Lettered;

impl Form for Lettered {
    ghost use Rattle.phone_dialling.specs.Abroad.{if_some};
    ghost use Rattle.phone_dialling.specs.Lettered.{IsLettered};

    ghost writes = { λ _ db from raw n text. IsLettered db from n (if_some raw) text };

    fn text(
        &self,
        database: &Plans,
        from: Option<Id>,
        raw: &str,
        number: &PhoneNumber,
    ) -> Result<String, AllocError> {
        text_with_letters(database, from, Some(raw), number)
    }
}

/// With the letters of the text by our own answer, so that what is dialled reaches the number.
#[derive(Clone, Copy)]
pub struct Dialled;

impl Form for Dialled {
    ghost use Rattle.std.specs.Prelude.{Some};
    ghost use Rattle.phone_dialling.specs.Dialled.{IsDialled};

    ghost writes = { λ _ db from raw n text. IsDialled db from n (Some raw) text };

    fn text(
        &self,
        database: &Plans,
        from: Option<Id>,
        raw: &str,
        number: &PhoneNumber,
    ) -> Result<String, AllocError> {
        dialled_with_letters(database, from, Some(raw), number)
    }
}

/// A number in a form, dialled from a region or from none, in a buffer.
pub fn from_region<F: Form>(
    form: &F,
    database: &Plans,
    region: &[u8],
    raw: &[u8],
    number: &Number,
    bytes: &[u8],
    out: &mut [u8],
    wrote: &mut usize,
) -> u32
    ensures written { result ≡ OK → IsWrittenA (IsTextOf (F.writes form.now database.now)
        region.now raw.now number.now bytes.now) out.old out.new wrote.new }
    ensures too_small { result ≡ TOO_SMALL → IsTooLongA (IsTextOf (F.writes form.now database.now)
        region.now raw.now number.now bytes.now) out.old out.new wrote.new }
    ensures no_region { (result ≡ NO_REGION) ↔ (hint_of region.now ≡ None) }
    ensures not_utf8 { (result ≡ NOT_UTF8) ↔
        (¬ (hint_of region.now ≡ None) × ¬ (IsUtf8 raw.now)) }
    ensures bad { (result ≡ BAD_NUMBER) ↔ (¬ (hint_of region.now ≡ None) ×
        IsUtf8 raw.now × AreNoNumber number.now bytes.now) }
    ensures other { ¬ (result ≡ OK) → ¬ (result ≡ TOO_SMALL) → ¬ (result ≡ NO_REGION) →
        ¬ (result ≡ NOT_UTF8) → ¬ (result ≡ BAD_NUMBER) → result ≡ MEMORY }
    ensures untouched { ¬ (result ≡ OK) → out.new ≡ out.old }
    ensures no_length { ¬ (result ≡ OK) → ¬ (result ≡ TOO_SMALL) → wrote.new ≡ 0 }
{
    *wrote = 0;
    let Some(from) = hint_of(region) else {
        return NO_REGION;
    };
    let Ok(raw) = std::str::from_utf8(raw) else {
        return NOT_UTF8;
    };
    let number = match to_phone_number(database.allocator(), number, bytes) {
        Ok(number) => number,
        Err(status) => return status,
    };
    match form.text(database, from, raw, &number) {
        Ok(text) => give(text.as_bytes(), out, wrote),
        Err(_) => MEMORY,
    }
}
