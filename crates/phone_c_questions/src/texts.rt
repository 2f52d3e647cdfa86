//! What a text is as it is dialled. No database is needed.
ghost use Rattle.std.specs.Prelude.{◌≡◌, ◌⊎◌, ◌↔◌, ◌<◌, IfOk, IfSome, IfNone, IsUtf8, chars};
ghost use Rattle.std.specs.Prelude.{string_bytes};
ghost use Rattle.phone_c_base.specs.Buffers.{IsTooLong, IsWritten};
ghost use Rattle.phone_questions.specs.Letters.{HasLetters};
ghost use Rattle.phone_c_questions.specs.Texts.{as_form, form_number};

use phone_c_base::buffer::give;
use phone_c_base::status::{MEMORY, NO_MODE, NOT_UTF8, OK, TOO_SMALL};
use phone_questions::{diallable_only, digits_only, with_keys};
use std::alloc::{AllocError, Global};

/// What is made of a text.
#[derive(Clone, Copy, PartialEq, Eq, Debug)]
pub enum Form {
    /// Its letters are turned to the digits of their keys; all else stays.
    Keys,

    /// The values of its digits of any script, as digits from `0` to `9`; nothing else stays.
    Digits,

    /// Its digits from `0` to `9`, plus signs, stars and number signs; nothing else stays.
    Diallable,
}

/// The form that has this number; none for others than these three.
fn form_of(number: u32) -> Option<Form>
    ensures found { IfSome result (λ form. form_number form ≡ number) }
    ensures none { IfNone result (2 < number) }
{
    match number {
        0 => Some(Form::Keys),
        1 => Some(Form::Digits),
        2 => Some(Form::Diallable),
        _ => None,
    }
}

/// A text in a form. Refused only for memory.
fn as_form(alloc: Global, form: Form, text: &str) -> Result<String, AllocError>
    ensures { IfOk result (λ t. string_bytes t ≡ as_form form (chars text.now)) }
{
    match form {
        Form::Keys => with_keys(alloc, text),
        Form::Digits => digits_only(alloc, text),
        Form::Diallable => diallable_only(alloc, text),
    }
}

/// A text in the form that has this number, in a buffer.
pub fn normalized(alloc: Global, form: u32, text: &[u8], out: &mut [u8], wrote: &mut usize) -> u32
    ensures written { result ≡ OK → (f : Form) × (form ≡ form_number f) ×
        IsWritten (as_form f (chars text.now)) out.old out.new wrote.new }
    ensures too_small { result ≡ TOO_SMALL → (f : Form) × (form ≡ form_number f) ×
        IsTooLong (as_form f (chars text.now)) out.old out.new wrote.new }
    ensures no_mode { (result ≡ NO_MODE) ↔ (2 < form) }
    ensures not_utf8 { (result ≡ NOT_UTF8) ↔ (¬ (2 < form) × ¬ (IsUtf8 text.now)) }
    ensures other { ¬ (result ≡ OK) → ¬ (result ≡ TOO_SMALL) → ¬ (result ≡ NO_MODE) →
        ¬ (result ≡ NOT_UTF8) → result ≡ MEMORY }
    ensures untouched { ¬ (result ≡ OK) → out.new ≡ out.old }
    ensures no_length { ¬ (result ≡ OK) → ¬ (result ≡ TOO_SMALL) → wrote.new ≡ 0 }
{
    *wrote = 0;
    let Some(form) = form_of(form) else {
        return NO_MODE;
    };
    let Ok(text) = std::str::from_utf8(text) else {
        return NOT_UTF8;
    };
    match as_form(alloc, form, text) {
        Ok(made) => give(made.as_bytes(), out, wrote),
        Err(_) => MEMORY,
    }
}

/// Whether a text is a number that is written with letters: 1, else 0.
pub fn letters(text: &[u8], told: &mut u8) -> u32
    ensures letters { result ≡ OK → (told.new ≡ 1) ↔ HasLetters (chars text.now) }
    ensures flag { result ≡ OK → (told.new ≡ 0) ⊎ (told.new ≡ 1) }
    ensures not_utf8 { (result ≡ NOT_UTF8) ↔ ¬ (IsUtf8 text.now) }
    ensures status { (result ≡ OK) ⊎ (result ≡ NOT_UTF8) }
    ensures untouched { ¬ (result ≡ OK) → told.new ≡ told.old }
{
    let Ok(text) = std::str::from_utf8(text) else {
        return NOT_UTF8;
    };
    *told = if phone_questions::has_letters(text) {
        1
    } else {
        0
    };
    OK
}
