//! What holds of keys. This function does nothing; its contract is the statement.
ghost use Rattle.std.specs.Prelude.{◌≡◌, ◌↔◌};
ghost use Rattle.phone_book.specs.Keys.{key_text};
ghost use Rattle.phone_print.specs.Texts.{e164_text};
ghost use Rattle.phone_values.specs.declared.reading.Reading.{Reading};
ghost use Rattle.phonenumber.specs.Bounds.{IsBounded};

/// Two numbers have one key exactly where they have one E.164 text and one extension, or both none.
/// The bounds are kept by every `PhoneNumber`.
pub fn one_key()
    ensures { (a b : Reading) → IsBounded a → IsBounded b →
        (key_text a ≡ key_text b ↔ ((e164_text a ≡ e164_text b) × (a.extension ≡ b.extension))) }
{}
