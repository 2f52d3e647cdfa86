//! How far reading back reaches: where the premises of these laws hold.
ghost use Rattle.std.specs.Prelude.{◌≡◌, ◌≤◌, ℕ, List, None, Option, Ok, chars, length, true};
ghost use Rattle.std.specs.List.{list_any};
ghost use Rattle.std.specs.Str.{bytes_eq};
ghost use Rattle.phone_chars.specs.Characters.{is_separator};
ghost use Rattle.phone_values.specs.Numbers.{IsHeld, text_of};
ghost use Rattle.phone_values.specs.declared.country.Id.{Id};
ghost use Rattle.phone_values.specs.declared.mode.Mode.TheVariants as mode;
ghost use Rattle.phone_values.specs.declared.reading.Reading.{Reading};
ghost use Rattle.phone_library.specs.Readings.{ReadsByLibrary};
ghost use Rattle.phone_print.specs.Layouts.{layout_by};
ghost use Rattle.phone_print.specs.Texts.{laid_out_by};
ghost use Rattle.phone_values.specs.declared.rules.Rules.{Rules};
ghost use Rattle.phone_records.specs.declared.loader.Metadata as loader;
ghost use Rattle.phone_library_laws.specs.Announced.{IsAnnounced, IsAnnouncedIfAny, IsDigits};
ghost use Rattle.phone_library_laws.specs.Announced.{IsParameterIfAny, prefix_of};
ghost use Rattle.phone_library_laws.specs.Announced.{sign_prefixes, word_prefixes};
ghost use Rattle.phone_library_laws.specs.Layouts.{IsLaidOut, is_quiet};

/// The extension of a number that was read, if it has one, is one to twenty digits of any script:
/// `;ext=` announces it, and so does ` ext. `, where its territory prefers no other prefix.
pub fn extensions()
    ensures read { (db : List loader.Metadata) (hint : Option Id) (text : List ℕ) (n : Reading) →
        ReadsByLibrary db hint text (Ok n) → IsParameterIfAny n.extension }
    ensures by_default { (m : loader.Metadata) (e : Option (List ℕ)) →
        m.preferred_extension_prefix ≡ None → IsParameterIfAny e →
        IsAnnouncedIfAny (prefix_of m) e }
{}

/// Which preferred prefixes announce an extension: ` ext. ` and ` Anexo ` up to twenty digits, and
/// ` x`, ` int `, ` int. ` and `#` up to nine. The world's territories have no others.
pub fn prefixes()
    ensures words { (w e : List ℕ) → list_any (bytes_eq w) word_prefixes ≡ true → IsDigits e →
        length (chars e) ≤ 20 → IsAnnounced w e }
    ensures signs { (w e : List ℕ) → list_any (bytes_eq w) sign_prefixes ≡ true → IsDigits e →
        length (chars e) ≤ 9 → IsAnnounced w e }
{}

/// A number that no layout is for by some rules is laid out as its digits by them; and where the
/// international text is laid out with quiet punctuation, so is that of RFC 3966 with separators.
pub fn layouts()
    ensures without { (rules : Rules) (m : loader.Metadata) (n : Reading) → IsHeld n.national →
        1 ≤ length (text_of n.national) →
        layout_by rules m mode.International None (text_of n.national) ≡ None →
        IsLaidOut is_quiet (chars (laid_out_by rules m mode.International None n))
        (text_of n.national) }
    ensures alike { (rules : Rules) (m : loader.Metadata) (n : Reading) (digits : List ℕ) →
        IsLaidOut is_quiet (chars (laid_out_by rules m mode.International None n)) digits →
        IsLaidOut is_separator (chars (laid_out_by rules m mode.Rfc3966 None n)) digits }
{}
