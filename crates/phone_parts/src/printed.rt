//! What the readers find in texts of the two printed forms without spaces, E.164 and RFC 3966.
//! These functions do nothing; their contracts are the statements.
ghost use Rattle.std.specs.Prelude.{◌≡◌, ◌≤◌, ℕ, ◌==◌, ◌||◌, List, [], ◌∷◌, ◌++◌, length, codes};
ghost use Rattle.std.specs.Prelude.{Option, None, Some, IfSome, true};
ghost use Rattle.std.specs.List.{list_all};
ghost use Rattle.std.specs.Option.{option_map_or};
ghost use Rattle.phone_chars.specs.Characters.{is_digit};
ghost use Rattle.phone_parts.specs.Readers.{HasParts};

/// A plus sign and at least one ASCII digit are read as free text: all of it is the national part,
/// and there is neither prefix nor extension.
pub fn e164_parts()
    ensures { (digits : List ℕ) → list_all is_digit digits ≡ true → 1 ≤ length digits →
        HasParts (43 ∷ digits) (Some (record {
          national = 43 ∷ digits;
          prefix = None;
          extension = None;
        })) }
{}

/// `tel:+`, a code of at least one ASCII digit, a hyphen, ASCII digits and hyphens, and perhaps
/// `;ext=` with ASCII digits or nothing are read as a `tel:` text: the prefix is the code, the
/// national part the hyphen and what follows it, the extension what follows `;ext=`.
pub fn rfc3966_parts()
    ensures { (code national : List ℕ) (extension : Option (List ℕ)) →
        list_all is_digit code ≡ true → 1 ≤ length code →
        list_all (λ c. is_digit c || (c == 45)) national ≡ true →
        IfSome extension (λ e. list_all is_digit e ≡ true) →
        HasParts (codes "tel:+" ++ (code ++ 45 ∷
        (national ++ option_map_or (λ e. codes ";ext=" ++ e) extension [])))
        (Some (record { national = 45 ∷ national; prefix = Some code; extension = extension })) }
{}
