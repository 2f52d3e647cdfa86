//! What the readers find in a printed international text. The functions do nothing; their contracts
//! are the statements.
ghost use Rattle.std.specs.Prelude.{◌≡◌, ℕ, ◌≤◌, ◌||◌, true, false, List, [], ◌∷◌, ◌++◌, length};
ghost use Rattle.std.specs.Prelude.{codes, Option, Some, None};
ghost use Rattle.std.specs.List.{list_all, list_any};
ghost use Rattle.std.specs.Option.{option_map_or};
ghost use Rattle.phone_chars.specs.Characters.{is_digit, is_one_of, is_punctuation};
ghost use Rattle.phone_parts.specs.Announcements.{IsAnnouncement};
ghost use Rattle.phone_parts.specs.Readers.{HasParts};
ghost use Rattle.phone_parts.specs.Texts.{ends};

/// A printed international text is a plus sign, the digits of a code, a space, a number of digits
/// and punctuation with a digit in it, and perhaps ` ext. ` and at most seven digits, possibly
/// none. It is read as free text: the national part is the text up to the end of the number,
/// perhaps without some punctuation there; there is no prefix; the extension is the digits. `x`,
/// `~` and the fullwidth tilde may not stand in the number, as they announce extensions. Texts are
/// lists of characters.
pub fn international_parts()
    ensures { (code number : List ℕ) (extension : Option (List ℕ)) → list_all is_digit code ≡ true →
        list_all (λ c. is_digit c || is_punctuation c) number ≡ true →
        list_any (is_one_of (120 ∷ 126 ∷ 0xFF5E ∷ [])) number ≡ false →
        list_any is_digit number ≡ true → option_map_or (list_all is_digit) extension true ≡ true →
        option_map_or length extension 0 ≤ 7 →
        (kept : List ℕ) × (rest : List ℕ) × (number ≡ kept ++ rest) ×
        (list_all is_punctuation rest ≡ true)
        × HasParts (43 ∷ (code ++ 32 ∷ (number ++
        option_map_or (λ e. codes " ext. " ++ e) extension [])))
        (Some (record {
          national = 43 ∷ (code ++ 32 ∷ kept);
          prefix = None;
          extension = extension;
        })) }
{}

/// The same text with any announcement by a word in the place of ` ext. `, where the number ends in
/// a digit. The extension begins right behind that digit, as neither a lead nor a word has one: so
/// the number is kept whole.
pub fn announced_parts()
    ensures { (code number announcement extension : List ℕ) → list_all is_digit code ≡ true →
        list_all (λ c. is_digit c || is_punctuation c) number ≡ true →
        list_any (is_one_of (120 ∷ 126 ∷ 0xFF5E ∷ [])) number ≡ false →
        ends is_digit number ≡ true →
        IsAnnouncement announcement → list_all is_digit extension ≡ true → length extension ≤ 7 →
        HasParts (43 ∷ (code ++ 32 ∷ (number ++ (announcement ++ extension))))
        (Some (record {
          national = 43 ∷ (code ++ 32 ∷ number);
          prefix = None;
          extension = Some extension;
        })) }
{}
