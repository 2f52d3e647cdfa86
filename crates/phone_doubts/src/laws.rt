//! What holds of the words of a field, and of two numbers in it. These functions do nothing; their
//! contracts are the statements.
ghost use Rattle.std.specs.Prelude.{◌≡◌, ℕ, List, Option};
ghost use Rattle.phone_records.specs.declared.loader.Metadata as loader;
ghost use Rattle.phone_values.specs.declared.country.Id.{Id};
ghost use Rattle.phone_values.specs.declared.reading.Reading.{Reading};
ghost use Rattle.phone_values.specs.declared.rules.Rules.{Rules};
ghost use Rattle.phone_doubts.specs.Doubts.{IsDoubted};
ghost use Rattle.phone_doubts.specs.Valid.{AreFirstTwo, AreReadAsTwo};

/// By either rules a field and the number that was read in it have one text of words at most,
/// under each database and hint.
pub fn one_answer()
    ensures { (rules : Rules) (db : List loader.Metadata) (hint : Option Id) (field : List ℕ)
        (number : Option Reading) (a b : List ℕ) → IsDoubted rules db hint field number a →
        IsDoubted rules db hint field number b → a ≡ b }
{}

/// By either rules a text is two numbers in one way at most, under each database and hint: its
/// parts are determined, and so are the numbers that they are read as.
pub fn one_pair()
    ensures parts { (rules : Rules) (db : List loader.Metadata) (hint : Option Id)
        (t a b c d : List ℕ) → AreFirstTwo rules db hint t a b →
        AreFirstTwo rules db hint t c d → (a ≡ c) × (b ≡ d) }
    ensures numbers { (rules : Rules) (db : List loader.Metadata) (hint : Option Id) (t : List ℕ)
        (n k m l : Reading) → AreReadAsTwo rules db hint t n k →
        AreReadAsTwo rules db hint t m l → (n ≡ m) × (k ≡ l) }
{}
