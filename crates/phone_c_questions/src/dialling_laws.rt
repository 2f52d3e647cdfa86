//! What a call says is said of one answer alone. These functions do nothing; their contracts are
//! the statements.
ghost use Rattle.std.specs.Prelude.{◌≡◌, ℕ, List, Option};
ghost use Rattle.phone_values.specs.declared.reading.Reading.{Reading};
ghost use Rattle.phone_records.specs.declared.loader.Metadata as loader;
ghost use Rattle.phone_c_base.specs.declared.number.Number as plain;
ghost use Rattle.phone_c_questions.specs.Examples.{IsOfCode};
ghost use Rattle.phone_c_questions.specs.Formats.{IsMobileText, IsTextAsWritten, IsTextFrom};
ghost use Rattle.phone_c_questions.specs.Formats.{IsTextIn};
ghost use Rattle.phone_c_questions.specs.Layouts.{IsTextBy};
ghost use Rattle.phone_c_questions.specs.Services.{IsServiceOf};
ghost use Rattle.phone_c_questions.specs.ShortNumbers.{AreFactsAnywhere, HasExample};
ghost use Rattle.phone_c_questions.specs.declared.short.FactsAnywhere.{FactsAnywhere};

/// A number has one text in a mode; it is dialled in one way on a mobile phone, and in one from a
/// region; by layouts it has one text; one thing is known of it as a short number; a region has one
/// example of a cost; a number is an SMS service of it or isn't; and a calling code that serves no
/// region has one example.
pub fn one_answer()
    ensures text { (db : List loader.Metadata) (mode : ℕ) (raw : List ℕ) (x : plain.Number)
        (bytes t u : List ℕ) → IsTextIn db mode raw x bytes t → IsTextIn db mode raw x bytes u →
        t ≡ u }
    ensures mobile { (db : List loader.Metadata) (id : List ℕ) (symbols : ℕ) (raw : List ℕ)
        (x : plain.Number) (bytes t u : List ℕ) →
        IsMobileText db id symbols raw x bytes t → IsMobileText db id symbols raw x bytes u →
        t ≡ u }
    ensures from { (db : List loader.Metadata) (region raw : List ℕ) (x : plain.Number)
        (bytes t u : List ℕ) → IsTextFrom db region raw x bytes t →
        IsTextFrom db region raw x bytes u → t ≡ u }
    ensures layouts { (db own : List loader.Metadata) (mode : ℕ) (x : plain.Number)
        (bytes t u : List ℕ) → IsTextBy db own mode x bytes t → IsTextBy db own mode x bytes u →
        t ≡ u }
    ensures facts { (db short : List loader.Metadata) (x : plain.Number)
        (a b : FactsAnywhere) → AreFactsAnywhere db short x a → AreFactsAnywhere db short x b →
        a ≡ b }
    ensures example { (short : List loader.Metadata) (region : List ℕ) (cost : ℕ)
        (t u : Option (List ℕ)) → HasExample short region cost t → HasExample short region cost u →
        t ≡ u }
    ensures service { (db sms : List loader.Metadata) (region : List ℕ) (x : plain.Number)
        (a b : ℕ) → IsServiceOf db sms region x a → IsServiceOf db sms region x b → a ≡ b }
    ensures of_code { (db : List loader.Metadata) (code : ℕ) (m n : Reading) →
        IsOfCode db code m → IsOfCode db code n → m ≡ n }
{}

/// A number that was read from a text is printed in one way as that was written.
pub fn one_original()
    ensures { (db : List loader.Metadata) (region raw : List ℕ) (x : plain.Number)
        (bytes t u : List ℕ) → IsTextAsWritten db region raw x bytes t →
        IsTextAsWritten db region raw x bytes u → t ≡ u }
{}
