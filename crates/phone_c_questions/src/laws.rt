//! What a call says is said of one answer alone. These functions do nothing; their contracts are
//! the statements.
ghost use Rattle.std.specs.Prelude.{◌≡◌, ℕ, List};
ghost use Rattle.phone_values.specs.declared.reading.Reading.{Reading};
ghost use Rattle.phone_records.specs.declared.loader.Metadata as loader;
ghost use Rattle.phone_questions.specs.declared.matches.NumberMatch.{NumberMatch};
ghost use Rattle.phone_c_base.specs.declared.number.Number as plain;
ghost use Rattle.phone_c_questions.specs.Carriers.{IsNationalWith};
ghost use Rattle.phone_c_questions.specs.Matches.{AreLikeTexts, AreMatch, IsLikeText};
ghost use Rattle.phone_c_questions.specs.Numbers.{AreNumberFacts, IsPossibilityAs, IsValidityFor};
ghost use Rattle.phone_c_questions.specs.Truncation.{IsTruncated};
ghost use Rattle.phone_c_questions.specs.declared.numbers.NumberFacts.{NumberFacts};

/// Of plain numbers one thing is known; they are valid for an id, and possible as a kind, or not;
/// of them one number is left; with another's they match in one way; and with a carrier they have
/// one national text.
pub fn one_answer()
    ensures facts { (db : List loader.Metadata) (x : plain.Number) (a b : NumberFacts) →
        AreNumberFacts db x a → AreNumberFacts db x b → a ≡ b }
    ensures validity { (db : List loader.Metadata) (id : List ℕ) (x : plain.Number) (j k : ℕ) →
        IsValidityFor db id x j → IsValidityFor db id x k → j ≡ k }
    ensures possibility { (db : List loader.Metadata) (kind : ℕ) (x : plain.Number) (j k : ℕ) →
        IsPossibilityAs db kind x j → IsPossibilityAs db kind x k → j ≡ k }
    ensures left { (db : List loader.Metadata) (x y z : plain.Number) (j k : ℕ) →
        IsTruncated db x y j → IsTruncated db x z k → (j ≡ k) × (y ≡ z) }
    ensures alike { (x : plain.Number) (first : List ℕ) (y : plain.Number) (second : List ℕ)
        (j k : ℕ) → AreMatch x first y second j → AreMatch x first y second k → j ≡ k }
    ensures national { (db : List loader.Metadata) (x : plain.Number)
        (bytes carrier : List ℕ) (prefers_own : ℕ) (a b : List ℕ) →
        IsNationalWith db x bytes carrier prefers_own a →
        IsNationalWith db x bytes carrier prefers_own b → a ≡ b }
{}

/// A number and a text match in one way, and so do two texts, by whatever two numbers are, and one
/// is to one that was read beside it.
pub fn one_match()
    ensures text { (like guessed : Reading → Reading → NumberMatch) (db : List loader.Metadata)
        (x : plain.Number) (bytes t : List ℕ) (j k : ℕ) →
        IsLikeText like guessed db x bytes t j → IsLikeText like guessed db x bytes t k → j ≡ k }
    ensures texts { (like guessed : Reading → Reading → NumberMatch) (db : List loader.Metadata)
        (t u : List ℕ) (j k : ℕ) →
        AreLikeTexts like guessed db t u j → AreLikeTexts like guessed db t u k → j ≡ k }
{}
