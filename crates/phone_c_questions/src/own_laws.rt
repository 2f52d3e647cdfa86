//! What a call says is said of one answer alone. These functions do nothing; their contracts are
//! the statements.
ghost use Rattle.std.specs.Prelude.{◌≡◌, ℕ, List};
ghost use Rattle.phone_records.specs.declared.loader.Metadata as loader;
ghost use Rattle.phone_c_base.specs.declared.number.Number as plain;
ghost use Rattle.phone_c_questions.specs.Letters.{IsDialledText, IsLetteredText};
ghost use Rattle.phone_c_questions.specs.Matches.{AreOwnMatch};
ghost use Rattle.phone_c_questions.specs.Own.{IsKnownCost, IsOwnMobileText, IsPossibilityOf};
ghost use Rattle.phone_c_questions.specs.Own.{IsReach};

/// Plain numbers can be dialled from abroad or can't; they cost one thing as a short number, and
/// are possible as a kind or not; with another's they match in one way; and a mobile phone dials
/// them in one way.
pub fn one_answer()
    ensures mobile { (db : List loader.Metadata) (id : List ℕ) (symbols : ℕ) (x : plain.Number)
        (bytes t u : List ℕ) → IsOwnMobileText db id symbols x bytes t →
        IsOwnMobileText db id symbols x bytes u → t ≡ u }
    ensures reach { (db : List loader.Metadata) (x : plain.Number) (j k : ℕ) →
        IsReach db x j → IsReach db x k → j ≡ k }
    ensures cost { (db short : List loader.Metadata) (x : plain.Number) (j k : ℕ) →
        IsKnownCost db short x j → IsKnownCost db short x k → j ≡ k }
    ensures possibility { (db : List loader.Metadata) (kind : ℕ) (x : plain.Number) (j k : ℕ) →
        IsPossibilityOf db kind x j → IsPossibilityOf db kind x k → j ≡ k }
    ensures alike { (x : plain.Number) (first : List ℕ) (y : plain.Number) (second : List ℕ)
        (j k : ℕ) → AreOwnMatch x first y second j → AreOwnMatch x first y second k → j ≡ k }
{}

/// With the letters of a text a number is dialled from a region in one way, as libphonenumber has
/// it and by our own answer.
pub fn one_way()
    ensures lettered { (db : List loader.Metadata) (region raw : List ℕ) (x : plain.Number)
        (bytes t u : List ℕ) → IsLetteredText db region raw x bytes t →
        IsLetteredText db region raw x bytes u → t ≡ u }
    ensures dialled { (db : List loader.Metadata) (region raw : List ℕ) (x : plain.Number)
        (bytes t u : List ℕ) → IsDialledText db region raw x bytes t →
        IsDialledText db region raw x bytes u → t ≡ u }
{}
