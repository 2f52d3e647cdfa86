//! What is true of the characters of every text: laws over their definitions alone, and rows of
//! single texts that are computed on the definitions. A law is a function without arguments whose
//! contract is the law; it does nothing.
ghost use Rattle.std.specs.Prelude.{◌≡◌, ℕ, List, [], ◌∷◌, true, chars, codes, encode_utf8_all};
ghost use Rattle.std.specs.List.{list_all};
ghost use Rattle.phone_chars.specs.Characters.{is_digit};
ghost use Rattle.phone_chars.specs.Norm.{norm};
ghost use Rattle.phone_chars.specs.Viable.{IsViable};

/// What is left of a text once it is normalised is digits alone, and normalising it again changes
/// nothing.
pub fn digits_stay()
    ensures digits { (t : List ℕ) → list_all is_digit (norm t) ≡ true }
    ensures again { (t : List ℕ) → norm (norm t) ≡ norm t }
{}

/// A text of digits is one list, as bytes and as characters; so the bytes of a normalised text are
/// its digits.
pub fn digits_are_bytes()
    ensures read { (t : List ℕ) → list_all is_digit t ≡ true → chars t ≡ t }
    ensures written { (t : List ℕ) → list_all is_digit t ≡ true → encode_utf8_all t ≡ t }
{}

/// Normalised texts: letters of the keypad, marks that give nothing, wide digits.
pub fn norm_rows()
    ensures letters { norm (codes "034-I-am-HUNGRY") ≡ codes "034426486479" }
    ensures marks { norm (codes "034-56&+#2") ≡ codes "034562" }
    ensures wide { norm (0xFF14 ∷ 0xFF12 ∷ codes "0") ≡ codes "420" }
{}

/// Texts that may be a number: two digits; three digits with letters behind them, a plus sign
/// before them, a small `x` between them.
pub fn viable_rows()
    ensures two { IsViable (codes "00") }
    ensures three { IsViable (codes "111") }
    ensures word { IsViable (codes "0800-4-pizza") }
    ensures capitals { IsViable (codes "0800-4-PIZZA") }
    ensures signed { IsViable (codes "+64 3 331 6005") }
    ensures between { IsViable (codes "1x2x3") }
{}

/// Texts that are no number: too few digits, plus signs or other characters among them, a letter
/// before the third digit.
pub fn not_viable_rows()
    ensures nothing { ¬ (IsViable []) }
    ensures one { ¬ (IsViable (codes "1")) }
    ensures plus_between { ¬ (IsViable (codes "1+1+1")) }
    ensures plus_after { ¬ (IsViable (codes "80+0")) }
    ensures two_and_letters { ¬ (IsViable (codes "08-PIZZA")) }
    ensures early_letter { ¬ (IsViable (codes "08-P1ZZA")) }
    ensures one_and_letters { ¬ (IsViable (codes "8-PIZZA")) }
    ensures date { ¬ (IsViable (codes "12. March")) }
    ensures address { ¬ (IsViable (codes "1110@gmail.com")) }
{}
