//! Rows that are computed on the definitions of the two readers. These functions do nothing; their
//! contracts are the rows.
ghost use Rattle.std.specs.Prelude.{◌≡◌, ℕ, List, [], ◌∷◌, ◌++◌, length, codes, Some, None, Ok};
ghost use Rattle.std.specs.Prelude.{Err, true};
ghost use Rattle.std.specs.List.{list_any};
ghost use Rattle.std.specs.Str.{bytes_eq};
ghost use Rattle.phone_parts.specs.Cores.{IsCore};
ghost use Rattle.phone_parts.specs.Naturals.{IsNatural};
ghost use Rattle.phone_parts.specs.Suffixes.{IsSuffix, indicators};
ghost use Rattle.phone_parts.specs.Parts.{Parts};
ghost use Rattle.phone_parts.specs.Tel.{IsTel};
ghost use Rattle.phone_parts.specs.Texts.{is_like};
ghost use Rattle.phone_parts.specs.declared.natural.NoReading.TheVariants.{Error};
ghost use Rattle.phone_parts.specs.declared.suffix.Form.TheVariants.{Parameter, Indicated};
ghost use Rattle.phone_parts.specs.declared.suffix.Form.TheVariants.{NumberSign};

/// Cores: what stands before the first digit or plus sign is cut, what stands after the last
/// letter, number or `#`, and what begins with the mark of a second number.
pub fn core_rows()
    ensures brackets { IsCore (codes "(650) 253-0000..- ..") (codes "650) 253-0000") }
    ensures words { IsCore (codes "Tel:+800-345-600") (codes "+800-345-600") }
    ensures mark { IsCore (0x28 ∷ codes "650) 253-0000" ++ 0x200F ∷ []) (codes "650) 253-0000") }
    ensures wide { IsCore (codes "Num-" ++ 0xFF11 ∷ 0xFF12 ∷ 0xFF13 ∷ []) (0xFF11 ∷ 0xFF12 ∷
        0xFF13 ∷ []) }
    ensures second_number { IsCore (codes "508/x30") (codes "508") }
{}

/// Texts without a core: without anything at which a number starts, or without anything in which
/// one ends after that.
pub fn no_core_rows()
    ensures no_start { (core : List ℕ) → ¬ (IsCore (codes "Num-....") core) }
    ensures sign_alone { (core : List ℕ) → ¬ (IsCore (codes "+") core) }
    ensures nothing { (core : List ℕ) → ¬ (IsCore [] core) }
{}

/// Readings of `tel:` texts: the prefix of a plus sign and of a context, parameters in any order, a
/// repeated one.
pub fn tel_rows()
    ensures context { IsTel (codes "tel:2034567890;ext=456;phone-context=+44")
        (record {
          national = codes "2034567890";
          prefix = Some (codes "44");
          extension = Some (codes "456");
        }) }
    ensures plus { IsTel (codes "tel:+64-3-331-6005;ext=1235")
        (record {
          national = codes "-3-331-6005";
          prefix = Some (codes "64");
          extension = Some (codes "1235");
        }) }
    ensures ignored { IsTel (codes "03-331-6005;phone-context=+64;a=%A1")
        (record { national = codes "03-331-6005"; prefix = Some (codes "64"); extension = None }) }
    ensures any_case { IsTel (codes "TEL:12")
        (record { national = codes "12"; prefix = None; extension = None }) }
    ensures last_counts { IsTel (codes "12;ext=1;ext=2")
        (record { national = codes "12"; prefix = None; extension = Some (codes "2") }) }
    ensures exact_names { IsTel (codes "12;ext=1;Ext=3")
        (record { national = codes "12"; prefix = None; extension = Some (codes "1") }) }
{}

/// Texts without the `tel:` form: the run after the plus sign takes all, a space, a plus sign
/// alone, other letters.
pub fn not_tel_rows()
    ensures all_in_run { (p : Parts) → ¬ (IsTel (codes "+6433316005") p) }
    ensures space { (p : Parts) → ¬ (IsTel (codes "1 2") p) }
    ensures sign_alone { (p : Parts) → ¬ (IsTel (codes "+") p) }
    ensures other_letters { (p : Parts) → ¬ (IsTel (codes "0800-4-pizza") p) }
{}

/// Extensions: one of each form, and for the indicated form one of each kind of indicator.
pub fn extension_rows()
    ensures parameter { IsSuffix (codes ";EXT=12") Parameter (codes "12") }
    ensures number_signed { IsSuffix (codes " - 12#") NumberSign (codes "12") }
    ensures word { IsSuffix (codes ", Exten" ++ 0x17F ∷ codes "ion. 12#") Indicated (codes "12") }
    ensures wide_word { IsSuffix (0xFF38 ∷ 0xFF34 ∷ 0xFF4E ∷ 0x661 ∷ []) Indicated (0x661 ∷ []) }
    ensures sign { IsSuffix (codes ",;") Indicated [] }
    ensures other_word { IsSuffix (codes "anexo:-7") Indicated (codes "7") }
{}

/// Each of the 31 indicators announces an extension, and so does each text that is like one, as in
/// capitals.
pub fn indicator_rows()
    ensures count { length indicators ≡ 31 }
    ensures each { (w : List ℕ) → list_any (bytes_eq w) indicators ≡
        true → IsSuffix (w ++ codes "5") Indicated (codes "5") }
    ensures like { (w : List ℕ) → list_any (is_like w) indicators ≡
        true → IsSuffix (w ++ codes "5") Indicated (codes "5") }
{}

/// Readings of free text: each of the three cases, and each of the three forms of an extension.
pub fn natural_rows()
    ensures whole_text { IsNatural (codes "650253")
        (Ok (record { national = codes "650253"; prefix = None; extension = None })) }
    ensures spaced { IsNatural (codes "650 253 0000 extn. 4567")
        (Ok (record {
          national = codes "650 253 0000";
          prefix = None;
          extension = Some (codes "4567");
        })) }
    ensures no_digits { IsNatural (codes "+64 3 331 6005x")
        (Ok (record { national = codes "+64 3 331 6005"; prefix = None; extension = Some [] })) }
    ensures extended { IsNatural (codes "+64331x12")
        (Ok (record { national = codes "+64331"; prefix = None; extension = Some (codes "12") })) }
    ensures parameter { IsNatural (codes "650;ext=5")
        (Ok (record { national = codes "650"; prefix = None; extension = Some (codes "5") })) }
    ensures sign { IsNatural (codes "650 5#")
        (Ok (record { national = codes "650"; prefix = None; extension = Some (codes "5") })) }
    ensures longer_sign { IsNatural (codes "+64 3 331 6005#")
        (Ok (record {
          national = codes "+64 3 331";
          prefix = None;
          extension = Some (codes "6005");
        })) }
    ensures no_number { IsNatural (codes "Num-....") (Err Error) }
    ensures no_digit { IsNatural (codes "+") (Err Error) }
{}
