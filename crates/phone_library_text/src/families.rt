//! The words and signs that announce an extension, by the folding of their first character. Those
//! that begin alike are a family: they have one front.
ghost use Rattle.std.specs.Prelude.{◌≡◌, ℕ, List, chars, map};
ghost use Rattle.std.specs.Borrow.{Bor};
ghost use Rattle.phone_library_text.specs.Announcements.{signs, words};
ghost use Rattle.phone_library_text.specs.Scans.{all_behind, begun_by};

const EXT_ENDS: [&str; 8] = [
    "",
    "n",
    "ensio",
    "ension",
    "ensio\u{301}",
    "ensio\u{301}n",
    "ensi\u{F3}",
    "ensi\u{F3}n",
];

const WIDE_EXT_ENDS: [&str; 2] = ["", "\u{FF4E}"];

const FRONT_ALONE: [&str; 1] = [""];

const NONE: [&str; 0] = [];

/// Words with one front: that front, and what each of them has behind it.
#[derive(Clone, Copy)]
pub(crate) struct Family {
    pub front: &'static str,
    pub ends: &'static [&'static str],
}

/// The words that mean an extension and begin with this folding.
pub(crate) fn words_from(folding: char) -> Family
    ensures { all_behind (chars result.front.now) (map (λ (w : Bor (List ℕ)).
        chars w.now) result.ends.now) ≡ begun_by folding words }
{
    match folding {
        'x' => Family {
            front: "xt",
            ends: &EXT_ENDS,
        },
        'e' => Family {
            front: "ext",
            ends: &EXT_ENDS,
        },
        '\u{FF58}' => Family {
            front: "\u{FF58}\u{FF54}",
            ends: &WIDE_EXT_ENDS,
        },
        '\u{FF45}' => Family {
            front: "\u{FF45}\u{FF58}\u{FF54}",
            ends: &WIDE_EXT_ENDS,
        },
        '\u{434}' => Family {
            front: "\u{434}\u{43E}\u{431}",
            ends: &FRONT_ALONE,
        },
        'a' => Family {
            front: "anexo",
            ends: &FRONT_ALONE,
        },
        _ => Family {
            front: "",
            ends: &NONE,
        },
    }
}

/// The signs that may mean one and begin with this folding.
pub(crate) fn signs_from(folding: char) -> Family
    ensures { all_behind (chars result.front.now) (map (λ (w : Bor (List ℕ)).
        chars w.now) result.ends.now) ≡ begun_by folding signs }
{
    match folding {
        'x' => Family {
            front: "x",
            ends: &FRONT_ALONE,
        },
        '\u{FF58}' => Family {
            front: "\u{FF58}",
            ends: &FRONT_ALONE,
        },
        '#' => Family {
            front: "#",
            ends: &FRONT_ALONE,
        },
        '\u{FF03}' => Family {
            front: "\u{FF03}",
            ends: &FRONT_ALONE,
        },
        '~' => Family {
            front: "~",
            ends: &FRONT_ALONE,
        },
        '\u{FF5E}' => Family {
            front: "\u{FF5E}",
            ends: &FRONT_ALONE,
        },
        'i' => Family {
            front: "int",
            ends: &FRONT_ALONE,
        },
        '\u{FF49}' => Family {
            front: "\u{FF49}\u{FF4E}\u{FF54}",
            ends: &FRONT_ALONE,
        },
        _ => Family {
            front: "",
            ends: &NONE,
        },
    }
}
