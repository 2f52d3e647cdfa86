//! What announces an extension, looked for at the end of a text: from its last character on, so
//! that the time is linear in what stands behind the text's last digit.
ghost use Rattle.std.specs.Prelude.{◌≡◌, ℕ, ◌∷◌, ◌||◌, ◌&&◌, ◌==◌, [], List, ◌++◌, true, chars};
ghost use Rattle.std.specs.Prelude.{not};
ghost use Rattle.std.specs.Prelude.{IsTrue, IfSome, MatchOption, nat_le};
ghost use Rattle.phone_parts.specs.Longest.{AreEndsUpTo, IsWithoutLongest};
ghost use Rattle.phone_library_text.specs.Announcements.{pauses};
ghost use Rattle.phone_library_text.specs.Scans.{IsMarkGap, allowed, announces, announces_seen};
ghost use Rattle.phone_library_text.specs.Scans.{follows_some, seen_before, seen_in};

use crate::ends::{after, mark_gap_limit};
use crate::labels::{begins_named, begins_pause, is_parameter};
use crate::sets::{is_blank, is_dash, is_gap, is_lead, is_mark};
use phone_chars::chars::is_nd;
use phone_chars::cuts::split_last;

/// Which announcements may stand before the digits that are there.
#[derive(Clone, Copy)]
pub(crate) struct Allowed {
    /// `;ext=`
    pub parameter: bool,
    /// A word, as `ext`.
    pub words: bool,
    /// A sign, as `x`.
    pub signs: bool,
    /// Hyphens and spaces.
    pub dashes: bool,
    /// Two commas, or a semicolon.
    pub pauses: bool,
    /// Commas.
    pub commas: bool,
}

impl Allowed {
    /// Which may stand before so many digits, where a number sign follows these or doesn't.
    pub(crate) fn before(digits: usize, signed: bool) -> Allowed
        ensures { result ≡ allowed digits signed }
    {
        Allowed {
            parameter: digits <= 20 && !signed,
            words: digits <= 20,
            signs: digits <= 9,
            dashes: digits <= 6 && signed,
            pauses: digits <= 15,
            commas: digits <= 9,
        }
    }
}

/// What is known of an end of a text.
#[derive(Clone, Copy)]
pub(crate) struct Seen {
    /// It is a gap.
    pub gaps: bool,
    /// It is perhaps a mark, and a gap.
    pub ending: bool,
    /// It is a lead, a word or a sign, and such an ending.
    pub named: bool,
    /// It is commas and such an ending.
    pub commas: bool,
    /// It is blanks, a pause or commas, and such an ending.
    pub paused: bool,
    /// It is hyphens and spaces.
    pub dashes: bool,
}

impl Seen {
    /// What is known of the empty end.
    fn nothing(allowed: Allowed) -> Seen
        ensures { result ≡ seen_in allowed [] }
    {
        Seen {
            gaps: true,
            ending: true,
            named: false,
            commas: false,
            paused: false,
            dashes: true,
        }
    }

    /// What is known of the end that begins with this character, from what is known of all behind
    /// it.
    fn before(self, c: char, end: &str, allowed: Allowed, limit: usize) -> Seen
        requires { AreEndsUpTo IsMarkGap limit end.now }
        ensures { result ≡ seen_before allowed self c (chars end.now) }
    {
        let commas = c == ',' && (self.ending || self.commas);
        Seen {
            gaps: is_gap(c) && self.gaps,
            ending: (is_gap(c) || is_mark(c)) && self.gaps,
            named: begins_named(end, allowed, limit) || (is_lead(c) && self.named),
            commas,
            paused: is_paused(end, allowed, commas, limit) || (is_blank(c) && self.paused),
            dashes: is_dash(c) && self.dashes,
        }
    }

    /// Whether the end, which isn't empty, announces an extension.
    fn announces(self, end: &str, allowed: Allowed) -> bool
        ensures { result ≡ announces_seen allowed self (chars end.now) }
    {
        (allowed.parameter && is_parameter(end))
            || self.named
            || self.paused
            || (allowed.dashes && self.dashes)
    }
}

/// Whether the end begins with a pause or with commas that may stand there, where it is known
/// whether it is commas.
fn is_paused(end: &str, allowed: Allowed, commas: bool, limit: usize) -> bool
    requires { AreEndsUpTo IsMarkGap limit end.now }
    ensures { result ≡ ((allowed.pauses && follows_some pauses (chars end.now)) ||
        (allowed.commas && commas)) }
{
    (allowed.pauses && begins_pause(end, limit)) || (allowed.commas && commas)
}

/// What stands before the longest end of a text that announces an extension of so many digits,
/// which a number sign follows or not; none where no end does. No announcement has a digit, so none
/// is looked for before the last one.
pub(crate) fn before_announcement(text: &str, digits: usize, signed: bool) -> Option<&str>
    ensures read { MatchOption result
        ((before other : List ℕ) → chars text.now ≡ before ++ other →
        ¬ (announces (allowed digits signed) other ≡ true))
        (λ left. IsWithoutLongest (λ w. announces (allowed digits signed) w ≡
        true) (chars text.now) (chars left.now)) }
    ensures front { IfSome result (λ left. (v : List ℕ) × (text.now ≡ left.now ++ v)) }
{
    let allowed = Allowed::before(digits, signed);
    let limit = mark_gap_limit(text);
    let mut found = None;
    let mut left = text;
    let mut seen = Seen::nothing(allowed);
    while let Some((front, c)) = split_last(left) {
        if is_nd(c) {
            return found;
        }
        let end = after(text, front);
        seen = seen.before(c, end, allowed, limit);
        if seen.announces(end, allowed) {
            found = Some(front);
        }
        left = front;
    }
    found
}
