//! The bytes with which a match of a pattern may begin. A text that begins with another byte has no
//! match at its front, which is known without a search.
ghost use Rattle.std.specs.Prelude.{◌≡◌, ◌≤◌, ◌<◌, ℕ, List, true, false, map};
ghost use Rattle.phone_automaton.specs.Fronts.{BeginsIn, may_begin};
ghost use Rattle.regex_class.specs.Ranges.{in_ranges};
ghost use Rattle.regex_extract.specs.Frames.{Has, Marks, Widens, sequence};
ghost use Rattle.regex_hir.specs.Meaning.{meaning, alt_all};
ghost use Rattle.regex_hir.specs.Re.{Re, char_in, literal};

use regex_class::Class;
use regex_hir::Hir;
use std::marker::Model;

/// For each byte, whether it is in a set.
type Set = [bool; 256];

/// The greatest byte.
const LAST: u32 = 0xFF;

/// The greatest byte of ASCII.
const LAST_ASCII: u32 = 0x7F;

/// A set of bytes with which matches may begin. Contracts see for each byte whether it is one.
#[derive(Drop)]
pub struct Fronts {
    set: Set,
}

impl Model for Fronts {
    ghost use Rattle.std.specs.Prelude.{Bool, List};

    ghost Value = { List Bool };

    ghost view = { λ f. f.set };
}

impl Fronts {
    /// All bytes.
    pub fn any() -> Fronts
        ensures { (b : ℕ) → b < 256 → Has result b }
    {
        let mut set = [false; 256];
        mark_range(0, LAST, &mut set);
        Fronts { set }
    }

    /// The bytes with which the matches of a tree begin; all where one may read nothing.
    pub fn of(hir: &Hir) -> Fronts
        ensures { BeginsIn result (meaning hir.now) }
    {
        let mut set = [false; 256];
        if mark(hir, &mut set) {
            return Fronts::any();
        }
        Fronts { set }
    }

    /// Whether a match may begin at the front of a text: the text is empty, or its first byte is in
    /// the set.
    #[inline]
    pub fn may_begin(&self, text: &[u8]) -> bool
        ensures { result ≡ may_begin self.now text.now }
    {
        match text.first() {
            Some(byte) => self.set[usize::from(*byte)],
            None => true,
        }
    }
}

/// Adds the bytes with which a match begins. Returns whether a match may read nothing.
#[cycle(mark)]
fn mark(hir: &Hir, set: &mut Set) -> bool
    ensures marks { Marks true false set.new result (meaning hir.now) }
    ensures keeps { Widens set.old set.new }
{
    match hir {
        Hir::Empty | Hir::Look(_) => true,
        Hir::Literal(bytes) => mark_first(bytes, set),
        Hir::Bytes(class) => {
            mark_class(class, LAST, set);
            false
        }
        Hir::Chars(class) => {
            mark_chars(class, set);
            false
        }
        Hir::Repetition { min, sub, .. } => mark(sub, set) || *min == 0,
        Hir::Capture { sub, .. } => mark(sub, set),
        Hir::Concat(subs) => mark_sequence(subs, set),
        Hir::Alternation(subs) => mark_choice(subs, set),
    }
}

/// The same of trees one after another.
#[cycle(mark)]
fn mark_sequence(subs: &[Hir], set: &mut Set) -> bool
    ensures marks { Marks true false set.new result (sequence subs.now) }
    ensures keeps { Widens set.old set.new }
{
    for i in 0..subs.len() {
        if !mark(&subs[i], set) {
            return false;
        }
    }
    true
}

/// The same of trees of which one matches.
#[cycle(mark)]
fn mark_choice(subs: &[Hir], set: &mut Set) -> bool
    ensures marks { Marks true false set.new result (alt_all (map meaning subs.now)) }
    ensures keeps { Widens set.old set.new }
{
    let mut silent = false;
    for i in 0..subs.len() {
        if mark(&subs[i], set) {
            silent = true;
        }
    }
    silent
}

/// Adds the first byte of a literal. Returns whether there is none.
fn mark_first(bytes: &[u8], set: &mut Set) -> bool
    ensures marks { Marks true false set.new result (literal bytes.now) }
    ensures keeps { Widens set.old set.new }
{
    if bytes.is_empty() {
        return true;
    }
    let byte = u32::from(bytes[0]);
    mark_range(byte, byte, set);
    false
}

/// Adds the first bytes of a class's characters. Each byte of a longer character is above ASCII.
fn mark_chars(class: &Class, set: &mut Set)
    ensures marks { Marks true false set.new false (char_in class.now.ranges.items) }
    ensures keeps { Widens set.old set.new }
{
    mark_class(class, LAST_ASCII, set);
    if !class.is_within(LAST_ASCII) {
        mark_range(0x80, LAST, set);
    }
}

/// Adds the members of a class up to this one.
fn mark_class(class: &Class, most: u32, set: &mut Set)
    requires { most ≤ 0xFF }
    ensures marks { (c : ℕ) → in_ranges class.now.ranges.items c ≡ true → c ≤ most →
        Has set.new c }
    ensures keeps { Widens set.old set.new }
{
    for range in class.ranges.iter() {
        if range.0 > most {
            return;
        }
        mark_range(range.0, range.1.min(most), set);
    }
}

/// Adds the bytes from the first to the last.
fn mark_range(first: u32, last: u32, set: &mut Set)
    requires { last ≤ 0xFF }
    ensures marks { (b : ℕ) → first ≤ b → b ≤ last → Has set.new b }
    ensures keeps { Widens set.old set.new }
{
    for byte in first as usize..last as usize + 1 {
        set[byte] = true;
    }
}
