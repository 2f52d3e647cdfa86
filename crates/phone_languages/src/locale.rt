//! Locales, and which files of a language they ask for.
ghost use Rattle.std.specs.Prelude.{◌≡◌, ◌<◌, ℕ, IfOk, IfSome, MatchOption, length, map, take};
ghost use Rattle.std.specs.Prelude.{nat_eq, string_bytes};
ghost use Rattle.std.specs.List.{ends_with};
ghost use Rattle.phone_languages.specs.Locales.{AreNameFiles, IsLastHyphen, Lacks, is_alone};
ghost use Rattle.phone_languages.specs.Locales.{has_traditional_region, is_traditional, language};
ghost use Rattle.phone_languages.specs.Locales.{normal, normalized, text_file};

use std::alloc::{AllocError, Global};
use std::marker::Model;

/// The file of texts in traditional Chinese.
const TRADITIONAL: &str = "zh_Hant";

/// A locale: a language, perhaps with a script and a region, as `pt`, `zh_TW`, `sr-Latn-RS`.
/// Contracts see it in small letters, with a hyphen between its parts.
#[derive(Drop)]
pub struct Locale {
    text: String,
}

impl Model for Locale {
    ghost use Rattle.std.specs.Prelude.{List, ℕ, string_bytes};

    ghost Value = { List ℕ };

    ghost view = { λ l. string_bytes l.text };
}

impl Locale {
    /// The locale that is written so, its letters capital or small, its parts with hyphens or
    /// underscores between them. Refused only for memory.
    pub fn of(alloc: Global, text: &str) -> Result<Locale, AllocError>
        ensures { IfOk result (λ l. l ≡ normalized text.now) }
    {
        let text = normalized(alloc, text)?;
        Ok(Locale { text })
    }

    /// Its text, in small letters, with hyphens. Takes no memory.
    pub fn as_str(&self) -> &str
        ensures { result.now ≡ self.now }
    {
        self.text.as_str()
    }

    /// Its language: the first part. Takes no memory.
    pub fn language(&self) -> &str
        ensures { result.now ≡ language self.now }
    {
        first_part(self.as_str())
    }

    /// The name of the file that has its texts by prefixes: that of its language, and `zh_Hant` for
    /// Chinese of Taiwan, Hong Kong and Macau. Takes no memory.
    pub fn text_file(&self) -> &str
        ensures { result.now ≡ text_file self.now }
    {
        if self.is_traditional() {
            TRADITIONAL
        } else {
            self.language()
        }
    }

    /// Whether it is Chinese of a region that writes in the traditional script.
    fn is_traditional(&self) -> bool
        ensures { result ≡ is_traditional self.now }
    {
        self.language() == "zh" && has_traditional_region(self.as_str())
    }

    /// Whether its language stands alone: Chinese, Japanese and Korean, behind whose texts no
    /// English is asked. Takes no memory.
    pub fn is_alone(&self) -> bool
        ensures { result ≡ is_alone self.now }
    {
        let language = self.language();
        language == "zh" || language == "ja" || language == "ko"
    }

    /// The names of the files that may have its names of regions, in the order in which they are
    /// asked: that of the locale, of it without its last part, and so on. Refused only for memory.
    pub fn name_files(&self, alloc: Global) -> Result<Vec<&str>, AllocError>
        ensures { IfOk result (λ files. AreNameFiles self.now (map (λ f. f.now) files.items)) }
    {
        let mut rest = self.as_str();
        let mut files = Vec::new(alloc);
        files.push(rest)?;
        while let Some(front) = without_last_part(rest) {
            rest = front;
            files.push(rest)?;
        }
        Ok(files)
    }
}

/// A locale's text in small letters, with hyphens between its parts. Refused only for memory.
fn normalized(alloc: Global, text: &str) -> Result<String, AllocError>
    ensures { IfOk result (λ s. string_bytes s ≡ normalized text.now) }
{
    text.chars().map(normal).collect(alloc)
}

/// A character as it stands in a locale: in small letters, a hyphen for an underscore.
fn normal(c: char) -> char
    ensures { result ≡ normal c }
{
    if c == '_' {
        '-'
    } else {
        c.to_ascii_lowercase()
    }
}

/// What stands before the first hyphen; all where there is none.
fn first_part(text: &str) -> &str
    ensures { result.now ≡ language text.now }
{
    match text.split_once('-') {
        Some((front, _)) => front,
        None => text,
    }
}

/// Whether the last of several parts is a region that writes Chinese in the traditional script.
fn has_traditional_region(text: &str) -> bool
    ensures { result ≡ has_traditional_region text.now }
{
    stands_at_end("-tw", text) || stands_at_end("-hk", text) || stands_at_end("-mo", text)
}

/// Whether one text is an end of another.
fn stands_at_end(end: &str, text: &str) -> bool
    ensures { result ≡ ends_with nat_eq text.now end.now }
{
    text.ends_with(end)
}

/// What stands before the last hyphen; none where there is none.
fn without_last_part(text: &str) -> Option<&str>
    ensures cut { MatchOption result (Lacks 45 text.now) (λ front. (at : ℕ) ×
        IsLastHyphen text.now at × (front.now ≡ take at text.now)) }
    ensures shorter { IfSome result (λ front. length front.now < length text.now) }
{
    match text.rfind('-') {
        Some(at) => Some(&text[..at]),
        None => None,
    }
}
