//! Sources that are decoded.
ghost use Rattle.std.specs.Prelude.{◌≡◌, ◌+◌, ◌<◌, ◌++◌, ℕ, List, [], length, OnOk, OnErr, true};
ghost use Rattle.std.specs.Prelude.{encode_utf8, false};
ghost use Rattle.phone_device.specs.Passing.{IsAtEnd, Passes};
ghost use Rattle.phone_encodings.specs.Decodings.{text_to_come};
ghost use Rattle.phone_encodings.specs.Encodings.{decoded};
ghost use Rattle.phone_encodings.specs.Unfinished.{IsUnfinished};
ghost use Rattle.phone_encodings.specs.declared.encoding.Encoding.{Encoding};
ghost use Rattle.phone_encodings.specs.declared.encoding.Encoding.TheVariants.{Utf16};

use crate::chars::{first_char, left_over};
use crate::encoding::{Encoding, known};
use crate::waiting::Waiting;
use phone_device::{ByteSource, Fault};
use std::marker::Model;

/// A source whose bytes are the text of another source, in UTF-8. That one's faults are its own. No
/// call takes memory. Contracts see what it is made of.
#[derive(Drop)]
pub struct Decoded<'s, S> {
    source: &'s mut S,
    encoding: Encoding,
    held: Waiting,
    text: Waiting,
}

impl<'s, S> Model for Decoded<'s, S> {
    ghost use Rattle.phone_encodings.specs.Decodings.{Decoding};

    ghost Value = { Decoding S };

    ghost view = { λ d. record {
      source = d.source.now;
      encoding = d.encoding;
      held = d.held;
      text = d.text;
    } };
}

impl<'s, S: ByteSource> Decoded<'s, S> {
    /// A source of the text that another one has in this encoding.
    pub fn new(source: &'s mut S, encoding: Encoding) -> Decoded<'s, S>
        ensures source { result.source ≡ source.old }
        ensures encoding { result.encoding ≡ encoding }
        ensures held { result.held ≡ [] }
        ensures text { result.text ≡ [] }
    {
        Decoded {
            source,
            encoding,
            held: Waiting::new(),
            text: Waiting::new(),
        }
    }

    /// Reads and decodes, so that there is text, unless the source has ended.
    fn decode_more(&mut self) -> Result<(), Fault>
        requires { self.old.text ≡ [] }
        ensures to_come { text_to_come self.new (S.to_come self.new.source) ≡
            text_to_come self.old (S.to_come self.old.source) }
        ensures end { OnOk result (self.new.text ≡ [] →
            IsAtEnd (text_to_come self.new (S.to_come self.new.source))) }
        ensures no_fault { OnOk result (S.faults self.new.source ≡ S.faults self.old.source) }
        ensures fault { OnErr result (S.faults self.new.source ≡ S.faults self.old.source + 1) }
    {
        fill_up(&mut self.held, self.source)?;
        self.encoding = known(self.encoding, self.held.bytes());
        decode(self.encoding, &mut self.held, &mut self.text);
        if self.text.is_empty() {
            decode_left_over(&mut self.held, &mut self.text);
        }
        Ok(())
    }
}

/// How many bytes a character takes at most.
const MOST_BYTES: usize = 4;

/// Reads until as many bytes are held as a character takes, or the source has ended.
fn fill_up<S: ByteSource>(held: &mut Waiting, source: &mut S) -> Result<(), Fault>
    ensures read { (read : List ℕ) × (held.new ≡ held.old ++ read) ×
        Passes (S.to_come source.old) read (S.to_come source.new) }
    ensures enough { OnOk result (length held.new < 4 → IsAtEnd (S.to_come source.new)) }
    ensures no_fault { OnOk result (S.faults source.new ≡ S.faults source.old) }
    ensures fault { OnErr result (S.faults source.new ≡ S.faults source.old + 1) }
{
    while held.bytes().len() < MOST_BYTES {
        if held.fill(source)? == 0 {
            return Ok(());
        }
    }
    Ok(())
}

/// Adds a character to a text, where it fits. It does where there is no text.
fn push_char(text: &mut Waiting, c: char) -> bool
    ensures pushed { result ≡ true → (text.new ≡ text.old ++ encode_utf8 c) × ¬ (text.new ≡ []) }
    ensures full { result ≡ false → (text.new ≡ text.old) × ¬ (text.old ≡ []) }
{
    let mut room = [0u8; 4];
    text.push(c.encode_utf8(&mut room).as_bytes())
}

/// Decodes what is held, as far as it tells characters and these fit.
fn decode(encoding: Encoding, held: &mut Waiting, text: &mut Waiting)
    requires known { encoding ≡ Utf16 → length held.old < 2 }
    ensures to_come { (more : List ℕ) → text.new ++ decoded encoding (held.new ++ more) ≡
        text.old ++ decoded encoding (held.old ++ more) }
    ensures done { text.new ≡ [] → (held.new ≡ held.old) × IsUnfinished encoding held.new }
{
    while let Some((c, n)) = first_char(encoding, held.bytes()) {
        if !push_char(text, c) {
            return;
        }
        held.pass(n);
    }
}

/// Decodes the first character of what is left over at the end, where there is any.
fn decode_left_over(held: &mut Waiting, text: &mut Waiting)
    requires { text.old ≡ [] }
    ensures to_come { (e : Encoding) → IsUnfinished e held.old →
        text.new ++ decoded e held.new ≡ decoded e held.old }
    ensures done { text.new ≡ [] → held.new ≡ [] }
{
    if let Some((c, n)) = left_over(held.bytes()) {
        let _fits = push_char(text, c);
        held.pass(n);
    }
}

impl<'s, S: ByteSource> ByteSource for Decoded<'s, S> {
    ghost use Rattle.phone_encodings.specs.Decodings.{text_to_come};

    ghost to_come = { λ d. text_to_come d (S.to_come d.source) };

    ghost faults = { λ d. S.faults d.source };

    fn read(&mut self, buf: &mut [u8]) -> Result<usize, Fault> {
        if !self.text.is_empty() {
            return Ok(self.text.give(buf));
        }
        self.decode_more()?;
        Ok(self.text.give(buf))
    }
}
