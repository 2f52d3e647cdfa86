//! The forms of numbers, truth values, texts, and of what is made of other things.
ghost use Rattle.std.specs.Prelude.{◌≡◌, ◌⊎◌, ◌++◌, IfOk, IfErr, OnOk};
ghost use Rattle.phone_compact.specs.Forms.{number_written, items};
ghost use Rattle.phone_compact.specs.Refusals.{IsRefused, IsNoList};
ghost use Rattle.phone_compact.specs.declared.error.NotRead.TheVariants as error;

use crate::error::NotRead;
use crate::form::Compact;
use crate::reader::Reader;
use phone_base::{Items, Text};
use std::alloc::{AllocError, Global};

/// Writes a number at the end.
fn write_number(number: usize, out: &mut Vec<u8>) -> Result<(), AllocError>
    ensures { OnOk result (out.new.items ≡ out.old.items ++ number_written number) }
{
    let mut rest = number;
    while rest >= 255 {
        out.push(255)?;
        rest -= 255;
    }
    out.push(rest as u8)?;
    Ok(())
}

impl Compact for u16 {
    ghost use Rattle.phone_compact.specs.Forms.{number};
    ghost use Rattle.phone_compact.specs.Unique.{number_unique};

    ghost form = { number };

    fn read(_alloc: Global, from: &mut Reader<'_>) -> Result<u16, NotRead> {
        Ok(from.number(65535)? as u16)
    }

    fn write(&self, out: &mut Vec<u8>) -> Result<(), AllocError> {
        write_number(usize::from(*self), out)
    }

    ghost unique = { number_unique };
}

impl Compact for bool {
    ghost use Rattle.phone_compact.specs.Forms.{truth};
    ghost use Rattle.phone_compact.specs.Unique.{truth_unique};

    ghost form = { truth };

    fn read(_alloc: Global, from: &mut Reader<'_>) -> Result<bool, NotRead> {
        match from.byte()? {
            0 => Ok(false),
            1 => Ok(true),
            _ => Err(NotRead::Malformed),
        }
    }

    fn write(&self, out: &mut Vec<u8>) -> Result<(), AllocError> {
        out.push(u8::from(*self))?;
        Ok(())
    }

    ghost unique = { truth_unique };
}

impl Compact for Text {
    ghost use Rattle.phone_compact.specs.Forms.{text};
    ghost use Rattle.phone_compact.specs.Unique.{text_unique};

    ghost form = { text };

    fn read(alloc: Global, from: &mut Reader<'_>) -> Result<Text, NotRead> {
        let greatest = from.remaining();
        let length = from.number(greatest)?;
        let bytes = from.bytes(length)?;
        match std::str::from_utf8(bytes) {
            Ok(text) => Ok(Text::from(String::from_str(alloc, text)?)),
            Err(_) => Err(NotRead::Malformed),
        }
    }

    fn write(&self, out: &mut Vec<u8>) -> Result<(), AllocError> {
        let text = self.as_str();
        write_number(text.len(), out)?;
        out.extend_from_slice(text.as_bytes())
    }

    ghost unique = { text_unique };
}

impl<T: Compact> Compact for Option<T> {
    ghost use Rattle.phone_compact.specs.Forms.{option};
    ghost use Rattle.phone_compact.specs.Unique.{option_unique};

    ghost form = { option T.form };

    fn read(alloc: Global, from: &mut Reader<'_>) -> Result<Option<T>, NotRead> {
        if bool::read(alloc, from)? {
            Ok(Some(T::read(alloc, from)?))
        } else {
            Ok(None)
        }
    }

    fn write(&self, out: &mut Vec<u8>) -> Result<(), AllocError> {
        match self {
            Some(value) => {
                true.write(out)?;
                value.write(out)
            }
            None => false.write(out),
        }
    }

    ghost unique = { option_unique T.form T.unique };
}

impl<T: Compact> Compact for Items<T> {
    ghost use Rattle.phone_compact.specs.Forms.{items};
    ghost use Rattle.phone_compact.specs.Unique.{items_unique};

    ghost form = { items T.form };

    fn read(alloc: Global, from: &mut Reader<'_>) -> Result<Items<T>, NotRead> {
        Ok(Items::from(read_items(alloc, from)?))
    }

    fn write(&self, out: &mut Vec<u8>) -> Result<(), AllocError> {
        write_items(self.as_slice(), out)
    }

    ghost unique = { items_unique T.form T.unique };
}

/// Reads a list from the front.
pub(crate) fn read_items<T: Compact>(
    alloc: Global,
    from: &mut Reader<'_>,
) -> Result<Vec<T>, NotRead>
    ensures value { IfOk result (λ v. from.old ≡ (items T.form).written v.items ++ from.new) }
    ensures refused { IfErr result (λ e. IsRefused (items T.form) from.old e) }
{
    let mut items = Vec::new(alloc);
    while bool::read(alloc, from)? {
        items.push(T::read(alloc, from)?)?;
    }
    Ok(items)
}

/// The list that all these bytes are.
pub(crate) fn read_whole<T: Compact>(alloc: Global, bytes: &[u8]) -> Result<Vec<T>, NotRead>
    ensures value { IfOk result (λ v. bytes.now ≡ (items T.form).written v.items) }
    ensures refused { IfErr result (λ e. (e ≡ error.Memory) ⊎ IsNoList T.form bytes.now) }
{
    let mut from = Reader::of(bytes);
    let items = read_items(alloc, &mut from)?;
    if from.is_at_end() {
        Ok(items)
    } else {
        Err(NotRead::Malformed)
    }
}

/// Writes a list at the end.
pub(crate) fn write_items<T: Compact>(list: &[T], out: &mut Vec<u8>) -> Result<(), AllocError>
    ensures { OnOk result (out.new.items ≡ out.old.items ++ (items T.form).written list.now) }
{
    for item in list {
        true.write(out)?;
        item.write(out)?;
    }
    false.write(out)
}

impl<A: Compact, B: Compact> Compact for (A, B) {
    ghost use Rattle.phone_compact.specs.Forms.{◌then◌};
    ghost use Rattle.phone_compact.specs.Unique.{then_unique};

    ghost form = { A.form then B.form };

    fn read(alloc: Global, from: &mut Reader<'_>) -> Result<(A, B), NotRead> {
        let first = A::read(alloc, from)?;
        Ok((first, B::read(alloc, from)?))
    }

    fn write(&self, out: &mut Vec<u8>) -> Result<(), AllocError> {
        self.0.write(out)?;
        self.1.write(out)
    }

    ghost unique = { then_unique A.form B.form A.unique B.unique };
}
