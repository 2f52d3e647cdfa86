//! How texts and lists of records are written and read with serde: a text as a text, a list as the
//! sequence of its items.
use crate::{Items, Text};
use serde::{
    Described, Deserialize, DeserializeOwned, Deserializer, Format, Serialize, Serializer,
};
use std::alloc::Global;

impl Described for Text {
    ghost use Rattle.serde.specs.Event.{Logs, text};

    ghost writes = { λ t old new. Logs old new (text t) };
}

impl Serialize for Text {
    /// Writes the text.
    fn serialize<S: Serializer>(&self, out: &mut S) -> Result<(), S::Error> {
        self.as_str().serialize(out)
    }
}

impl<'de> Deserialize<'de> for Text {
    ghost use Rattle.std.specs.Prelude.{IfOk};
    ghost use Rattle.serde.specs.Event.{text};
    ghost use Rattle.serde.specs.Steps.{Gives};

    /// Reads a text.
    fn deserialize<F: Format>(
        alloc: Global,
        from: &mut Deserializer<'de, '_, F>,
    ) -> Result<Text, F::Error>
        ensures { IfOk result (λ t. Gives F.gives from.old (text t) from.new) }
    {
        Ok(Text::from(from.string(alloc)?))
    }
}

impl DeserializeOwned for Text {
    fn deserialize_owned<F: Format>(
        alloc: Global,
        from: &mut Deserializer<'_, '_, F>,
    ) -> Result<Text, F::Error> {
        Text::deserialize(alloc, from)
    }
}

impl<T: Described> Described for Items<T> {
    ghost use Rattle.serde.specs.Event.{WritesSeq};

    ghost writes = { λ items. WritesSeq T.writes items };
}

impl<T: Serialize> Serialize for Items<T> {
    /// Writes the items in turn.
    fn serialize<S: Serializer>(&self, out: &mut S) -> Result<(), S::Error> {
        self.as_slice().serialize(out)
    }
}

impl<'de, T: Deserialize<'de>> Deserialize<'de> for Items<T> {
    fn deserialize<F: Format>(
        alloc: Global,
        from: &mut Deserializer<'de, '_, F>,
    ) -> Result<Items<T>, F::Error> {
        Ok(Items::from(Vec::deserialize(alloc, from)?))
    }
}

impl<T: DeserializeOwned> DeserializeOwned for Items<T> {
    fn deserialize_owned<F: Format>(
        alloc: Global,
        from: &mut Deserializer<'_, '_, F>,
    ) -> Result<Items<T>, F::Error> {
        Ok(Items::from(Vec::deserialize_owned(alloc, from)?))
    }
}
