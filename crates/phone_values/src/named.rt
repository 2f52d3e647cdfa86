//! How sources and kinds are written and read, as a `derive` would do it: by the variant's name in
//! snake case, which is also read as the one key of an object over nothing. What a derive writes
//! goes from variant to variant, and of seventeen it takes long to prove.
use crate::Type;
use crate::country::Source;
use serde::{
    Case, Described, Deserialize, DeserializeOwned, Deserializer, Format, Kind, Name, NameKind,
    Serialize, Serializer,
};
use std::alloc::Global;

/// The names of variants, which are read in snake case.
macro_rules! names {
    ($($name:literal),* $(,)?) => {
        &[$(Name {
            name: $name,
            kind: NameKind::Variant,
            case: Case::Snake,
            aliases: &[],
            skipped: false,
        }),*]
    };
}

/// Nothing, and behind it the end of the object that it stands in.
fn read_nothing<F: Format>(from: &mut Deserializer<'_, '_, F>) -> Result<(), F::Error> {
    if !from.take_unit()? {
        return Err(from.invalid());
    }
    match from.next_key(&[])? {
        Some(_) => Err(from.invalid()),
        None => Ok(()),
    }
}

/// The place of the name that comes among these names, and whether it is the key of an object.
fn read_place<F: Format>(
    names: &[Name<'_>],
    from: &mut Deserializer<'_, '_, F>,
) -> Result<(usize, bool), F::Error> {
    if let Kind::Str = from.peek()? {
        return Ok((from.variant(names)?, false));
    }
    from.begin_map()?;
    match from.next_key(names)? {
        Some(at) => Ok((at, true)),
        None => Err(from.invalid()),
    }
}

/// The value whose name comes; the names are those of the values, in their order.
fn read_named<T: Copy, F: Format>(
    values: &[T],
    names: &[Name<'_>],
    from: &mut Deserializer<'_, '_, F>,
) -> Result<T, F::Error> {
    let (at, is_key) = read_place(names, from)?;
    let Some(value) = values.get(at) else {
        return Err(from.unknown_variant());
    };
    if is_key {
        read_nothing(from)?;
    }
    Ok(*value)
}

impl Described for Source {}

impl Serialize for Source {
    /// Writes the variant's name in snake case.
    fn serialize<S: Serializer>(&self, out: &mut S) -> Result<(), S::Error> {
        let name = match self {
            Source::Plus => "Plus",
            Source::Idd => "Idd",
            Source::Number => "Number",
            Source::Default => "Default",
        };
        out.str_cased(name, Case::Snake)
    }
}

/// The sources in their order.
const SOURCES: [Source; 4] = [Source::Plus, Source::Idd, Source::Number, Source::Default];

impl<'de> Deserialize<'de> for Source {
    /// Reads the variant's name in snake case.
    fn deserialize<F: Format>(
        _alloc: Global,
        from: &mut Deserializer<'de, '_, F>,
    ) -> Result<Source, F::Error> {
        read_named(&SOURCES, names!["Plus", "Idd", "Number", "Default"], from)
    }
}

impl DeserializeOwned for Source {
    fn deserialize_owned<F: Format>(
        alloc: Global,
        from: &mut Deserializer<'_, '_, F>,
    ) -> Result<Source, F::Error> {
        Source::deserialize(alloc, from)
    }
}

impl Described for Type {}

impl Serialize for Type {
    /// Writes the variant's name in snake case.
    fn serialize<S: Serializer>(&self, out: &mut S) -> Result<(), S::Error> {
        out.str_cased(self.name(), Case::Snake)
    }
}

/// The kinds, in the order in which they are declared.
pub const KINDS: [Type; 17] = [
    Type::FixedLine,
    Type::Mobile,
    Type::FixedLineOrMobile,
    Type::TollFree,
    Type::PremiumRate,
    Type::SharedCost,
    Type::PersonalNumber,
    Type::Voip,
    Type::Pager,
    Type::Uan,
    Type::Emergency,
    Type::Voicemail,
    Type::ShortCode,
    Type::StandardRate,
    Type::Carrier,
    Type::NoInternational,
    Type::Unknown,
];

impl<'de> Deserialize<'de> for Type {
    /// Reads the variant's name in snake case.
    fn deserialize<F: Format>(
        _alloc: Global,
        from: &mut Deserializer<'de, '_, F>,
    ) -> Result<Type, F::Error> {
        let names = names![
            "FixedLine",
            "Mobile",
            "FixedLineOrMobile",
            "TollFree",
            "PremiumRate",
            "SharedCost",
            "PersonalNumber",
            "Voip",
            "Pager",
            "Uan",
            "Emergency",
            "Voicemail",
            "ShortCode",
            "StandardRate",
            "Carrier",
            "NoInternational",
            "Unknown",
        ];
        read_named(&KINDS, names, from)
    }
}

impl DeserializeOwned for Type {
    fn deserialize_owned<F: Format>(
        alloc: Global,
        from: &mut Deserializer<'_, '_, F>,
    ) -> Result<Type, F::Error> {
        Type::deserialize(alloc, from)
    }
}
