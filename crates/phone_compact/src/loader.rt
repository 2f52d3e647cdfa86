//! The forms of the records of a table.
ghost use Rattle.std.specs.Prelude.{◌≡◌, ◌++◌, OnOk};
ghost use Rattle.phone_compact.specs.Records.{kinds, kinds_of, prefixes, prefixes_of};
ghost use Rattle.phone_compact.specs.Records.{layouts, layouts_of, four_kinds};

use crate::error::NotRead;
use crate::form::Compact;
use crate::reader::Reader;
use phone_records::loader::{Defaults, Descriptor, Format, Items, Metadata, Text};
use std::alloc::{AllocError, Global};

/// A text that may be absent.
type Word = Option<Text>;

/// The fields of a descriptor.
type DescriptorFields = (Word, (Items<u16>, (Items<u16>, Word)));

impl Compact for Descriptor {
    ghost use Rattle.phone_compact.specs.Records.{descriptor};
    ghost use Rattle.phone_compact.specs.RecordsUnique.{descriptor_unique};

    ghost form = { descriptor };

    fn read(alloc: Global, from: &mut Reader<'_>) -> Result<Descriptor, NotRead> {
        let fields = DescriptorFields::read(alloc, from)?;
        let (national_number, (possible_length, (possible_local_length, example))) = fields;
        Ok(Descriptor {
            national_number,
            possible_length,
            possible_local_length,
            example,
        })
    }

    fn write(&self, out: &mut Vec<u8>) -> Result<(), AllocError> {
        self.national_number.write(out)?;
        self.possible_length.write(out)?;
        self.possible_local_length.write(out)?;
        self.example.write(out)
    }

    ghost unique = { descriptor_unique };
}

/// The fields of a layout.
type FormatFields = (Word, (Word, (Items<Text>, (Word, (bool, Word)))));

impl Compact for Format {
    ghost use Rattle.phone_compact.specs.Records.{format};
    ghost use Rattle.phone_compact.specs.RecordsUnique.{format_unique};

    ghost form = { format };

    fn read(alloc: Global, from: &mut Reader<'_>) -> Result<Format, NotRead> {
        let fields = FormatFields::read(alloc, from)?;
        let (pattern, (format, (leading_digits, (rule, (is_optional, domestic_carrier))))) = fields;
        Ok(Format {
            pattern,
            format,
            leading_digits,
            national_prefix_formatting_rule: rule,
            national_prefix_optional_when_formatting: is_optional,
            domestic_carrier,
        })
    }

    fn write(&self, out: &mut Vec<u8>) -> Result<(), AllocError> {
        self.pattern.write(out)?;
        self.format.write(out)?;
        self.leading_digits.write(out)?;
        self.national_prefix_formatting_rule.write(out)?;
        self.national_prefix_optional_when_formatting.write(out)?;
        self.domestic_carrier.write(out)
    }

    ghost unique = { format_unique };
}

impl Compact for Defaults {
    ghost use Rattle.phone_compact.specs.Records.{defaults};
    ghost use Rattle.phone_compact.specs.RecordsUnique.{defaults_unique};

    ghost form = { defaults };

    fn read(alloc: Global, from: &mut Reader<'_>) -> Result<Defaults, NotRead> {
        let (format, descriptor) = <(Format, Descriptor)>::read(alloc, from)?;
        Ok(Defaults { format, descriptor })
    }

    fn write(&self, out: &mut Vec<u8>) -> Result<(), AllocError> {
        self.format.write(out)?;
        self.descriptor.write(out)
    }

    ghost unique = { defaults_unique };
}

/// A descriptor that may be absent.
type Kind = Option<Descriptor>;

/// Four descriptors.
type FourKinds = (Kind, (Kind, (Kind, Kind)));

/// The descriptors of a territory.
type Kinds = (FourKinds, (FourKinds, (FourKinds, FourKinds)));

/// The id of a territory, its calling code and its prefixes.
type Prefixes = (
    Word,
    (Option<u16>, (Word, (Word, (Word, (Word, (Word, Word)))))),
);

/// The layouts of a territory, and what stands behind them.
type Layouts = (
    Items<Format>,
    (Items<Format>, (bool, (Word, (bool, Defaults)))),
);

/// A territory with these parts.
fn metadata_of(kinds: Kinds, prefixes: Prefixes, layouts: Layouts) -> Metadata
    ensures kinds { kinds_of result ≡ kinds }
    ensures prefixes { prefixes_of result ≡ prefixes }
    ensures layouts { layouts_of result ≡ layouts }
{
    let (first, (second, (third, fourth))) = kinds;
    let (general, (fixed_line, (mobile, toll_free))) = first;
    let (premium_rate, (shared_cost, (personal_number, voip))) = second;
    let (pager, (uan, (emergency, voicemail))) = third;
    let (short_code, (standard_rate, (carrier, no_international))) = fourth;
    let (id, (country_code, (international_prefix, prefixes))) = prefixes;
    let (preferred_international_prefix, (national_prefix, prefixes)) = prefixes;
    let (preferred_extension_prefix, prefixes) = prefixes;
    let (national_prefix_for_parsing, national_prefix_transform_rule) = prefixes;
    let (formats, (international_formats, (main_country_for_code, layouts))) = layouts;
    let (leading_digits, (mobile_number_portable, defaults)) = layouts;
    Metadata {
        general,
        fixed_line,
        mobile,
        toll_free,
        premium_rate,
        shared_cost,
        personal_number,
        voip,
        pager,
        uan,
        emergency,
        voicemail,
        short_code,
        standard_rate,
        carrier,
        no_international,
        id,
        country_code,
        international_prefix,
        preferred_international_prefix,
        national_prefix,
        preferred_extension_prefix,
        national_prefix_for_parsing,
        national_prefix_transform_rule,
        formats,
        international_formats,
        main_country_for_code,
        leading_digits,
        mobile_number_portable,
        defaults,
    }
}

/// Writes four descriptors.
fn write_four(
    first: &Kind,
    second: &Kind,
    third: &Kind,
    fourth: &Kind,
    out: &mut Vec<u8>,
) -> Result<(), AllocError>
    ensures { OnOk result (out.new.items ≡ out.old.items ++
        four_kinds.written (first.now, (second.now, (third.now, fourth.now)))) }
{
    first.write(out)?;
    second.write(out)?;
    third.write(out)?;
    fourth.write(out)
}

/// Writes the descriptors of a territory.
fn write_kinds(m: &Metadata, out: &mut Vec<u8>) -> Result<(), AllocError>
    ensures { OnOk result (out.new.items ≡ out.old.items ++ kinds.written (kinds_of m.now)) }
{
    write_four(&m.general, &m.fixed_line, &m.mobile, &m.toll_free, out)?;
    write_four(
        &m.premium_rate,
        &m.shared_cost,
        &m.personal_number,
        &m.voip,
        out,
    )?;
    write_four(&m.pager, &m.uan, &m.emergency, &m.voicemail, out)?;
    write_four(
        &m.short_code,
        &m.standard_rate,
        &m.carrier,
        &m.no_international,
        out,
    )
}

/// Writes the id of a territory, its calling code and its prefixes.
fn write_prefixes(m: &Metadata, out: &mut Vec<u8>) -> Result<(), AllocError>
    ensures { OnOk result (out.new.items ≡ out.old.items ++
        prefixes.written (prefixes_of m.now)) }
{
    m.id.write(out)?;
    m.country_code.write(out)?;
    m.international_prefix.write(out)?;
    m.preferred_international_prefix.write(out)?;
    m.national_prefix.write(out)?;
    m.preferred_extension_prefix.write(out)?;
    m.national_prefix_for_parsing.write(out)?;
    m.national_prefix_transform_rule.write(out)
}

/// Writes the layouts of a territory, and what stands behind them.
fn write_layouts(m: &Metadata, out: &mut Vec<u8>) -> Result<(), AllocError>
    ensures { OnOk result (out.new.items ≡ out.old.items ++ layouts.written (layouts_of m.now)) }
{
    m.formats.write(out)?;
    m.international_formats.write(out)?;
    m.main_country_for_code.write(out)?;
    m.leading_digits.write(out)?;
    m.mobile_number_portable.write(out)?;
    m.defaults.write(out)
}

impl Compact for Metadata {
    ghost use Rattle.phone_compact.specs.Records.{metadata};
    ghost use Rattle.phone_compact.specs.RecordsUnique.{metadata_unique};

    ghost form = { metadata };

    fn read(alloc: Global, from: &mut Reader<'_>) -> Result<Metadata, NotRead> {
        let (kinds, (prefixes, layouts)) = <(Kinds, (Prefixes, Layouts))>::read(alloc, from)?;
        Ok(metadata_of(kinds, prefixes, layouts))
    }

    fn write(&self, out: &mut Vec<u8>) -> Result<(), AllocError> {
        write_kinds(self, out)?;
        write_prefixes(self, out)?;
        write_layouts(self, out)
    }

    ghost unique = { metadata_unique };
}
