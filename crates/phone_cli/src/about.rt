//! What the program says of itself, and of what words it knows.
ghost use Rattle.std.specs.Prelude.{◌≡◌, ℕ, List, None, OnOk, Option, map, option_map};
ghost use Rattle.std.specs.Prelude.{string_bytes};
ghost use Rattle.phone_cli.specs.Abouts.{region_line, region_lines, regions_text, rules_line};
ghost use Rattle.phone_cli.specs.Abouts.{table_line, version_text};
ghost use Rattle.phone_cli.specs.Streams.{Writes};
ghost use Rattle.phone_cli.specs.declared.names.TheConstants.{REGIONS};
ghost use Rattle.phone_values.specs.declared.country.TheConstants.{ALL};

use crate::names::REGIONS;
use crate::say::write_str;
use phone_device::{ByteSink, Fault, write_out};
use phone_engine::Rules;
use phone_values::country::Id;
use std::alloc::AllocGlobal;
use std::fs::{self, Files};

/// Which program this is.
const NAME: &str = "phonenumber, a port of the Rust crate phonenumber 0.3.10 to Rattle\n";

/// Writes a text that the program tells of itself.
pub(crate) fn write_text<W: ByteSink>(output: &mut W, text: &str) -> Result<(), Fault>
    ensures written { Writes text.now (W.taken output.old) (W.faults output.old)
        (W.taken output.new) (W.faults output.new) result }
    ensures handed_on { OnOk result (W.unflushed output.new ≡ 0) }
{
    write_out(output, text.as_bytes())
}

/// Writes a line for each region: its id, a tab and its English name.
pub(crate) fn write_regions<W: ByteSink>(output: &mut W) -> Result<(), Fault>
    ensures written { Writes regions_text (W.taken output.old) (W.faults output.old)
        (W.taken output.new) (W.faults output.new) result }
    ensures handed_on { OnOk result (W.unflushed output.new ≡ 0) }
    ensures all { map (λ r. r.0) REGIONS ≡ ALL }
{
    write_region_lines(output, &REGIONS)?;
    output.flush()
}

/// Writes the lines of regions.
fn write_region_lines<W: ByteSink>(output: &mut W, regions: &[(Id, &str)]) -> Result<(), Fault>
    ensures { Writes (region_lines regions.now) (W.taken output.old) (W.faults output.old)
        (W.taken output.new) (W.faults output.new) result }
{
    for (id, name) in regions {
        write_region_line(output, *id, *name)?;
    }
    Ok(())
}

/// Writes the line of a region.
fn write_region_line<W: ByteSink>(output: &mut W, id: Id, name: &str) -> Result<(), Fault>
    ensures { Writes (region_line id name.now) (W.taken output.old) (W.faults output.old)
        (W.taken output.new) (W.faults output.new) result }
{
    write_str(output, id.as_str())?;
    write_str(output, "\t")?;
    write_str(output, name)?;
    write_str(output, "\n")
}

/// The folder of a path, with its slash; empty where it names none.
fn folder(path: &str) -> &str {
    match path.rsplit_once('/') {
        Some((front, _)) => path.get(..front.len() + 1).unwrap_or(""),
        None => "",
    }
}

/// The version of the table in a file: what stands in the file `VERSION` beside it.
fn table_version<R: Files + AllocGlobal>(rt: &R, path: &str) -> Option<String> {
    let folder = folder(path);
    let beside = format!(in rt.alloc(); "{folder}VERSION").ok()?;
    fs::read_to_string(rt, beside.as_str()).ok()
}

/// By whose rules numbers are read, in a line.
fn rules_line(rules: Rules) -> &'static str
    ensures { result.now ≡ rules_line rules }
{
    match rules {
        Rules::Library => "rules: those of libphonenumber (--rules library)\n",
        Rules::Crate => "rules: those of the Rust crate phonenumber (--rules crate)\n",
    }
}

/// Writes the version of the table, where that is known.
fn write_table_line<W: ByteSink>(output: &mut W, version: &Option<String>) -> Result<(), Fault>
    ensures { Writes (table_line (option_map string_bytes version.now)) (W.taken output.old)
        (W.faults output.old) (W.taken output.new) (W.faults output.new) result }
{
    let Some(version) = version else {
        return Ok(());
    };
    write_str(output, "table of the world: ")?;
    write_str(output, version.as_str())
}

/// Writes which program this is, by whose rules it reads, and this version of the table, where that
/// is known.
fn write_lines<W: ByteSink>(
    output: &mut W,
    rules: Rules,
    version: &Option<String>,
) -> Result<(), Fault>
    ensures { Writes (version_text rules (option_map string_bytes version.now))
        (W.taken output.old) (W.faults output.old) (W.taken output.new) (W.faults output.new)
        result }
{
    write_str(output, NAME)?;
    write_str(output, rules_line(rules))?;
    write_table_line(output, version)
}

/// The version of the table in a file, where one is named and that is known.
fn version_of<R: Files + AllocGlobal>(rt: &R, path: Option<&str>) -> Option<String>
    ensures { path.entry ≡ None → result ≡ None }
{
    match path {
        Some(path) => table_version(rt, path),
        None => None,
    }
}

/// Writes which program this is, by whose rules it reads, and the version of the table, where that
/// is known: what a file beside it holds, of which no contract tells.
pub(crate) fn write_version<R: Files + AllocGlobal, W: ByteSink>(
    rt: &R,
    path: Option<&str>,
    rules: Rules,
    output: &mut W,
) -> Result<(), Fault>
    ensures written { (version : Option (List ℕ)) × (path.entry ≡ None → version ≡ None) ×
        Writes (version_text rules version) (W.taken output.old) (W.faults output.old)
        (W.taken output.new) (W.faults output.new) result }
    ensures handed_on { OnOk result (W.unflushed output.new ≡ 0) }
{
    let version = version_of(rt, path);
    write_lines(output, rules, &version)?;
    output.flush()
}
