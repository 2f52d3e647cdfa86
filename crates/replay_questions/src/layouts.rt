//! Layouts that a line hands in: of each a pattern, a template, a leading pattern and a rule of
//! national text, a hyphen for none.
use anyhow::Result;
use phone_meta::Plans;
use replay_base::table::Row;
use std::alloc::{AllocError, Global};

/// How many columns a layout has.
const COLUMNS: usize = 4;

/// A database of one territory, whose layouts are those of a line from an argument on.
pub fn layouts(alloc: Global, row: &Row, first: usize) -> Result<Plans> {
    let mut text = String::from_str(
        alloc,
        "[{\"id\":\"001\",\"country_code\":1,\"general\":{\"national_number\":\"1\"},\"formats\":[",
    )?;
    for k in 0..row.arguments().saturating_sub(first) / COLUMNS {
        if k > 0 {
            text.push(',')?;
        }
        push_layout(
            &mut text,
            row,
            first.saturating_add(k.saturating_mul(COLUMNS)),
        )?;
    }
    text.push_str("]}]")?;
    Ok(Plans::parse(alloc, text.as_str())?)
}

/// Writes the layout of a line that begins at an argument.
fn push_layout(out: &mut String, row: &Row, at: usize) -> Result<(), AllocError> {
    let leading = row.argument(at.saturating_add(2));
    let rule = row.argument(at.saturating_add(3));
    out.push_str("{\"pattern\":")?;
    push_text(out, row.argument(at))?;
    out.push_str(",\"format\":")?;
    push_text(out, row.argument(at.saturating_add(1)))?;
    if leading != "-" {
        out.push_str(",\"leading_digits\":[")?;
        push_text(out, leading)?;
        out.push(']')?;
    }
    if rule != "-" {
        out.push_str(",\"national_prefix_formatting_rule\":")?;
        push_text(out, rule)?;
    }
    out.push('}')
}

/// Writes a text of JSON.
fn push_text(out: &mut String, text: &str) -> Result<(), AllocError> {
    out.push('"')?;
    for c in text.chars() {
        if matches!(c, '"' | '\\') {
            out.push('\\')?;
        }
        out.push(c)?;
    }
    out.push('"')
}
