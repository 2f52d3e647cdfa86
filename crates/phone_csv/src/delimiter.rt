//! Which byte may stand between fields.
ghost use Rattle.std.specs.Prelude.{◌≡◌};
ghost use Rattle.phone_csv.specs.Formats.{is_delimiter};

/// Whether a byte may stand between fields: any but a quote, a carriage return and a line feed. A
/// record that is written with another one isn't read again as it was.
pub fn is_delimiter(byte: u8) -> bool
    ensures { result ≡ is_delimiter byte }
{
    byte != b'"' && byte != b'\r' && byte != b'\n'
}
