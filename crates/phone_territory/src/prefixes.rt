//! Which prefixes of an extension a reader of free text knows.
ghost use Rattle.std.specs.Prelude.{◌≡◌};
ghost use Rattle.std.specs.Option.{option_copied};
ghost use Rattle.phone_territory.specs.Prefixes.{is_benign_prefix};

/// Whether there is no prefix, or it is a text that announces an extension.
pub fn is_benign(prefix: Option<&str>) -> bool
    ensures { result ≡ is_benign_prefix (option_copied prefix.entry) }
{
    match prefix {
        Some(text) => matches!(
            text,
            " ext. " | " ext " | " ext: " | " extn. " | " anexo " | " int " | " x"
        ),
        None => true,
    }
}
