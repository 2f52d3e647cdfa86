//! The engine that a call asks: of what is open, and under a hint that C gives by its bytes.
ghost use Rattle.std.specs.Prelude.{◌≡◌, IfNone, IfSome, None, Some};
ghost use Rattle.phone_c_base.specs.Hints.{hint_of};

use crate::hint::hint_of;
use crate::opened::Opened;
use phone_engine::Engine;

/// The engine of what is open: of its database, by the rules by which it is asked, without a hint.
pub fn engine_of(opened: &Opened) -> Engine<'_>
    ensures rules { result.rules ≡ opened.now.1 }
    ensures database { result.database.now ≡ opened.now.0 }
    ensures hint { result.hint ≡ None }
{
    Engine {
        database: opened.database(),
        rules: opened.rules(),
        hint: None,
    }
}

/// The same engine, under the hint that bytes are; none where they are no hint.
pub fn under<'d>(engine: Engine<'d>, hint: &[u8]) -> Option<Engine<'d>>
    ensures rules { IfSome result (λ e. e.rules ≡ engine.entry.rules) }
    ensures database { IfSome result (λ e. e.database.now ≡ engine.entry.database.now) }
    ensures hint { IfSome result (λ e. hint_of hint.now ≡ Some e.hint) }
    ensures none { IfNone result (hint_of hint.now ≡ None) }
{
    let hint = hint_of(hint)?;
    Some(Engine { hint, ..engine })
}
