//! Whether a number belongs to a territory, and its kind there, where that was to be known.
ghost use Rattle.std.specs.Prelude.{◌≡◌, ℕ, List, IfOk};
ghost use Rattle.phone_records.specs.declared.loader.Metadata as loader;
ghost use Rattle.phone_read.specs.Kinds.{belongs_to, is_known, type_of};
ghost use Rattle.phone_read.specs.Belonging.{IsOfKind, is_member};

use crate::kinds::number_type_in;
use phone_plans::Territory;
use phone_territory::Subject;
use phone_values::Type;
use std::alloc::AllocError;

/// Whether a number belongs to a territory, as it was found out.
#[derive(Clone, Copy)]
pub(crate) enum Belonging {
    /// It doesn't.
    No,
    /// The territory's leading digits are at its front.
    ByDigits,
    /// The territory has no leading digits, and knows its kind, which is this.
    ByKind(Type),
}

/// Whether a number belongs to a territory: its leading digits are at the front, or where the
/// territory has none, the number's kind is known there. Refused only for memory.
pub(crate) fn membership(text: &Subject<'_>, m: &Territory) -> Result<Belonging, AllocError>
    ensures belongs { IfOk result (λ b. is_member b ≡ belongs_to text.now m.now) }
    ensures kind { IfOk result (IsOfKind m.now text.now) }
{
    match m.leading_digits_pattern() {
        Some(pattern) => Ok(by_digits(pattern.is_at_start_in(text)?)),
        None => Ok(by_kind(number_type_in(m, text)?)),
    }
}

/// What leading digits tell.
fn by_digits(are_in_front: bool) -> Belonging
    ensures belongs { is_member result ≡ are_in_front }
    ensures kind { (m : loader.Metadata) (digits : List ℕ) → IsOfKind m digits result }
{
    if are_in_front {
        Belonging::ByDigits
    } else {
        Belonging::No
    }
}

/// What a kind tells.
fn by_kind(kind: Type) -> Belonging
    ensures belongs { is_member result ≡ is_known kind }
    ensures kind { (m : loader.Metadata) (digits : List ℕ) → kind ≡ type_of m digits →
        IsOfKind m digits result }
{
    if is_known(kind) {
        Belonging::ByKind(kind)
    } else {
        Belonging::No
    }
}

/// Whether a kind is known.
fn is_known(kind: Type) -> bool
    ensures { result ≡ is_known kind }
{
    !matches!(kind, Type::Unknown)
}
