//! Results of several steps, handed on as one, and a value in the place of another. A function that
//! may leave while it holds values takes long to prove, since it then drops each of them. These
//! hold values of any type, and their drops are opaque.
ghost use Rattle.std.specs.Prelude.{◌≡◌, ◌⊎◌, Ok, Err, IfOk, IfErr, IsOk};

/// What two steps made; where one was refused, the first refusal.
pub fn zip<A: Drop, B: Drop, E: Drop>(a: Result<A, E>, b: Result<B, E>) -> Result<(A, B), E>
    ensures made { IfOk result (λ made. (a ≡ Ok made.0) × (b ≡ Ok made.1)) }
    ensures refused { IfErr result (λ e. (a ≡ Err e) ⊎ (b ≡ Err e)) }
    ensures first_refused { IfErr result (λ e. (a ≡ Err e) ⊎ (IsOk a × (b ≡ Err e))) }
    ensures not_refused { IsOk a → IsOk b → IsOk result }
{
    Ok((a?, b?))
}

/// What a step made, and a value that goes with it; where the step was refused, its refusal.
pub fn zip_value<A: Drop, B: Drop, E: Drop>(made: Result<A, E>, value: B) -> Result<(A, B), E>
    ensures made { IfOk result (λ pair. (made ≡ Ok pair.0) × (value ≡ pair.1)) }
    ensures refused { IfErr result (λ e. made ≡ Err e) }
{
    Ok((made?, value))
}

/// A value in the place of another, which is dropped.
pub fn in_place_of<A: Drop, B: Drop>(_old: A, new: B) -> B
    ensures { result ≡ new }
{
    new
}
