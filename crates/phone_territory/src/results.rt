//! What was compiled of patterns in several steps, handed on as one.
ghost use Rattle.std.specs.Prelude.{◌≡◌, ◌++◌, ℕ, List, Ok, IfOk};
ghost use Rattle.phone_territory.specs.Refusals.{AreRead};

use phone_base::results::zip;
use phone_records::LoadMetadata;

/// What two steps made, unless one was refused; then the first refusal. The patterns of the first
/// come before those of the second.
pub fn zip_read<A: Drop, B: Drop>(
    first: Result<A, LoadMetadata>,
    second: Result<B, LoadMetadata>,
) -> Result<(A, B), LoadMetadata>
    ensures made { IfOk result (λ all. (first ≡ Ok all.0) × (second ≡ Ok all.1)) }
    ensures read { (ps qs : List (List ℕ)) →
        AreRead ps first → AreRead qs second → AreRead (ps ++ qs) result }
{
    zip(first, second)
}
