//! Lists of records, compiled one after another.
ghost use Rattle.std.specs.Prelude.{◌≡◌, ℕ, List, Option, None, map, IfOk};
ghost use Rattle.std.specs.List.{flat_map};
ghost use Rattle.phone_territory.specs.Refusals.{AreRead};
ghost use Rattle.phone_records.specs.Missing.{first_given};
ghost use Rattle.phone_records.specs.declared.missing.Missing.{Missing};

use phone_pattern::Pool;
use phone_records::LoadMetadata;

/// What is compiled of a record that lacks nothing: what a record lacks, its patterns, and the
/// record that it was compiled of.
pub trait Compile: Drop + Sized {
    type Record: Drop;

    ghost missing: { Self.Record → Option Missing };

    ghost patterns: { Self.Record → List (List ℕ) };

    ghost record_of: { Self → Self.Record };

    /// Compiles a record.
    fn compile(pool: &Pool, given: Self::Record) -> Result<Self, LoadMetadata>
        requires { missing given ≡ None }
        ensures compiled { IfOk result (λ made. record_of made ≡ given) }
        ensures read { AreRead (patterns given) result };
}

/// Compiles each of these records, which lack nothing.
pub fn compile_each<T: Compile>(pool: &Pool, given: Vec<T::Record>) -> Result<Vec<T>, LoadMetadata>
    requires { first_given (map T.missing given.items) ≡ None }
    ensures compiled { IfOk result (λ all. map T.record_of all.items ≡ given.items) }
    ensures read { AreRead (flat_map T.patterns given.items) result }
{
    let mut all = Vec::new(pool.allocator());
    for record in given {
        all.push(T::compile(pool, record)?)?;
    }
    Ok(all)
}
