//! Rows that are computed on the definitions of this crate. These functions do nothing; their
//! contracts are the rows.
ghost use Rattle.std.specs.Prelude.{List, [], ◌∷◌, codes, Some};
ghost use Rattle.phone_values.specs.declared.country.Id.TheVariants.{NZ};
ghost use Rattle.phone_read.specs.Samples.{nz};
ghost use Rattle.phone_engine.specs.ReportLines.{IsReportLine};
ghost use Rattle.phone_values.specs.declared.rules.Rules.TheVariants.{Crate};

/// Lines of the report by the rules of the crate, under a database of New Zealand alone and its
/// hint: of a number, of a refusal, of a byte that is no UTF-8.
pub fn report_rows()
    ensures number { IsReportLine Crate (nz ∷ []) (Some NZ) (codes "12")
        (codes "ok\t+6412\t+64 12\t12\ttel:+64-12\tdefault\tUnknown\tNZ\tinvalid") }
    ensures refused { IsReportLine Crate (nz ∷ []) (Some NZ) (codes "1")
        (codes "error\t1\tnot a number") }
    ensures no_text { IsReportLine Crate (nz ∷ []) (Some NZ) (0xFF ∷ [])
        (codes "error\t0\tnot UTF-8") }
{}
