//! What there is of each kind of number, and what is compiled so of a territory's descriptors.
ghost use Rattle.std.specs.Prelude.{◌≡◌, ℕ, List, [], None, Some, Ok, Err, IfOk, IfErr, option_map};
ghost use Rattle.std.specs.Option.{IsSome, option_copied};
ghost use Rattle.phone_records.specs.Missing.{missing_in_descriptor};
ghost use Rattle.phone_records.specs.declared.loader.Descriptor as loader;
ghost use Rattle.phone_territory.specs.Kinds.{AreWhole, descriptor_for, kinds_in, map_four};
ghost use Rattle.phone_territory.specs.Kinds.{map_kinds};
ghost use Rattle.phone_territory.specs.Refusals.{AreRead, patterns_in_descriptor, with_four};

use crate::loader;
use crate::results::zip_read;
use phone_pattern::Pool;
use phone_records::LoadMetadata;
use phone_values::Type;
use std::marker::Model;

/// What there is of numbers of any kind, and of each kind.
#[derive(Drop)]
pub struct ByKind<D> {
    general: D,
    fixed_line: Option<D>,
    mobile: Option<D>,
    toll_free: Option<D>,
    premium_rate: Option<D>,
    shared_cost: Option<D>,
    personal_number: Option<D>,
    voip: Option<D>,
    pager: Option<D>,
    uan: Option<D>,
    emergency: Option<D>,
    voicemail: Option<D>,
    short_code: Option<D>,
    standard_rate: Option<D>,
    carrier: Option<D>,
    no_international: Option<D>,
}

impl<D> Model for ByKind<D> {
    ghost use Rattle.std.specs.Prelude.{Some};
    ghost use Rattle.phone_territory.specs.Kinds.{KindsOf};

    ghost Value = { KindsOf D };

    ghost view = { λ d. record {
      general = Some d.general;
      fixed_line = d.fixed_line;
      mobile = d.mobile;
      toll_free = d.toll_free;
      premium_rate = d.premium_rate;
      shared_cost = d.shared_cost;
      personal_number = d.personal_number;
      voip = d.voip;
      pager = d.pager;
      uan = d.uan;
      emergency = d.emergency;
      voicemail = d.voicemail;
      short_code = d.short_code;
      standard_rate = d.standard_rate;
      carrier = d.carrier;
      no_international = d.no_international;
    } };
}

/// Four of several kinds, each where it is given.
pub type Four<D> = (Option<D>, Option<D>, Option<D>, Option<D>);

/// Descriptors of records, four at a time.
pub type Given = Four<loader::Descriptor>;

impl<D: Drop> ByKind<D> {
    /// All that is given, four at a time; what is of any kind must be there.
    pub fn of(given: (Four<D>, Four<D>, Four<D>, Four<D>)) -> ByKind<D>
        requires { IsSome given.0.0 }
        ensures { result ≡ kinds_in given }
    {
        let (first, second, third, fourth) = given;
        let (general, fixed_line, mobile, toll_free) = first;
        let (premium_rate, shared_cost, personal_number, voip) = second;
        let (pager, uan, emergency, voicemail) = third;
        let (short_code, standard_rate, carrier, no_international) = fourth;
        ByKind {
            general: general.unwrap(),
            fixed_line,
            mobile,
            toll_free,
            premium_rate,
            shared_cost,
            personal_number,
            voip,
            pager,
            uan,
            emergency,
            voicemail,
            short_code,
            standard_rate,
            carrier,
            no_international,
        }
    }
}

impl<D> ByKind<D> {
    /// That of a kind. `Unknown` is the general one; fixed lines stand for `FixedLineOrMobile`.
    pub fn get(&self, kind: Type) -> Option<&D>
        ensures { option_copied result ≡ descriptor_for kind self.now }
    {
        match kind {
            Type::Unknown => Some(self.general()),
            Type::FixedLine | Type::FixedLineOrMobile => self.fixed_line(),
            Type::Mobile => self.mobile(),
            Type::TollFree => self.toll_free(),
            Type::PremiumRate => self.premium_rate(),
            Type::SharedCost => self.shared_cost(),
            Type::PersonalNumber => self.personal_number(),
            Type::Voip => self.voip(),
            Type::Pager => self.pager(),
            Type::Uan => self.uan(),
            Type::Emergency => self.emergency(),
            Type::Voicemail => self.voicemail(),
            Type::ShortCode => self.short_code(),
            Type::StandardRate => self.standard_rate(),
            Type::Carrier => self.carrier(),
            Type::NoInternational => self.no_international(),
        }
    }

    /// Numbers of any kind.
    pub fn general(&self) -> &D
        ensures { self.now.general ≡ Some result.now }
    {
        &self.general
    }

    /// Fixed lines.
    pub fn fixed_line(&self) -> Option<&D>
        ensures { option_copied result ≡ self.now.fixed_line }
    {
        self.fixed_line.as_ref()
    }

    /// Mobiles.
    pub fn mobile(&self) -> Option<&D>
        ensures { option_copied result ≡ self.now.mobile }
    {
        self.mobile.as_ref()
    }

    /// Numbers whose calls the called side pays.
    pub fn toll_free(&self) -> Option<&D>
        ensures { option_copied result ≡ self.now.toll_free }
    {
        self.toll_free.as_ref()
    }

    /// Numbers at a premium rate.
    pub fn premium_rate(&self) -> Option<&D>
        ensures { option_copied result ≡ self.now.premium_rate }
    {
        self.premium_rate.as_ref()
    }

    /// Numbers whose cost caller and called side share.
    pub fn shared_cost(&self) -> Option<&D>
        ensures { option_copied result ≡ self.now.shared_cost }
    {
        self.shared_cost.as_ref()
    }

    /// Personal numbers.
    pub fn personal_number(&self) -> Option<&D>
        ensures { option_copied result ≡ self.now.personal_number }
    {
        self.personal_number.as_ref()
    }

    /// Telephony over the internet.
    pub fn voip(&self) -> Option<&D>
        ensures { option_copied result ≡ self.now.voip }
    {
        self.voip.as_ref()
    }

    /// Pagers.
    pub fn pager(&self) -> Option<&D>
        ensures { option_copied result ≡ self.now.pager }
    {
        self.pager.as_ref()
    }

    /// A company's one number for all its places.
    pub fn uan(&self) -> Option<&D>
        ensures { option_copied result ≡ self.now.uan }
    {
        self.uan.as_ref()
    }

    /// Emergency calls.
    pub fn emergency(&self) -> Option<&D>
        ensures { option_copied result ≡ self.now.emergency }
    {
        self.emergency.as_ref()
    }

    /// Voicemail.
    pub fn voicemail(&self) -> Option<&D>
        ensures { option_copied result ≡ self.now.voicemail }
    {
        self.voicemail.as_ref()
    }

    /// Short codes.
    pub fn short_code(&self) -> Option<&D>
        ensures { option_copied result ≡ self.now.short_code }
    {
        self.short_code.as_ref()
    }

    /// Numbers at a standard rate.
    pub fn standard_rate(&self) -> Option<&D>
        ensures { option_copied result ≡ self.now.standard_rate }
    {
        self.standard_rate.as_ref()
    }

    /// Carriers.
    pub fn carrier(&self) -> Option<&D>
        ensures { option_copied result ≡ self.now.carrier }
    {
        self.carrier.as_ref()
    }

    /// Numbers that can't be dialled from abroad.
    pub fn no_international(&self) -> Option<&D>
        ensures { option_copied result ≡ self.now.no_international }
    {
        self.no_international.as_ref()
    }
}

/// What is compiled of the record of a descriptor. Contracts see that record.
pub trait OfRecord: Sized + Drop {
    // The record.
    ghost told: { Self → loader.Descriptor };

    /// Compiles a record, whose pattern must be there.
    fn compile(pool: &Pool, given: loader::Descriptor) -> Result<Self, LoadMetadata>
        requires { missing_in_descriptor (Some given) ≡ None }
        ensures compiled { IfOk result (λ d. told d ≡ given) }
        ensures read { AreRead (patterns_in_descriptor (Some given)) result };
}

impl<D: OfRecord> ByKind<D> {
    /// Compiles the descriptors of a territory's record: the general one is given, and none lacks
    /// its pattern.
    pub fn compile(
        pool: &Pool,
        given: (Given, Given, Given, Given),
    ) -> Result<ByKind<D>, LoadMetadata>
        requires general { IsSome given.0.0 }
        requires whole { AreWhole given.0 × AreWhole given.1 × AreWhole given.2 × AreWhole given.3 }
        ensures compiled { IfOk result (λ d. map_kinds D.told d ≡ kinds_in given) }
        ensures read { AreRead
            (with_four given.0 (with_four given.1 (with_four given.2 (with_four given.3 []))))
            result }
    {
        let fourth = compile_four::<D, ()>(pool, given.3, Ok(()));
        let third = compile_four(pool, given.2, fourth);
        let second = compile_four(pool, given.1, third);
        let (first, (second, (third, (fourth, _)))) = compile_four(pool, given.0, second)?;
        Ok(ByKind::of((first, second, third, fourth)))
    }
}

/// What is compiled of a descriptor's record, where there is one.
fn compile_descriptor<D: OfRecord>(
    pool: &Pool,
    given: Option<loader::Descriptor>,
) -> Result<Option<D>, LoadMetadata>
    requires { missing_in_descriptor given ≡ None }
    ensures compiled { IfOk result (λ d. option_map D.told d ≡ given) }
    ensures read { AreRead (patterns_in_descriptor given) result }
{
    match given {
        Some(given) => Ok(Some(D::compile(pool, given)?)),
        None => Ok(None),
    }
}

/// The first four of what was made step by step.
fn flat<A: Drop, B: Drop, C: Drop, D: Drop, R: Drop, E: Drop>(
    made: Result<(A, (B, (C, (D, R)))), E>,
) -> Result<((A, B, C, D), R), E>
    ensures made { IfOk result (λ all.
        made ≡ Ok (all.0.0, (all.0.1, (all.0.2, (all.0.3, all.1))))) }
    ensures refused { IfErr result (λ e. made ≡ Err e) }
{
    let (first, (second, (third, (fourth, rest)))) = made?;
    Ok(((first, second, third, fourth), rest))
}

/// Four descriptors, and what comes after them.
fn compile_four<D: OfRecord, R: Drop>(
    pool: &Pool,
    given: Given,
    rest: Result<R, LoadMetadata>,
) -> Result<(Four<D>, R), LoadMetadata>
    requires { AreWhole given }
    ensures compiled { IfOk result (λ all. (map_four D.told all.0 ≡ given) × (rest ≡ Ok all.1)) }
    ensures read { (ps : List (List ℕ)) → AreRead ps rest → AreRead (with_four given ps) result }
{
    let (first, second, third, fourth) = given;
    let fourth = zip_read(compile_descriptor::<D>(pool, fourth), rest);
    let third = zip_read(compile_descriptor::<D>(pool, third), fourth);
    let second = zip_read(compile_descriptor::<D>(pool, second), third);
    flat(zip_read(compile_descriptor::<D>(pool, first), second))
}
