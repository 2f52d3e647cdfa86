//! What kind of service a number reaches.
ghost use Rattle.std.specs.Prelude.{◌≡◌};
ghost use Rattle.phone_values.specs.Kinds.{kind_name};

/// The kind of a number.
#[derive(Clone, Copy, PartialEq, Eq, Hash, Debug)]
pub enum Type {
    FixedLine,
    Mobile,
    /// Fixed lines and mobiles look alike here, so it may be either.
    FixedLineOrMobile,
    /// The called side pays.
    TollFree,
    PremiumRate,
    /// Caller and called side share the cost.
    SharedCost,
    PersonalNumber,
    /// Telephony over the internet.
    Voip,
    Pager,
    /// Universal access number, a company's one number for all its places.
    Uan,
    Emergency,
    Voicemail,
    ShortCode,
    StandardRate,
    Carrier,
    /// A number that can't be dialled from abroad.
    NoInternational,
    /// The digits are of none of the kinds that are tried, or are no number of the territory.
    Unknown,
}

impl Type {
    /// The kind's name: `FixedLine`, `Mobile`, ..., as its variant is called.
    pub fn name(&self) -> &'static str
        ensures { result.now ≡ kind_name self.now }
    {
        match self {
            Type::FixedLine => "FixedLine",
            Type::Mobile => "Mobile",
            Type::FixedLineOrMobile => "FixedLineOrMobile",
            Type::TollFree => "TollFree",
            Type::PremiumRate => "PremiumRate",
            Type::SharedCost => "SharedCost",
            Type::PersonalNumber => "PersonalNumber",
            Type::Voip => "Voip",
            Type::Pager => "Pager",
            Type::Uan => "Uan",
            Type::Emergency => "Emergency",
            Type::Voicemail => "Voicemail",
            Type::ShortCode => "ShortCode",
            Type::StandardRate => "StandardRate",
            Type::Carrier => "Carrier",
            Type::NoInternational => "NoInternational",
            Type::Unknown => "Unknown",
        }
    }
}
