//! Where a number belongs: region ids, and calling codes with the way they were found.
ghost use Rattle.std.specs.Prelude.{◌≡◌, MatchOption, Some, None, [], get_or, map};
ghost use Rattle.std.specs.List.{find};
ghost use Rattle.std.specs.Str.{bytes_eq};
ghost use Rattle.phone_values.specs.Ids.{name, id_of};
ghost use Rattle.phone_values.specs.declared.country.Id.{Id};

use serde::{Described, Deserialize, Deserializer, Format, Serialize, Serializer};
use std::alloc::Global;
use std::fmt;
use std::marker::Model;
use std::str::FromStr;
use thiserror::Error;

/// How the calling code of a number was found.
#[derive(Clone, Copy, PartialEq, Eq, Hash, Debug, Default)]
pub enum Source {
    /// After a plus sign, as `+64` in `+64 3 331 6005`, or from the `phone-context` of a `tel:`
    /// text.
    Plus,

    /// After an international prefix, as `0064` in `0064 3 331 6005` dialled from New Zealand.
    Idd,

    /// As digits at the front that are the hint's code, as `64` in `64 3 331 6005` under New
    /// Zealand.
    Number,

    /// From the hint alone.
    #[default]
    Default,
}

/// A calling code, and how it was found. Contracts see both.
#[derive(Clone, Copy, PartialEq, Eq, Hash, Debug, Serialize, Deserialize)]
pub struct Code {
    value: u16,
    source: Source,
}

impl Model for Code {
    ghost use Rattle.phone_values.specs.Codes.{CallingCode};

    ghost Value = { CallingCode };

    ghost view = { λ c. record { value = c.value; source = c.source } };

    ghost inverse = { λ c. record { value = c.value; source = c.source } };
}

impl Code {
    /// A calling code that was found in this way.
    pub fn new(value: u16, source: Source) -> Code
        ensures { result ≡ record { value = value; source = source } }
    {
        Code { value, source }
    }

    /// The calling code, as 64 for New Zealand.
    pub fn value(&self) -> u16
        ensures { result ≡ self.now.value }
    {
        self.value
    }

    /// How it was found.
    pub fn source(&self) -> Source
        ensures { result ≡ self.now.source }
    {
        self.source
    }
}

impl From<Code> for u16 {
    ghost use Rattle.std.specs.Prelude.{◌≡◌};

    ghost from_gives = { λ c n. n ≡ c.value };

    fn from(code: Code) -> u16 {
        code.value
    }
}

/// The text is no region's id.
#[derive(Clone, Copy, PartialEq, Eq, Debug, Error)]
#[error("unknown region")]
pub struct UnknownId;

/// The id of a region, mostly its two letters of ISO 3166.
#[derive(Clone, Copy, PartialEq, Eq, Hash)]
pub enum Id {
    AC,
    AD,
    AE,
    AF,
    AG,
    AI,
    AL,
    AM,
    AO,
    AR,
    AS,
    AT,
    AU,
    AW,
    AX,
    AZ,
    BA,
    BB,
    BD,
    BE,
    BF,
    BG,
    BH,
    BI,
    BJ,
    BL,
    BM,
    BN,
    BO,
    BQ,
    BR,
    BS,
    BT,
    BW,
    BY,
    BZ,
    CA,
    CC,
    CD,
    CF,
    CG,
    CH,
    CI,
    CK,
    CL,
    CM,
    CN,
    CO,
    CR,
    CU,
    CV,
    CW,
    CX,
    CY,
    CZ,
    DE,
    DJ,
    DK,
    DM,
    DO,
    DZ,
    EC,
    EE,
    EG,
    EH,
    ER,
    ES,
    ET,
    FI,
    FJ,
    FK,
    FM,
    FO,
    FR,
    GA,
    GB,
    GD,
    GE,
    GF,
    GG,
    GH,
    GI,
    GL,
    GM,
    GN,
    GP,
    GQ,
    GR,
    GT,
    GU,
    GW,
    GY,
    HK,
    HN,
    HR,
    HT,
    HU,
    ID,
    IE,
    IL,
    IM,
    IN,
    IO,
    IQ,
    IR,
    IS,
    IT,
    JE,
    JM,
    JO,
    JP,
    KE,
    KG,
    KH,
    KI,
    KM,
    KN,
    KP,
    KR,
    KW,
    KY,
    KZ,
    LA,
    LB,
    LC,
    LI,
    LK,
    LR,
    LS,
    LT,
    LU,
    LV,
    LY,
    MA,
    MC,
    MD,
    ME,
    MF,
    MG,
    MH,
    MK,
    ML,
    MM,
    MN,
    MO,
    MP,
    MQ,
    MR,
    MS,
    MT,
    MU,
    MV,
    MW,
    MX,
    MY,
    MZ,
    NA,
    NC,
    NE,
    NF,
    NG,
    NI,
    NL,
    NO,
    NP,
    NR,
    NU,
    NZ,
    OM,
    PA,
    PE,
    PF,
    PG,
    PH,
    PK,
    PL,
    PM,
    PR,
    PS,
    PT,
    PW,
    PY,
    QA,
    RE,
    RO,
    RS,
    RU,
    RW,
    SA,
    SB,
    SC,
    SD,
    SE,
    SG,
    SH,
    SI,
    SJ,
    SK,
    SL,
    SM,
    SN,
    SO,
    SR,
    SS,
    ST,
    SV,
    SX,
    SY,
    SZ,
    TA,
    TC,
    TD,
    TG,
    TH,
    TJ,
    TK,
    TL,
    TM,
    TN,
    TO,
    TR,
    TT,
    TV,
    TW,
    TZ,
    UA,
    UG,
    US,
    UY,
    UZ,
    VA,
    VC,
    VE,
    VG,
    VI,
    VN,
    VU,
    WF,
    WS,
    XK,
    YE,
    YT,
    ZA,
    ZM,
    ZW,
}

/// The ids are also named here, as `country::NZ`.
pub use self::Id::AC;
pub use self::Id::AD;
pub use self::Id::AE;
pub use self::Id::AF;
pub use self::Id::AG;
pub use self::Id::AI;
pub use self::Id::AL;
pub use self::Id::AM;
pub use self::Id::AO;
pub use self::Id::AR;
pub use self::Id::AS;
pub use self::Id::AT;
pub use self::Id::AU;
pub use self::Id::AW;
pub use self::Id::AX;
pub use self::Id::AZ;
pub use self::Id::BA;
pub use self::Id::BB;
pub use self::Id::BD;
pub use self::Id::BE;
pub use self::Id::BF;
pub use self::Id::BG;
pub use self::Id::BH;
pub use self::Id::BI;
pub use self::Id::BJ;
pub use self::Id::BL;
pub use self::Id::BM;
pub use self::Id::BN;
pub use self::Id::BO;
pub use self::Id::BQ;
pub use self::Id::BR;
pub use self::Id::BS;
pub use self::Id::BT;
pub use self::Id::BW;
pub use self::Id::BY;
pub use self::Id::BZ;
pub use self::Id::CA;
pub use self::Id::CC;
pub use self::Id::CD;
pub use self::Id::CF;
pub use self::Id::CG;
pub use self::Id::CH;
pub use self::Id::CI;
pub use self::Id::CK;
pub use self::Id::CL;
pub use self::Id::CM;
pub use self::Id::CN;
pub use self::Id::CO;
pub use self::Id::CR;
pub use self::Id::CU;
pub use self::Id::CV;
pub use self::Id::CW;
pub use self::Id::CX;
pub use self::Id::CY;
pub use self::Id::CZ;
pub use self::Id::DE;
pub use self::Id::DJ;
pub use self::Id::DK;
pub use self::Id::DM;
pub use self::Id::DO;
pub use self::Id::DZ;
pub use self::Id::EC;
pub use self::Id::EE;
pub use self::Id::EG;
pub use self::Id::EH;
pub use self::Id::ER;
pub use self::Id::ES;
pub use self::Id::ET;
pub use self::Id::FI;
pub use self::Id::FJ;
pub use self::Id::FK;
pub use self::Id::FM;
pub use self::Id::FO;
pub use self::Id::FR;
pub use self::Id::GA;
pub use self::Id::GB;
pub use self::Id::GD;
pub use self::Id::GE;
pub use self::Id::GF;
pub use self::Id::GG;
pub use self::Id::GH;
pub use self::Id::GI;
pub use self::Id::GL;
pub use self::Id::GM;
pub use self::Id::GN;
pub use self::Id::GP;
pub use self::Id::GQ;
pub use self::Id::GR;
pub use self::Id::GT;
pub use self::Id::GU;
pub use self::Id::GW;
pub use self::Id::GY;
pub use self::Id::HK;
pub use self::Id::HN;
pub use self::Id::HR;
pub use self::Id::HT;
pub use self::Id::HU;
pub use self::Id::ID;
pub use self::Id::IE;
pub use self::Id::IL;
pub use self::Id::IM;
pub use self::Id::IN;
pub use self::Id::IO;
pub use self::Id::IQ;
pub use self::Id::IR;
pub use self::Id::IS;
pub use self::Id::IT;
pub use self::Id::JE;
pub use self::Id::JM;
pub use self::Id::JO;
pub use self::Id::JP;
pub use self::Id::KE;
pub use self::Id::KG;
pub use self::Id::KH;
pub use self::Id::KI;
pub use self::Id::KM;
pub use self::Id::KN;
pub use self::Id::KP;
pub use self::Id::KR;
pub use self::Id::KW;
pub use self::Id::KY;
pub use self::Id::KZ;
pub use self::Id::LA;
pub use self::Id::LB;
pub use self::Id::LC;
pub use self::Id::LI;
pub use self::Id::LK;
pub use self::Id::LR;
pub use self::Id::LS;
pub use self::Id::LT;
pub use self::Id::LU;
pub use self::Id::LV;
pub use self::Id::LY;
pub use self::Id::MA;
pub use self::Id::MC;
pub use self::Id::MD;
pub use self::Id::ME;
pub use self::Id::MF;
pub use self::Id::MG;
pub use self::Id::MH;
pub use self::Id::MK;
pub use self::Id::ML;
pub use self::Id::MM;
pub use self::Id::MN;
pub use self::Id::MO;
pub use self::Id::MP;
pub use self::Id::MQ;
pub use self::Id::MR;
pub use self::Id::MS;
pub use self::Id::MT;
pub use self::Id::MU;
pub use self::Id::MV;
pub use self::Id::MW;
pub use self::Id::MX;
pub use self::Id::MY;
pub use self::Id::MZ;
pub use self::Id::NA;
pub use self::Id::NC;
pub use self::Id::NE;
pub use self::Id::NF;
pub use self::Id::NG;
pub use self::Id::NI;
pub use self::Id::NL;
pub use self::Id::NO;
pub use self::Id::NP;
pub use self::Id::NR;
pub use self::Id::NU;
pub use self::Id::NZ;
pub use self::Id::OM;
pub use self::Id::PA;
pub use self::Id::PE;
pub use self::Id::PF;
pub use self::Id::PG;
pub use self::Id::PH;
pub use self::Id::PK;
pub use self::Id::PL;
pub use self::Id::PM;
pub use self::Id::PR;
pub use self::Id::PS;
pub use self::Id::PT;
pub use self::Id::PW;
pub use self::Id::PY;
pub use self::Id::QA;
pub use self::Id::RE;
pub use self::Id::RO;
pub use self::Id::RS;
pub use self::Id::RU;
pub use self::Id::RW;
pub use self::Id::SA;
pub use self::Id::SB;
pub use self::Id::SC;
pub use self::Id::SD;
pub use self::Id::SE;
pub use self::Id::SG;
pub use self::Id::SH;
pub use self::Id::SI;
pub use self::Id::SJ;
pub use self::Id::SK;
pub use self::Id::SL;
pub use self::Id::SM;
pub use self::Id::SN;
pub use self::Id::SO;
pub use self::Id::SR;
pub use self::Id::SS;
pub use self::Id::ST;
pub use self::Id::SV;
pub use self::Id::SX;
pub use self::Id::SY;
pub use self::Id::SZ;
pub use self::Id::TA;
pub use self::Id::TC;
pub use self::Id::TD;
pub use self::Id::TG;
pub use self::Id::TH;
pub use self::Id::TJ;
pub use self::Id::TK;
pub use self::Id::TL;
pub use self::Id::TM;
pub use self::Id::TN;
pub use self::Id::TO;
pub use self::Id::TR;
pub use self::Id::TT;
pub use self::Id::TV;
pub use self::Id::TW;
pub use self::Id::TZ;
pub use self::Id::UA;
pub use self::Id::UG;
pub use self::Id::US;
pub use self::Id::UY;
pub use self::Id::UZ;
pub use self::Id::VA;
pub use self::Id::VC;
pub use self::Id::VE;
pub use self::Id::VG;
pub use self::Id::VI;
pub use self::Id::VN;
pub use self::Id::VU;
pub use self::Id::WF;
pub use self::Id::WS;
pub use self::Id::XK;
pub use self::Id::YE;
pub use self::Id::YT;
pub use self::Id::ZA;
pub use self::Id::ZM;
pub use self::Id::ZW;

/// Hands the ids, in the order of the alphabet, to a macro: the one table of which ids and names
/// are made.
macro_rules! each_id {
    ($then:ident, $value:expr) => {
        $then!($value,
            AC AD AE AF AG AI AL AM AO AR AS AT AU AW AX AZ BA BB BD BE BF BG BH BI BJ
            BL BM BN BO BQ BR BS BT BW BY BZ CA CC CD CF CG CH CI CK CL CM CN CO CR CU
            CV CW CX CY CZ DE DJ DK DM DO DZ EC EE EG EH ER ES ET FI FJ FK FM FO FR GA
            GB GD GE GF GG GH GI GL GM GN GP GQ GR GT GU GW GY HK HN HR HT HU ID IE IL
            IM IN IO IQ IR IS IT JE JM JO JP KE KG KH KI KM KN KP KR KW KY KZ LA LB LC
            LI LK LR LS LT LU LV LY MA MC MD ME MF MG MH MK ML MM MN MO MP MQ MR MS MT
            MU MV MW MX MY MZ NA NC NE NF NG NI NL NO NP NR NU NZ OM PA PE PF PG PH PK
            PL PM PR PS PT PW PY QA RE RO RS RU RW SA SB SC SD SE SG SH SI SJ SK SL SM
            SN SO SR SS ST SV SX SY SZ TA TC TD TG TH TJ TK TL TM TN TO TR TT TV TW TZ
            UA UG US UY UZ VA VC VE VG VI VN VU WF WS XK YE YT ZA ZM ZW
        )
    };
}

macro_rules! names_of {
    ($none:expr, $($name:ident)*) => {
        [$(stringify!($name)),*]
    };
}

macro_rules! list_of {
    ($none:expr, $($name:ident)*) => {
        [$(Id::$name),*]
    };
}

/// All ids, in the order of the alphabet.
pub const ALL: [Id; 245] = each_id!(list_of, ());

/// Their names, in the same order.
const NAMES: [&str; 245] = each_id!(names_of, ());

/// The text at this place of a list; the empty one past its end.
fn name_at(names: &[&'static str], at: usize) -> &'static str
    ensures { result.now ≡ get_or (map (λ n. n.now) names.now) at [] }
{
    match names.get(at) {
        Some(name) => name,
        None => "",
    }
}

impl Id {
    /// The id's text: its name.
    pub fn as_str(&self) -> &'static str
        ensures { result.now ≡ name self.now }
    {
        name_at(&NAMES, *self as usize)
    }
}

impl fmt::Debug for Id {
    fn fmt<W: fmt::Write>(&self, f: &mut fmt::Formatter<W>) -> fmt::Result {
        f.write_str(self.as_str())
    }
}

/// The first of the ids whose text is this one.
fn find_id(ids: &[Id], text: &str) -> Option<Id>
    ensures { result ≡ find (λ id. bytes_eq (name id) text.now) ids.now }
{
    ids.iter().copied().find(|id| id.as_str() == text)
}

impl FromStr for Id {
    ghost use Rattle.std.specs.Prelude.{◌≡◌};
    ghost use Rattle.std.specs.Result.{result_ok};
    ghost use Rattle.phone_values.specs.Ids.{id_of};

    type Err = UnknownId;

    ghost from_str_gives = { λ text r. result_ok r ≡ id_of text };

    /// The id with this name, capitals and small letters told apart; `UnknownId` where there is
    /// none.
    fn from_str(text: &str) -> Result<Id, UnknownId> {
        find_id(&ALL, text).ok_or(UnknownId)
    }
}

impl Described for Id {
    ghost use Rattle.phone_values.specs.Ids.{name};
    ghost use Rattle.serde.specs.Event.{Logs, text};

    ghost writes = { λ id old new. Logs old new (text (name id)) };
}

impl Serialize for Id {
    /// Writes the id's text.
    fn serialize<S: Serializer>(&self, out: &mut S) -> Result<(), S::Error> {
        self.as_str().serialize(out)
    }
}

impl<'de> Deserialize<'de> for Id {
    ghost use Rattle.std.specs.Prelude.{IfOk};
    ghost use Rattle.serde.specs.Event.{text};
    ghost use Rattle.serde.specs.Steps.{Gives};

    /// Reads a text, all of which is the id's name, into memory of its own. A text that is no id's
    /// name is an error.
    fn deserialize<F: Format>(
        alloc: Global,
        from: &mut Deserializer<'de, '_, F>,
    ) -> Result<Id, F::Error>
        ensures { IfOk result (λ id. Gives F.gives from.old (text (name id)) from.new) }
    {
        let text = from.string(alloc)?;
        match text.as_str().parse::<Id>() {
            Ok(id) => Ok(id),
            Err(_) => Err(from.custom("unknown region")),
        }
    }
}
