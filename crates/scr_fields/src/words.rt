//! The closed lists of words that fields choose from.
#![tactic(auto, unfolding(crate::specs::Words::value_of))]

ghost use Rattle.std.specs.Prelude.{◌≡◌, List, ℕ};
ghost use Rattle.scr_fields.specs.Words as spec;

use scr_profile::{GroupKind, Set};
use scr_sheet::{AbsorbKey, CatKey, Class, LiabilityKind, PROJECTIONS, Projection, Table};

/// A value of a closed list, which a field chooses by its word.
pub trait Word: Copy + 'static {
    ghost word_of: { Self → List ℕ };

    ghost all: { List Self };

    /// Every value.
    fn all() -> &'static [Self]
        ensures { result.now ≡ all };

    /// How records write the value.
    fn word(self) -> &'static [u8]
        ensures { result.now ≡ word_of self };
}

/// The value whose word the field is.
pub fn value<W: Word>(text: &[u8]) -> Option<W>
    ensures { result ≡ spec.value_of W.word_of W.all text.now }
{
    W::all().iter().copied().find(|value| value.word() == text)
}

const TABLES: [Table; 7] = [
    Table::Group,
    Table::Security,
    Table::Fund,
    Table::Liability,
    Table::Bank,
    Table::Rein,
    Table::Curve,
];

impl Word for Table {
    ghost word_of = { spec.table_word };

    ghost all = { spec.all_tables };

    fn all() -> &'static [Table] {
        &TABLES
    }

    fn word(self) -> &'static [u8] {
        match self {
            Table::Group => b"group",
            Table::Security => b"sec",
            Table::Fund => b"fund",
            Table::Liability => b"line",
            Table::Bank => b"bank",
            Table::Rein => b"rein",
            Table::Curve => b"curve",
        }
    }
}

const GROUP_KINDS: [GroupKind; 4] = [
    GroupKind::Name,
    GroupKind::Covered,
    GroupKind::Property,
    GroupKind::State,
];

impl Word for GroupKind {
    ghost word_of = { spec.group_kind_word };

    ghost all = { spec.all_group_kinds };

    fn all() -> &'static [GroupKind] {
        &GROUP_KINDS
    }

    fn word(self) -> &'static [u8] {
        match self {
            GroupKind::Name => b"name",
            GroupKind::Covered => b"covered",
            GroupKind::Property => b"property",
            GroupKind::State => b"state",
        }
    }
}

const CLASSES: [Class; 10] = [
    Class::Type1Equity,
    Class::Type1Strategic,
    Class::Type2Equity,
    Class::Type2Strategic,
    Class::Infrastructure,
    Class::InfrastructureCorporate,
    Class::Property,
    Class::Bond,
    Class::Government,
    Class::Other,
];

/// The class of a security that the field is.
pub fn class(text: &[u8]) -> Option<Class>
    ensures { result ≡ spec.value_of spec.class_word spec.all_classes text.now }
{
    match text {
        [b'e', b'q', b'1'] => Some(Class::Type1Equity),
        [b'e', b'q', b'2'] => Some(Class::Type2Equity),
        [b'b', b'o', b'n', b'd'] => Some(Class::Bond),
        [b'g', b'o', b'v'] => Some(Class::Government),
        [b'p', b'r', b'o', b'p', b'e', b'r', b't', b'y'] => Some(Class::Property),
        [b'o', b't', b'h', b'e', b'r'] => Some(Class::Other),
        [b'i', b'n', b'f', b'r', b'a'] => Some(Class::Infrastructure),
        _ => value(text),
    }
}

impl Word for Class {
    ghost word_of = { spec.class_word };

    ghost all = { spec.all_classes };

    fn all() -> &'static [Class] {
        &CLASSES
    }

    fn word(self) -> &'static [u8] {
        match self {
            Class::Type1Equity => b"eq1",
            Class::Type1Strategic => b"eq1s",
            Class::Type2Equity => b"eq2",
            Class::Type2Strategic => b"eq2s",
            Class::Infrastructure => b"infra",
            Class::InfrastructureCorporate => b"infracorp",
            Class::Property => b"property",
            Class::Bond => b"bond",
            Class::Government => b"gov",
            Class::Other => b"other",
        }
    }
}

const LIABILITY_KINDS: [LiabilityKind; 3] = [
    LiabilityKind::Life,
    LiabilityKind::Health,
    LiabilityKind::Other,
];

impl Word for LiabilityKind {
    ghost word_of = { spec.liability_kind_word };

    ghost all = { spec.all_liability_kinds };

    fn all() -> &'static [LiabilityKind] {
        &LIABILITY_KINDS
    }

    fn word(self) -> &'static [u8] {
        match self {
            LiabilityKind::Life => b"life",
            LiabilityKind::Health => b"health",
            LiabilityKind::Other => b"other",
        }
    }
}

impl Word for Projection {
    ghost word_of = { spec.projection_word };

    ghost all = { spec.all_projections };

    fn all() -> &'static [Projection] {
        &PROJECTIONS
    }

    fn word(self) -> &'static [u8] {
        match self {
            Projection::Base => b"base",
            Projection::Mortality => b"mort",
            Projection::Longevity => b"long",
            Projection::Disability => b"dis",
            Projection::Expense => b"exp",
            Projection::Revision => b"rev",
            Projection::LapseUp => b"up",
            Projection::LapseDown => b"down",
            Projection::LapseMass => b"mass",
            Projection::Catastrophe => b"cat",
        }
    }
}

const SETS: [Set; 2] = [Set::Nl, Set::Nslt];

impl Word for Set {
    ghost word_of = { spec.set_word };

    ghost all = { spec.all_sets };

    fn all() -> &'static [Set] {
        &SETS
    }

    fn word(self) -> &'static [u8] {
        match self {
            Set::Nl => b"nl",
            Set::Nslt => b"nslt",
        }
    }
}

const CAT_KEYS: [CatKey; 16] = [
    CatKey::Windstorm,
    CatKey::Earthquake,
    CatKey::Flood,
    CatKey::Hail,
    CatKey::Subsidence,
    CatKey::NonProportionalProperty,
    CatKey::Motor,
    CatKey::Marine,
    CatKey::Aviation,
    CatKey::Fire,
    CatKey::Liability,
    CatKey::Credit,
    CatKey::Other,
    CatKey::MassAccident,
    CatKey::AccidentConcentration,
    CatKey::Pandemic,
];

impl Word for CatKey {
    ghost word_of = { spec.cat_key_word };

    ghost all = { spec.all_cat_keys };

    fn all() -> &'static [CatKey] {
        &CAT_KEYS
    }

    fn word(self) -> &'static [u8] {
        match self {
            CatKey::Windstorm => b"windstorm",
            CatKey::Earthquake => b"earthquake",
            CatKey::Flood => b"flood",
            CatKey::Hail => b"hail",
            CatKey::Subsidence => b"subsidence",
            CatKey::NonProportionalProperty => b"npproperty",
            CatKey::Motor => b"motor",
            CatKey::Marine => b"marine",
            CatKey::Aviation => b"aviation",
            CatKey::Fire => b"fire",
            CatKey::Liability => b"liability",
            CatKey::Credit => b"credit",
            CatKey::Other => b"other",
            CatKey::MassAccident => b"massaccident",
            CatKey::AccidentConcentration => b"accidentconc",
            CatKey::Pandemic => b"pandemic",
        }
    }
}

const SCENARIOS: [AbsorbKey; 25] = [
    AbsorbKey::InterestUp,
    AbsorbKey::InterestDown,
    AbsorbKey::Equity,
    AbsorbKey::Property,
    AbsorbKey::Spread,
    AbsorbKey::Concentration,
    AbsorbKey::Default,
    AbsorbKey::LifeMortality,
    AbsorbKey::LifeLongevity,
    AbsorbKey::LifeDisability,
    AbsorbKey::LifeExpense,
    AbsorbKey::LifeRevision,
    AbsorbKey::LifeLapseUp,
    AbsorbKey::LifeLapseDown,
    AbsorbKey::LifeLapseMass,
    AbsorbKey::LifeCatastrophe,
    AbsorbKey::HealthMortality,
    AbsorbKey::HealthLongevity,
    AbsorbKey::HealthDisability,
    AbsorbKey::HealthExpense,
    AbsorbKey::HealthRevision,
    AbsorbKey::HealthLapseUp,
    AbsorbKey::HealthLapseDown,
    AbsorbKey::HealthLapseMass,
    AbsorbKey::HealthCatastrophe,
];

/// The word of a scenario. Those of a currency have the currency in their texts, and no word.
pub fn scenario_word(key: AbsorbKey) -> &'static [u8]
    ensures { result.now ≡ spec.scenario_word key }
{
    match key {
        AbsorbKey::InterestUp => b"interest.up",
        AbsorbKey::InterestDown => b"interest.down",
        AbsorbKey::Equity => b"equity",
        AbsorbKey::Property => b"property",
        AbsorbKey::Spread => b"spread",
        AbsorbKey::Concentration => b"concentration",
        AbsorbKey::Default => b"default",
        AbsorbKey::LifeMortality => b"life.mortality",
        AbsorbKey::LifeLongevity => b"life.longevity",
        AbsorbKey::LifeDisability => b"life.disability",
        AbsorbKey::LifeExpense => b"life.expense",
        AbsorbKey::LifeRevision => b"life.revision",
        AbsorbKey::LifeLapseUp => b"life.lapse.up",
        AbsorbKey::LifeLapseDown => b"life.lapse.down",
        AbsorbKey::LifeLapseMass => b"life.lapse.mass",
        AbsorbKey::LifeCatastrophe => b"life.cat",
        AbsorbKey::HealthMortality => b"health.mortality",
        AbsorbKey::HealthLongevity => b"health.longevity",
        AbsorbKey::HealthDisability => b"health.disability",
        AbsorbKey::HealthExpense => b"health.expense",
        AbsorbKey::HealthRevision => b"health.revision",
        AbsorbKey::HealthLapseUp => b"health.lapse.up",
        AbsorbKey::HealthLapseDown => b"health.lapse.down",
        AbsorbKey::HealthLapseMass => b"health.lapse.mass",
        AbsorbKey::HealthCatastrophe => b"health.cat",
        AbsorbKey::CurrencyUp(_) | AbsorbKey::CurrencyDown(_) => b"",
    }
}

/// The scenario of a word.
pub fn scenario(text: &[u8]) -> Option<AbsorbKey>
    ensures { result ≡ spec.value_of spec.scenario_word spec.all_scenarios text.now }
{
    SCENARIOS
        .iter()
        .copied()
        .find(|key| scenario_word(*key) == text)
}
