//! The verbs of records.
ghost use Rattle.std.specs.Prelude.{◌≡◌};
ghost use Rattle.scr_fields.specs.Words.{value_of};
ghost use Rattle.scr_csv.specs.Verbs.{verb_word, all_verbs};

use scr_fields::{Word, value};

/// The verbs of records.
#[derive(Clone, Copy)]
pub enum Verb {
    Asof,
    Curve,
    Group,
    Security,
    Flows,
    Fund,
    Hold,
    Liability,
    LiabilityFlows,
    Absorb,
    Segment,
    Cat,
    Lapse,
    Rein,
    Bank,
    Due,
    Op,
    Sym,
    Tax,
    Fdb,
    Intangible,
    Remove,
}

const VERBS: [Verb; 22] = [
    Verb::Hold,
    Verb::Security,
    Verb::Flows,
    Verb::LiabilityFlows,
    Verb::Fund,
    Verb::Group,
    Verb::Rein,
    Verb::Bank,
    Verb::Liability,
    Verb::Curve,
    Verb::Segment,
    Verb::Cat,
    Verb::Absorb,
    Verb::Remove,
    Verb::Lapse,
    Verb::Due,
    Verb::Op,
    Verb::Sym,
    Verb::Tax,
    Verb::Fdb,
    Verb::Intangible,
    Verb::Asof,
];

/// The verb that the field is.
#[tactic(auto, unfolding(scr_fields::specs::Words::value_of))]
pub fn verb_of(text: &[u8]) -> Option<Verb>
    ensures { result ≡ value_of verb_word all_verbs text.now }
{
    match text {
        [b'h', b'o', b'l', b'd'] => Some(Verb::Hold),
        [b's', b'e', b'c'] => Some(Verb::Security),
        [b'f', b'l', b'o', b'w', b's'] => Some(Verb::Flows),
        [b'l', b'f', b'l', b'o', b'w'] => Some(Verb::LiabilityFlows),
        _ => value(text),
    }
}

impl Word for Verb {
    ghost word_of = { verb_word };

    ghost all = { all_verbs };

    fn all() -> &'static [Verb] {
        &VERBS
    }

    fn word(self) -> &'static [u8] {
        match self {
            Verb::Asof => b"asof",
            Verb::Curve => b"curve",
            Verb::Group => b"group",
            Verb::Security => b"sec",
            Verb::Flows => b"flows",
            Verb::Fund => b"fund",
            Verb::Hold => b"hold",
            Verb::Liability => b"line",
            Verb::LiabilityFlows => b"lflow",
            Verb::Absorb => b"absorb",
            Verb::Segment => b"seg",
            Verb::Cat => b"cat",
            Verb::Lapse => b"lapse",
            Verb::Rein => b"rein",
            Verb::Bank => b"bank",
            Verb::Due => b"due",
            Verb::Op => b"op",
            Verb::Sym => b"sym",
            Verb::Tax => b"tax",
            Verb::Fdb => b"fdb",
            Verb::Intangible => b"intangible",
            Verb::Remove => b"drop",
        }
    }
}
