//! What a record changes within a row, or among the single numbers.
ghost use Rattle.std.specs.Prelude.{◌≡◌, ◌<◌, ◌≤◌, ◌-◌, slice_get, Some, None, true, IfSome};
ghost use Rattle.scr_sheet.specs.Absorptions.{absorbed};
ghost use Rattle.scr_sheet.specs.declared.sheet.BalanceSheet.{BalanceSheet};
ghost use Rattle.scr_sheet.specs.CashFlows.{flows_under, with_flows, no_flows};
ghost use Rattle.scr_sheet.specs.Faults.{fields_outside};
ghost use Rattle.scr_profile.specs.Segments.{segments};
ghost use Rattle.scr_sheet.specs.Forms.{Formed};
ghost use Rattle.scr_sheet.specs.Records.{applied, natural, placed, absorb_place, cat_place, health_cat_place, with_absorb, with_segment};
ghost use Rattle.scr_sheet.specs.Verbs.{is_operational};
ghost use Rattle.scr_sheet.specs.Volumes.{volumes_in};

use crate::{AbsorbKey, CatKey, Edit, Flows, LiabilityFlows, Numbers, Projection};
use scr_profile::Set;
use std::alloc::Global;

impl LiabilityFlows {
    /// Nothing handed in.
    pub fn none(alloc: Global) -> LiabilityFlows
        ensures { result ≡ no_flows }
    {
        LiabilityFlows {
            base: Flows::new(Vec::new(alloc)),
            mortality: Flows::new(Vec::new(alloc)),
            longevity: Flows::new(Vec::new(alloc)),
            disability: Flows::new(Vec::new(alloc)),
            expense: Flows::new(Vec::new(alloc)),
            revision: Flows::new(Vec::new(alloc)),
            lapse_up: Flows::new(Vec::new(alloc)),
            lapse_down: Flows::new(Vec::new(alloc)),
            lapse_mass: Flows::new(Vec::new(alloc)),
            catastrophe: Flows::new(Vec::new(alloc)),
        }
    }

    /// The flows under the projection.
    pub fn under(&self, projection: Projection) -> &Flows
        ensures { result.now ≡ flows_under projection self.now }
    {
        match projection {
            Projection::Base => &self.base,
            Projection::Mortality => &self.mortality,
            Projection::Longevity => &self.longevity,
            Projection::Disability => &self.disability,
            Projection::Expense => &self.expense,
            Projection::Revision => &self.revision,
            Projection::LapseUp => &self.lapse_up,
            Projection::LapseDown => &self.lapse_down,
            Projection::LapseMass => &self.lapse_mass,
            Projection::Catastrophe => &self.catastrophe,
        }
    }

    /// Puts these flows under the projection, in place of those that stood there.
    pub fn put(&mut self, projection: Projection, flows: Flows)
        ensures { self.new ≡ with_flows projection flows self.old }
    {
        match projection {
            Projection::Base => self.base = flows,
            Projection::Mortality => self.mortality = flows,
            Projection::Longevity => self.longevity = flows,
            Projection::Disability => self.disability = flows,
            Projection::Expense => self.expense = flows,
            Projection::Revision => self.revision = flows,
            Projection::LapseUp => self.lapse_up = flows,
            Projection::LapseDown => self.lapse_down = flows,
            Projection::LapseMass => self.lapse_mass = flows,
            Projection::Catastrophe => self.catastrophe = flows,
        }
    }
}

fn in_region(segment: &[(u64, u64); 18], region: u8) -> (u64, u64)
    requires first { 1 ≤ region }
    requires last { region ≤ 18 }
    ensures { slice_get segment.now (region - 1) ≡ Some result }
{
    segment[usize::from(region) - 1]
}

impl Numbers {
    /// The premium and the reserve volume of a segment in a region, both numbered from 1.
    pub fn volumes(&self, set: Set, number: u8, region: u8) -> (u64, u64)
        requires first { 1 ≤ number }
        requires last { number ≤ segments set }
        requires first_region { 1 ≤ region }
        requires last_region { region ≤ 18 }
        ensures { volumes_in set number region self.now ≡ Some result }
    {
        let segment = usize::from(number) - 1;
        match set {
            Set::Nl => in_region(&self.nl[segment], region),
            Set::Nslt => in_region(&self.nslt[segment], region),
        }
    }

    /// What is absorbed of a scenario, in cents; 0 for those of a currency, whose absorptions stand with its curve.
    pub fn absorbed(&self, key: AbsorbKey) -> u64
        ensures { result ≡ absorbed key self.now }
    {
        match absorb_place(key) {
            Some(place) => self.absorb[place],
            None => 0,
        }
    }

    /// The numbers as the record leaves them; one that changes rows alone leaves them all.
    pub fn put(&mut self, edit: &Edit)
        requires formed { Formed edit.now }
        requires within { fields_outside edit.now ≡ None }
        ensures { (sheet : BalanceSheet) → sheet.numbers ≡ self.old
            → (applied edit.now sheet).numbers ≡ self.new }
    {
        match edit {
            Edit::Asof { date, currency } => {
                self.asof = *date;
                self.currency = *currency;
            }
            Edit::Absorb { key, cents } => self.put_absorb(*key, natural(*cents)),
            Edit::Segment {
                set,
                number,
                region,
                premium,
                reserve,
            } => {
                let new = (natural(*premium), natural(*reserve));
                self.put_volumes(*set, *number, *region, new);
            }
            Edit::Cat { key, cents } => self.put_cat(*key, natural(*cents)),
            Edit::Lapse {
                set: Set::Nl,
                cents,
            } => self.lapse[0] = natural(*cents),
            Edit::Lapse {
                set: Set::Nslt,
                cents,
            } => self.lapse[1] = natural(*cents),
            Edit::Due { overdue, other } => self.due = [natural(*overdue), natural(*other)],
            Edit::Op { .. } => self.put_operational(edit),
            Edit::Sym { millionths } => self.sym = *millionths as i32,
            Edit::Tax { millionths, cap } => {
                self.tax = natural(*millionths) as u32;
                self.cap = natural(*cap);
            }
            Edit::Fdb { cents } => self.fdb = natural(*cents),
            Edit::Intangible { cents } => self.intangible = natural(*cents),
            _ => {}
        }
    }

    fn put_operational(&mut self, edit: &Edit)
        requires { is_operational edit.now ≡ true }
        ensures { (sheet : BalanceSheet) → sheet.numbers ≡ self.old
            → (applied edit.now sheet).numbers ≡ self.new }
    {
        match edit {
            Edit::Op {
                tpl,
                tpul,
                tpn,
                el,
                eul,
                pel,
                peul,
                en,
                pen,
                expul,
            } => {
                self.provisions = [*tpl, *tpul, *tpn];
                self.earned = [
                    natural(*el),
                    natural(*eul),
                    natural(*pel),
                    natural(*peul),
                    natural(*en),
                    natural(*pen),
                    natural(*expul),
                ];
            }
            _ => {}
        }
    }

    /// Puts these volumes, of premium and of reserve, into a segment's region.
    pub fn put_volumes(&mut self, set: Set, number: u8, region: u8, new: (u64, u64))
        requires first { 1 ≤ number }
        requires last { number ≤ segments set }
        requires first_region { 1 ≤ region }
        requires last_region { region ≤ 18 }
        ensures { self.new ≡ record self.old {
          nl = with_segment Set.Nl set number region new self.old.nl;
          nslt = with_segment Set.Nslt set number region new self.old.nslt;
        } }
    {
        let segment = usize::from(number) - 1;
        let region = usize::from(region) - 1;
        match set {
            Set::Nl => self.nl[segment][region] = new,
            Set::Nslt => self.nslt[segment][region] = new,
        }
    }

    /// Puts the absorption of a scenario in; those of a currency's stand with its curve, and leave the numbers.
    pub fn put_absorb(&mut self, key: AbsorbKey, cents: u64)
        ensures { self.new ≡ record self.old { absorb = placed (absorb_place key) cents self.old.absorb } }
    {
        if let Some(place) = absorb_place(key) {
            self.absorb[place] = cents;
        }
    }

    fn put_cat(&mut self, key: CatKey, cents: u64)
        ensures { self.new ≡ record self.old {
          cat = placed (cat_place key) cents self.old.cat;
          health_cat = placed (health_cat_place key) cents self.old.health_cat;
        } }
    {
        match key {
            CatKey::Windstorm => self.cat[0] = cents,
            CatKey::Earthquake => self.cat[1] = cents,
            CatKey::Flood => self.cat[2] = cents,
            CatKey::Hail => self.cat[3] = cents,
            CatKey::Subsidence => self.cat[4] = cents,
            CatKey::NonProportionalProperty => self.cat[5] = cents,
            CatKey::Motor => self.cat[6] = cents,
            CatKey::Marine => self.cat[7] = cents,
            CatKey::Aviation => self.cat[8] = cents,
            CatKey::Fire => self.cat[9] = cents,
            CatKey::Liability => self.cat[10] = cents,
            CatKey::Credit => self.cat[11] = cents,
            CatKey::Other => self.cat[12] = cents,
            CatKey::MassAccident => self.health_cat[0] = cents,
            CatKey::AccidentConcentration => self.health_cat[1] = cents,
            CatKey::Pandemic => self.health_cat[2] = cents,
        }
    }
}

/// A number of a record as it is kept where none below 0 may be; 0 stands for one that is, which is never kept.
pub fn natural(value: i64) -> u64
    ensures { result ≡ natural value }
{
    value.max(0).unsigned_abs()
}

fn absorb_place(key: AbsorbKey) -> Option<usize>
    ensures value { result ≡ absorb_place key }
    ensures fits { IfSome result (λ k. k < 25) }
{
    match key {
        AbsorbKey::InterestUp => Some(0),
        AbsorbKey::InterestDown => Some(1),
        AbsorbKey::Equity => Some(2),
        AbsorbKey::Property => Some(3),
        AbsorbKey::Spread => Some(4),
        AbsorbKey::Concentration => Some(5),
        AbsorbKey::CurrencyUp(_) | AbsorbKey::CurrencyDown(_) => None,
        AbsorbKey::Default => Some(6),
        AbsorbKey::LifeMortality => Some(7),
        AbsorbKey::LifeLongevity => Some(8),
        AbsorbKey::LifeDisability => Some(9),
        AbsorbKey::LifeExpense => Some(10),
        AbsorbKey::LifeRevision => Some(11),
        AbsorbKey::LifeLapseUp => Some(12),
        AbsorbKey::LifeLapseDown => Some(13),
        AbsorbKey::LifeLapseMass => Some(14),
        AbsorbKey::LifeCatastrophe => Some(15),
        AbsorbKey::HealthMortality => Some(16),
        AbsorbKey::HealthLongevity => Some(17),
        AbsorbKey::HealthDisability => Some(18),
        AbsorbKey::HealthExpense => Some(19),
        AbsorbKey::HealthRevision => Some(20),
        AbsorbKey::HealthLapseUp => Some(21),
        AbsorbKey::HealthLapseDown => Some(22),
        AbsorbKey::HealthLapseMass => Some(23),
        AbsorbKey::HealthCatastrophe => Some(24),
    }
}
