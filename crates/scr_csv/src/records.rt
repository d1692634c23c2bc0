//! The record of each verb.
#![tactic(auto, unfolding(crate::specs::Kept::any_kept_record))]

ghost use Rattle.std.specs.Prelude.{◌≡◌, IfOk};
ghost use Rattle.scr_sheet.specs.Forms.{Formed};
ghost use Rattle.scr_csv.specs.Reading.{Answers};
ghost use Rattle.scr_csv.specs.Records as spec;
ghost use Rattle.scr_csv.specs.Kept as cut;

use crate::LineFault;
use crate::fields::Fields;
use crate::verb::Verb;
use scr_sheet::Edit;
use std::alloc::Global;

/// The reference date and the reporting currency.
#[inline(never)]
fn asof_record(fields: &mut Fields<'_>) -> Result<Edit, LineFault>
    ensures value { result ≡ spec.asof_record fields.old }
    ensures formed { IfOk result Formed }
{
    let date = fields.date()?;
    let currency = fields.currency()?;
    fields.only(Edit::Asof { date, currency })
}

/// A currency with its rates in millionths.
#[inline(never)]
fn curve_record(alloc: Global, fields: &mut Fields<'_>) -> Result<Edit, LineFault>
    ensures answer { Answers (cut.kept_curve_record fields.old) result }
    ensures formed { IfOk result Formed }
{
    let currency = fields.currency()?;
    let rates = fields.rates(alloc)?;
    Ok(Edit::Curve { currency, rates })
}

/// A group of counterparties.
#[inline(never)]
fn group_record(fields: &mut Fields<'_>) -> Result<Edit, LineFault>
    ensures value { result ≡ spec.group_record fields.old }
    ensures formed { IfOk result Formed }
{
    let name = fields.name()?;
    let kind = fields.word()?;
    let step = fields.step()?;
    fields.only(Edit::Group { name, kind, step })
}

/// A security.
#[inline(never)]
fn security_record(fields: &mut Fields<'_>) -> Result<Edit, LineFault>
    ensures value { result ≡ spec.security_record fields.old }
    ensures formed { IfOk result Formed }
{
    let name = fields.name()?;
    let class = fields.class()?;
    let group = fields.group()?;
    let currency = fields.currency()?;
    let duration = fields.number()?;
    fields.only(Edit::Security {
        name,
        class,
        group,
        currency,
        duration,
    })
}

/// What a security promises.
#[inline(never)]
fn flows_record(alloc: Global, fields: &mut Fields<'_>) -> Result<Edit, LineFault>
    ensures answer { Answers (cut.kept_flows_record fields.old) result }
    ensures formed { IfOk result Formed }
{
    let security = fields.name()?;
    let flows = fields.flows(alloc)?;
    Ok(Edit::Flows { security, flows })
}

/// A fund with its components and their weights.
#[inline(never)]
fn fund_record(alloc: Global, fields: &mut Fields<'_>) -> Result<Edit, LineFault>
    ensures answer { Answers (cut.kept_fund_record fields.old) result }
    ensures formed { IfOk result Formed }
{
    let name = fields.name()?;
    let components = fields.components(alloc)?;
    Ok(Edit::Fund { name, components })
}

/// The cents held directly of a security or a fund.
#[inline(never)]
fn hold_record(fields: &mut Fields<'_>) -> Result<Edit, LineFault>
    ensures value { result ≡ spec.hold_record fields.old }
    ensures formed { IfOk result Formed }
{
    let name = fields.name()?;
    let cents = fields.number()?;
    fields.only(Edit::Hold { name, cents })
}

/// A liability: a line of insurance obligations.
#[inline(never)]
fn liability_record(fields: &mut Fields<'_>) -> Result<Edit, LineFault>
    ensures value { result ≡ spec.liability_record fields.old }
    ensures formed { IfOk result Formed }
{
    let name = fields.name()?;
    let kind = fields.word()?;
    let currency = fields.currency()?;
    fields.only(Edit::Liability {
        name,
        kind,
        currency,
    })
}

/// The flows of a liability under a projection.
#[inline(never)]
fn liability_flows_record(alloc: Global, fields: &mut Fields<'_>) -> Result<Edit, LineFault>
    ensures answer { Answers (cut.kept_liability_flows_record fields.old) result }
    ensures formed { IfOk result Formed }
{
    let liability = fields.name()?;
    let projection = fields.word()?;
    let flows = fields.flows(alloc)?;
    Ok(Edit::LiabilityFlows {
        liability,
        projection,
        flows,
    })
}

/// The absorption of a scenario.
#[inline(never)]
fn absorb_record(fields: &mut Fields<'_>) -> Result<Edit, LineFault>
    ensures value { result ≡ spec.absorb_record fields.old }
    ensures formed { IfOk result Formed }
{
    let key = fields.absorb_key()?;
    let cents = fields.number()?;
    fields.only(Edit::Absorb { key, cents })
}

/// The volumes of a segment in a region.
#[inline(never)]
fn segment_record(fields: &mut Fields<'_>) -> Result<Edit, LineFault>
    ensures value { result ≡ spec.segment_record fields.old }
    ensures formed { IfOk result Formed }
{
    let set = fields.word()?;
    let number = fields.segment(set)?;
    let region = fields.region()?;
    let premium = fields.number()?;
    let reserve = fields.number()?;
    fields.only(Edit::Segment {
        set,
        number,
        region,
        premium,
        reserve,
    })
}

/// A catastrophe charge.
#[inline(never)]
fn cat_record(fields: &mut Fields<'_>) -> Result<Edit, LineFault>
    ensures value { result ≡ spec.cat_record fields.old }
    ensures formed { IfOk result Formed }
{
    let key = fields.word()?;
    let cents = fields.number()?;
    fields.only(Edit::Cat { key, cents })
}

/// The lapse charge of a set.
#[inline(never)]
fn lapse_record(fields: &mut Fields<'_>) -> Result<Edit, LineFault>
    ensures value { result ≡ spec.lapse_record fields.old }
    ensures formed { IfOk result Formed }
{
    let set = fields.word()?;
    let cents = fields.number()?;
    fields.only(Edit::Lapse { set, cents })
}

/// A reinsurance arrangement.
#[inline(never)]
fn rein_record(fields: &mut Fields<'_>) -> Result<Edit, LineFault>
    ensures value { result ≡ spec.rein_record fields.old }
    ensures formed { IfOk result Formed }
{
    let name = fields.name()?;
    let group = fields.name()?;
    let recoverables = fields.number()?;
    let mitigation = fields.number()?;
    let collateral = fields.number()?;
    fields.only(Edit::Rein {
        name,
        group,
        recoverables,
        mitigation,
        collateral,
    })
}

/// A bank.
#[inline(never)]
fn bank_record(fields: &mut Fields<'_>) -> Result<Edit, LineFault>
    ensures value { result ≡ spec.bank_record fields.old }
    ensures formed { IfOk result Formed }
{
    let name = fields.name()?;
    let group = fields.name()?;
    let cents = fields.number()?;
    fields.only(Edit::Bank { name, group, cents })
}

/// Type 2 exposures.
#[inline(never)]
fn due_record(fields: &mut Fields<'_>) -> Result<Edit, LineFault>
    ensures value { result ≡ spec.due_record fields.old }
    ensures formed { IfOk result Formed }
{
    let overdue = fields.number()?;
    let other = fields.number()?;
    fields.only(Edit::Due { overdue, other })
}

/// The inputs of the operational risk.
#[inline(never)]
fn op_record(fields: &mut Fields<'_>) -> Result<Edit, LineFault>
    ensures value { result ≡ spec.op_record fields.old }
    ensures formed { IfOk result Formed }
{
    let tpl = fields.number()?;
    let tpul = fields.number()?;
    let tpn = fields.number()?;
    let el = fields.number()?;
    let eul = fields.number()?;
    let pel = fields.number()?;
    let peul = fields.number()?;
    let en = fields.number()?;
    let pen = fields.number()?;
    let expul = fields.number()?;
    fields.only(Edit::Op {
        tpl,
        tpul,
        tpn,
        el,
        eul,
        pel,
        peul,
        en,
        pen,
        expul,
    })
}

/// The symmetric adjustment.
#[inline(never)]
fn sym_record(fields: &mut Fields<'_>) -> Result<Edit, LineFault>
    ensures value { result ≡ spec.sym_record fields.old }
    ensures formed { IfOk result Formed }
{
    let millionths = fields.number()?;
    fields.only(Edit::Sym { millionths })
}

/// The rate and the cap of the adjustment for deferred taxes.
#[inline(never)]
fn tax_record(fields: &mut Fields<'_>) -> Result<Edit, LineFault>
    ensures value { result ≡ spec.tax_record fields.old }
    ensures formed { IfOk result Formed }
{
    let millionths = fields.number()?;
    let cap = fields.number()?;
    fields.only(Edit::Tax { millionths, cap })
}

/// Future discretionary benefits.
#[inline(never)]
fn fdb_record(fields: &mut Fields<'_>) -> Result<Edit, LineFault>
    ensures value { result ≡ spec.fdb_record fields.old }
    ensures formed { IfOk result Formed }
{
    let cents = fields.number()?;
    fields.only(Edit::Fdb { cents })
}

/// The value of intangible assets.
#[inline(never)]
fn intangible_record(fields: &mut Fields<'_>) -> Result<Edit, LineFault>
    ensures value { result ≡ spec.intangible_record fields.old }
    ensures formed { IfOk result Formed }
{
    let cents = fields.number()?;
    fields.only(Edit::Intangible { cents })
}

/// A row taken out of its table.
#[inline(never)]
fn remove_record(fields: &mut Fields<'_>) -> Result<Edit, LineFault>
    ensures value { result ≡ spec.remove_record fields.old }
    ensures formed { IfOk result Formed }
{
    let table = fields.word()?;
    let name = fields.name()?;
    fields.only(Edit::Remove { table, name })
}

/// The record of the fields, of which the first is the verb.
pub fn read_record(alloc: Global, fields: &mut Fields<'_>) -> Result<Edit, LineFault>
    ensures answer { Answers (cut.any_kept_record fields.old) result }
    ensures formed { IfOk result Formed }
{
    match fields.verb()? {
        Verb::Asof => asof_record(fields),
        Verb::Curve => curve_record(alloc, fields),
        Verb::Group => group_record(fields),
        Verb::Security => security_record(fields),
        Verb::Flows => flows_record(alloc, fields),
        Verb::Fund => fund_record(alloc, fields),
        Verb::Hold => hold_record(fields),
        Verb::Liability => liability_record(fields),
        Verb::LiabilityFlows => liability_flows_record(alloc, fields),
        Verb::Absorb => absorb_record(fields),
        Verb::Segment => segment_record(fields),
        Verb::Cat => cat_record(fields),
        Verb::Lapse => lapse_record(fields),
        Verb::Rein => rein_record(fields),
        Verb::Bank => bank_record(fields),
        Verb::Due => due_record(fields),
        Verb::Op => op_record(fields),
        Verb::Sym => sym_record(fields),
        Verb::Tax => tax_record(fields),
        Verb::Fdb => fdb_record(fields),
        Verb::Intangible => intangible_record(fields),
        Verb::Remove => remove_record(fields),
    }
}
