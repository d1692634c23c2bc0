//! The quantities that a record gives itself.
ghost use Rattle.std.specs.Prelude.{◌≡◌, ◌^◌, ◌<◌, [], ◌∷◌, true};
ghost use Rattle.std.specs.Option.{option_or};
ghost use Rattle.scr_sheet.specs.Faults.{outside, above, below_zero, outside_amounts, outside_weight, first_fault, fields_outside};
ghost use Rattle.scr_sheet.specs.Verbs.{is_operational};

use crate::{
    Edit, Fault, Flows, MAX_AMOUNT, MAX_DURATION, MAX_PROMISED, MAX_RATE, MAX_SYM, MAX_TAX,
    MAX_WEIGHT, MIN_RATE, MIN_WEIGHT, Name, Quantity,
};

// The greatest amount and the greatest payment of a security, as numbers of a record.
const AMOUNT: i64 = MAX_AMOUNT as i64;

const PROMISED: i64 = MAX_PROMISED as i64;

/// The first of the record's own quantities that lies outside its limits.
pub fn fields_outside(edit: &Edit) -> Option<Fault>
    ensures { result ≡ fields_outside edit.now }
{
    match *edit {
        Edit::Curve { ref rates, .. } => {
            first_outside(Quantity::Rate, MIN_RATE, MAX_RATE, rates.as_slice())
        }
        Edit::Security { duration, .. } => outside(Quantity::Duration, 0, MAX_DURATION, duration),
        Edit::Fund { ref components, .. } => outside_weights(components.as_slice()),
        Edit::Flows { ref flows, .. } => outside_promise(flows),
        Edit::Hold { cents, .. } => below_zero(cents),
        Edit::Absorb { cents, .. }
        | Edit::Cat { cents, .. }
        | Edit::Lapse { cents, .. }
        | Edit::Bank { cents, .. }
        | Edit::Fdb { cents }
        | Edit::Intangible { cents } => outside_amounts(&[cents]),
        Edit::Segment {
            premium,
            reserve,
            ..
        } => outside_amounts(&[premium, reserve]),
        Edit::Rein {
            recoverables,
            mitigation,
            collateral,
            ..
        } => { outside_amounts(&[recoverables, mitigation, collateral]) }
        Edit::Due { overdue, other } => outside_amounts(&[overdue, other]),
        Edit::Op { .. } => outside_in_operational(edit),
        Edit::Sym { millionths } => outside(Quantity::Sym, -MAX_SYM, MAX_SYM, millionths),
        Edit::Tax { millionths, cap } => {
            outside_amounts(&[cap]).or(outside(Quantity::TaxRate, 0, MAX_TAX, millionths))
        }
        Edit::Asof { .. }
        | Edit::Group { .. }
        | Edit::Liability { .. }
        | Edit::LiabilityFlows { .. }
        | Edit::Remove { .. } => None,
    }
}

fn outside_weights(components: &[(Name, i64)]) -> Option<Fault>
    ensures { result ≡ first_fault outside_weight components.now }
{
    for (_, weight) in components {
        let fault = outside(Quantity::Weight, MIN_WEIGHT, MAX_WEIGHT, *weight);
        if fault.is_some() {
            return fault;
        }
    }
    None
}

fn outside_promise(flows: &Flows) -> Option<Fault>
    ensures { result ≡ fields_outside (Edit.Flows [] flows.now) }
{
    for flow in flows.as_slice() {
        let fault = outside(Quantity::Flow, 0, PROMISED, flow.1);
        if fault.is_some() {
            return fault;
        }
    }
    above(Quantity::SecFlows, flows.total(), MAX_PROMISED)
}

fn outside_in_operational(edit: &Edit) -> Option<Fault>
    requires { is_operational edit.now ≡ true }
    ensures { result ≡ fields_outside edit.now }
{
    match *edit {
        Edit::Op {
            tpl,
            tpul,
            tpn,
            el,
            eul,
            pel,
            peul,
            en,
            pen,
            expul,
        } => {
            let provisions = [tpl, tpul, tpn];
            outside_amounts(&[el, eul, pel, peul, en, pen, expul]).or(first_outside(
                Quantity::Provision,
                -AMOUNT,
                AMOUNT,
                &provisions,
            ))
        }
        _ => None,
    }
}

fn below_zero(cents: i64) -> Option<Fault>
    ensures { result ≡ below_zero cents }
{
    if cents < 0 {
        return Some(Fault::Range(Quantity::Hold, i128::from(cents), 0));
    }
    None
}

fn outside_amounts(values: &[i64]) -> Option<Fault>
    ensures { result ≡ outside_amounts values.now }
{
    first_outside(Quantity::Amount, 0, AMOUNT, values)
}

// The first of the numbers that lies outside the limits.
fn first_outside(quantity: Quantity, low: i64, high: i64, values: &[i64]) -> Option<Fault>
    ensures { result ≡ first_fault (outside quantity low high) values.now }
{
    for value in values {
        let fault = outside(quantity, low, high, *value);
        if fault.is_some() {
            return fault;
        }
    }
    None
}

fn outside(quantity: Quantity, low: i64, high: i64, value: i64) -> Option<Fault>
    ensures { result ≡ outside quantity low high value }
{
    if value < low {
        Some(Fault::Range(quantity, i128::from(value), i128::from(low)))
    } else if high < value {
        Some(Fault::Range(quantity, i128::from(value), i128::from(high)))
    } else {
        None
    }
}

/// A quantity that is at least 0, where it is above its limit.
pub fn above(quantity: Quantity, value: u128, limit: u64) -> Option<Fault>
    requires { value < 2 ^ 127 }
    ensures { result ≡ above quantity value limit }
{
    if value <= u128::from(limit) {
        None
    } else {
        Some(Fault::Range(quantity, value as i128, i128::from(limit)))
    }
}

/// The first of two faults, where there is one.
pub fn first_of(fault: Option<Fault>, next: Option<Fault>) -> Option<Fault>
    ensures { result ≡ option_or fault next }
{
    match fault {
        Some(fault) => Some(fault),
        None => next,
    }
}
