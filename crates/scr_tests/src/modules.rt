//! Functions of the modules that the program calls piece by piece, as a whole.

use scr_loss::operational;
use scr_market::equity;
use scr_nonlife::cat;
use scr_num::{Span, exact};
use scr_profile::{DefaultClass, OpInput};
use scr_rate::interest;

// 1,000 euros of type 1 and 500 euros of type 2 equities: 390 and 245 euros, and together 596.19 to
// 596.20.
#[test]
fn two_types_of_equities(rt: HostRuntime) {
    let risk = equity(&[100_000, 0, 50_000, 0, 0, 0], 0);
    assert_eq!(rt;
        (risk.type1, risk.type2),
        (exact(39_000_000), exact(24_500_000))
    );
    assert_eq!(rt; (risk.all.low, risk.all.high), (59_619_627, 59_619_628));
}

// A rise costs 80 euros in two currencies and a fall 90; after absorptions of 50 and 70 euros the rise decides.
#[test]
fn the_net_cost_of_interest_rates_decides(rt: HostRuntime) {
    let ten = exact(1_000_000_000_000_000_000_000);
    let seventy = exact(7_000_000_000_000_000_000_000);
    let ninety = exact(9_000_000_000_000_000_000_000);
    let risk = interest(&[seventy, ten], &[ninety, exact(0)], 5_000, 7_000);
    assert_eq!(rt; risk.picked.gross, exact(8_000_000));
    assert_eq!(rt; risk.picked.net, exact(3_000_000));
}

// Premiums of a million euros a year: 40,000 euros, capped at 30 percent of 390 euros.
#[test]
fn operational_risk_at_its_cap(rt: HostRuntime) {
    let input = OpInput {
        tpl: 0,
        tpul: 0,
        tpn: 0,
        el: 100_000_000,
        eul: 0,
        pel: 100_000_000,
        peul: 0,
        en: 0,
        pen: 0,
        expul: 0,
    };
    let charge = operational(exact(39_000_000), &input);
    assert_eq!(rt;
        (charge.prem, charge.op),
        (exact(4_000_000_000), exact(11_700_000))
    );
}

// A windstorm of 300 and a flood of 400 euros, and nothing else.
#[test]
fn two_natural_catastrophes(rt: HostRuntime) {
    let charges = [30_000, 0, 40_000, 0, 0, 0, 0, 0, 0, 0, 0, 0, 0];
    let risk = cat(&charges);
    assert_eq!(rt;
        (risk.nat, risk.manmade, risk.all),
        (exact(50_000_000), exact(0), exact(50_000_000))
    );
}

#[test]
fn steps_5_and_6_and_none_share_a_class(rt: HostRuntime) {
    assert!(rt; DefaultClass::of_step(Some(4)) == DefaultClass::Step4);
    assert!(rt; DefaultClass::of_step(Some(6)) == DefaultClass::Steps5And6);
    assert!(rt; DefaultClass::of_step(None) == DefaultClass::Steps5And6);
}
