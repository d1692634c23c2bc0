//! What a rise of interest rates loses, by exact arithmetic.
ghost use Rattle.std.specs.Prelude.{◌≤◌, sum_by, unsigned_abs};

use scr_flow::unit_loss;
use scr_num::Span;
use scr_yield_curve::discounts;

// The rate of one year rises from 2 % to 3 %, and all others stay.
fn loss_of(flows: &[i64; 100]) -> Span
    requires { sum_by unsigned_abs flows.now ≤ 1000 }
{
    let base = [140_000_000; 100];
    let mut stressed = [140_000_000; 100];
    stressed[0] = 210_000_000;
    unit_loss(
        flows,
        &base,
        &discounts(&base),
        &stressed,
        &discounts(&stressed),
    )
}

#[test]
fn a_rise_loses_at_its_maturity_alone(rt: HostRuntime) {
    let mut flows = [0; 100];
    flows[0] = 100;
    flows[19] = -3;
    let loss = loss_of(&flows);
    assert_eq!(rt; loss.low, 951_837_045_497_810_700);
    assert_eq!(rt; loss.high, 951_837_045_497_810_900);
}
