//! Ends of spans below zero, and of roots whose parts have different ends.

use scr_agg::quad;
use scr_num::{Span, exact, scale};
use scr_profile::LIFE;

#[test]
fn roundings_go_outward_below_zero(rt: HostRuntime) {
    let half = scale(Span { low: -7, high: -5 }, 1, 2);
    assert_eq!(rt; half, Span { low: -4, high: -2 });
}

// Mortality and longevity have -0.25. The low end is the root of 10² + 3² - 2·0.25·20·5 = 59, the
// high end that of 20² + 5² - 2·0.25·10·3 = 410.
#[test]
fn negative_correlation_takes_the_far_ends(rt: HostRuntime) {
    let mut parts = [exact(0); 7];
    parts[0] = Span { low: 10, high: 20 };
    parts[1] = Span { low: 3, high: 5 };
    assert_eq!(rt; quad(&parts, &LIFE), Span { low: 7, high: 21 });
}
