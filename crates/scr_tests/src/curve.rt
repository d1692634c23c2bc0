//! Stressed rates and discounts, by exact arithmetic.
ghost use Rattle.scr_yield_curve.specs.Parts.{IsRateInMillionths, IsRateInParts};

use scr_num::Span;
use scr_yield_curve::{Discounts, Tilt, discounts, stressed};

// The rates of 1, 20, 21, 90 and 100 years where all are alike before.
fn stressed_alike(rate: i32, tilt: Tilt) -> [i64; 5]
    requires { IsRateInMillionths rate }
{
    let curve = stressed(&[rate], tilt);
    [curve[0], curve[19], curve[20], curve[89], curve[99]]
}

// A rate of 20 % rises by 70, 26, 25 32/35 and 20 percent of itself and falls by 75, 29, 28 61/70 and 20 percent; what
// is negative rises by one percentage point, and does not fall.
#[test]
fn rates_rise_and_fall_by_a_share_of_themselves(rt: HostRuntime) {
    for (rate, tilt, rates) in [
        (
            200_000,
            Tilt::Up,
            [
                2_380_000_000,
                1_764_000_000,
                1_762_800_000,
                1_680_000_000,
                1_680_000_000,
            ],
        ),
        (
            200_000,
            Tilt::Down,
            [
                350_000_000,
                994_000_000,
                995_800_000,
                1_120_000_000,
                1_120_000_000,
            ],
        ),
        (-5000, Tilt::Up, [35_000_000; 5]),
        (-5000, Tilt::Down, [-35_000_000; 5]),
    ] {
        assert_eq!(rt; stressed_alike(rate, tilt), rates);
    }
}

fn discounted_alike(rate: i64) -> Discounts
    requires { IsRateInParts rate }
{
    let curve = [rate; 100];
    discounts(&curve)
}

fn ends_of(span: Span) -> (i128, i128) {
    (span.low, span.high)
}

fn ends_at_five(table: &Discounts) -> [(i128, i128); 5] {
    let at = &table.at;
    [
        ends_of(at[0]),
        ends_of(at[19]),
        ends_of(at[20]),
        ends_of(at[89]),
        ends_of(at[99]),
    ]
}

// The ends by exact arithmetic, after 1, 20, 21, 90 and 100 years.
#[test]
fn discounts_lie_about_the_powers(rt: HostRuntime) {
    for (table, ends) in [
        (
            discounted_alike(-70_000_000),
            [
                (1_010_101_010_101_010_101, 1_010_101_010_101_010_102),
                (1_222_632_984_307_120_298, 1_222_632_984_307_120_320),
                (1_234_982_812_431_434_644, 1_234_982_812_431_434_667),
                (2_470_770_948_443_916_170, 2_470_770_948_443_916_310),
                (2_731_999_026_429_025_926, 2_731_999_026_429_026_091),
            ],
        ),
        (
            discounted_alike(1_400_000_000),
            [
                (833_333_333_333_333_333, 833_333_333_333_333_334),
                (26_084_053_304_588_825, 26_084_053_304_588_830),
                (21_736_711_087_157_354, 21_736_711_087_157_359),
                (74_763_195_525, 74_763_195_530),
                (12_074_673_470, 12_074_673_475),
            ],
        ),
    ] {
        assert_eq!(rt; ends_at_five(&table), ends);
    }
}
