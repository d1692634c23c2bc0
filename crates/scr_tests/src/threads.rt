//! What the low crates answer can be shared by threads.

use scr_agg::Picked;
use scr_dates::Day;
use scr_factors::Factors;
use scr_funds::{FundOrder, Kept, OrderFault, Places};
use scr_market::Equity;
use scr_num::Span;
use scr_rate::Interest;
use scr_tables::{Name, Names, Series};
use scr_yield_curve::{Discounts, Tilt};

/// Compiles only where `T` can be shared by threads.
fn shared<T: Send + Sync>() {}

#[test]
fn answers_are_shared_by_threads(_rt: HostRuntime) {
    shared::<Span>();
    shared::<Picked>();
    shared::<Tilt>();
    shared::<Discounts>();
    shared::<Day>();
    shared::<Factors>();
    shared::<Name>();
    shared::<Names>();
    shared::<Series<(Name, i64)>>();
    shared::<FundOrder>();
    shared::<Kept>();
    shared::<OrderFault>();
    shared::<Places>();
    shared::<Equity>();
    shared::<Interest>();
}
