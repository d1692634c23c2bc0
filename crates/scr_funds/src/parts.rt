//! The parts of a fund's value.
ghost use Rattle.std.specs.Prelude.{◌≡◌, ◌*◌, ◌/◌, ◌^◌, ◌<◌, ◌≤◌, All, EachIndex, length};
ghost use Rattle.std.specs.Prelude.{slice_index, sum};
ghost use Rattle.scr_funds.specs.Parts.{part_of};

/// Shares a fund's value out among its components in proportion to their weights (Article 84 of
/// Delegated Regulation (EU) 2015/35): part k is what the first k components have together, rounded
/// down, less what those before it have together, rounded down (this project's own rounding). So
/// the parts sum to the value, cent for cent.
///
/// `value` is in cents and at most 5·10^13; there are 1 to 1,000 weights, each 1 to 10^9, and as
/// many parts.
pub fn allocate(value: u64, weights: &[u64], out: &mut [u64])
    requires value { value ≤ 5 * 10 ^ 13 }
    requires some { 0 < length weights.now }
    requires few { length weights.now ≤ 1000 }
    requires positive { All (λ w. 1 ≤ w) weights.now }
    requires small { All (λ w. w ≤ 10 ^ 9) weights.now }
    requires lengths { length out.old ≡ length weights.now }
    ensures parts { EachIndex out.new (λ k. slice_index out.new k ≡ part_of value weights.now k) }
    ensures whole { sum out.new ≡ value }
{
    let total = total_of(weights);
    let mut weight = 0;
    let mut shared = 0;
    for k in 0..weights.len() {
        weight += weights[k];
        let next = share(value, weight, total);
        out[k] = next - shared;
        shared = next;
    }
}

fn total_of(weights: &[u64]) -> u64
    requires { sum weights.now < 2 ^ 64 }
    ensures { result ≡ sum weights.now }
{
    weights.iter().sum()
}

/// `value * weight / total`, rounded down.
fn share(value: u64, weight: u64, total: u64) -> u64
    requires value { value ≤ 5 * 10 ^ 13 }
    requires within { weight ≤ total }
    requires total { 0 < total }
    ensures share { result ≡ value * weight / total }
    ensures bound { result ≤ value }
{
    (u128::from(value) * u128::from(weight) / u128::from(total)) as u64
}
