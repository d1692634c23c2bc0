//! Sums over the regions of a segment.

ghost use Rattle.std.specs.Prelude.{◌≡◌, ◌*◌, ◌≤◌};
ghost use Rattle.scr_profile.specs.declared.limits.TheConstants.{MAX_AMOUNT};
ghost use Rattle.scr_nonlife.specs.Segment.{premium_volume, reserve_volume, total_volume, squared_volumes};

/// The volume of premium risk of all regions.
pub(crate) fn premium_volume(volumes: &[(u64, u64); 18]) -> u64
    requires { total_volume volumes.now ≤ MAX_AMOUNT }
    ensures { result ≡ premium_volume volumes.now }
{
    let mut sum = 0;
    for i in 0..18 {
        sum += volumes[i].0;
    }
    sum
}

/// The volume of reserve risk of all regions.
pub(crate) fn reserve_volume(volumes: &[(u64, u64); 18]) -> u64
    requires { total_volume volumes.now ≤ MAX_AMOUNT }
    ensures { result ≡ reserve_volume volumes.now }
{
    let mut sum = 0;
    for i in 0..18 {
        sum += volumes[i].1;
    }
    sum
}

/// Both volumes of all regions.
pub(crate) fn total_volume(volumes: &[(u64, u64); 18]) -> u64
    requires { total_volume volumes.now ≤ MAX_AMOUNT }
    ensures { result ≡ total_volume volumes.now }
{
    premium_volume(volumes) + reserve_volume(volumes)
}

/// The sum of the squares of the regional volumes.
pub(crate) fn squared_volumes(volumes: &[(u64, u64); 18]) -> u128
    requires { total_volume volumes.now ≤ MAX_AMOUNT }
    ensures value { result ≡ squared_volumes volumes.now }
    ensures at_most { result ≤ total_volume volumes.now * total_volume volumes.now }
{
    let mut sum = 0;
    for i in 0..18 {
        let region = u128::from(volumes[i].0 + volumes[i].1);
        sum += region * region;
    }
    sum
}
