//! The shares of a fund's components, by name.
ghost use Rattle.std.specs.Prelude.{◌≡◌, ◌<◌, ◌^◌, IfOk, OnOk, is_some, sum_by};
ghost use Rattle.std.specs.Bool.{beq};
ghost use Rattle.std.specs.Option.{option_copied, option_eq};
ghost use Rattle.scr_sheet.specs.Records.{natural};
ghost use Rattle.scr_touched.specs.Components.{with_first};
ghost use Rattle.scr_touched.specs.Funds.{share_kept, share_of, holder_kept, is_same_share};
ghost use Rattle.scr_touched.specs.Weighed.{AreShares, AreWeighed, share_at};

use crate::component::{Component, Weighed};
use scr_sheet::{Name, Rows, Stake, natural};
use std::alloc::{AllocError as NoMemory, Global};

/// The components of the fund, if there is a fund.
pub(crate) fn weighed(alloc: Global, stake: Option<&Stake>) -> Result<Weighed, NoMemory>
    ensures { IfOk result (λ weighed. AreShares weighed (option_copied stake.entry)) }
{
    match stake {
        Some(stake) => of_fund(alloc, stake),
        None => Ok(Weighed {
            rows: Rows::new(alloc),
            all: 0,
        }),
    }
}

fn of_fund(alloc: Global, stake: &Stake) -> Result<Weighed, NoMemory>
    ensures weighed { IfOk result (λ weighed. AreWeighed weighed.rows stake.now.fund.components) }
    ensures all { IfOk result (λ weighed.
        weighed.all ≡ sum_by (λ c. natural c.1) stake.now.fund.components) }
{
    let components = stake.fund.components.as_slice();
    let mut rows = Rows::new(alloc);
    let mut all = 0;
    for component in components {
        let (name, before) = (component.0, all);
        all += weight_of(component);
        let through = all;
        put_first(
            alloc,
            &mut rows,
            Component {
                name,
                before,
                through,
            },
        )?;
    }
    Ok(Weighed { rows, all })
}

/// The weight of a component, which is at least 0.
fn weight_of(component: &(Name, i64)) -> u128
    ensures weight { result ≡ natural component.now.1 }
    ensures fits { result < 2 ^ 64 }
{
    u128::from(natural(component.1))
}

/// Of two components of one name the first counts.
fn put_first(
    alloc: Global,
    rows: &mut Rows<Component>,
    component: Component,
) -> Result<(), NoMemory>
    ensures { OnOk result (rows.new ≡ with_first component rows.old) }
{
    if !rows.contains(&component.name) {
        rows.put(alloc, component)?;
    }
    Ok(())
}

/// What has this name has the same share in the fund before and after, or none; and it is a
/// component before as it is after.
pub(crate) fn kept(
    name: &Name,
    old: &Weighed,
    new: &Weighed,
    _old_fund: Option<&Stake>,
    _new_fund: Option<&Stake>,
) -> (bool, bool)
    requires old { AreShares old.now (option_copied _old_fund) }
    requires new { AreShares new.now (option_copied _new_fund) }
    ensures share { result.0 ≡ share_kept name.now (option_copied _old_fund.entry)
        (option_copied _new_fund.entry) }
    ensures holder { result.1 ≡ holder_kept name.now (option_copied _old_fund.entry)
        (option_copied _new_fund.entry) }
{
    (same_share(name, old, new), same_holder(name, old, new))
}

/// What has this name is a component of the fund.
pub(crate) fn is_held(name: &Name, weighed: &Weighed, _fund: Option<&Stake>) -> bool
    requires { AreShares weighed.now (option_copied _fund) }
    ensures { result ≡ is_some (share_of name.now (option_copied _fund.entry)) }
{
    has_share(name, weighed)
}

fn has_share(name: &Name, weighed: &Weighed) -> bool
    ensures { result ≡ is_some (share_at name.now weighed.now) }
{
    weighed.rows.get(name).is_some()
}

fn same_share(name: &Name, old: &Weighed, new: &Weighed) -> bool
    ensures { result
        ≡ option_eq is_same_share (share_at name.now old.now) (share_at name.now new.now) }
{
    match (old.rows.get(name), new.rows.get(name)) {
        (Some(a), Some(b)) => {
            a.before == b.before && a.through == b.through && old.all == new.all
        }
        (None, None) => true,
        _ => false,
    }
}

fn same_holder(name: &Name, old: &Weighed, new: &Weighed) -> bool
    ensures { result
        ≡ beq (is_some (share_at name.now old.now)) (is_some (share_at name.now new.now)) }
{
    match (old.rows.get(name), new.rows.get(name)) {
        (Some(_), Some(_)) | (None, None) => true,
        _ => false,
    }
}
