//! What is held of each fund and security, directly and through funds.
ghost use Rattle.std.specs.Prelude.{◌≡◌, ℕ, ◌+◌, ◌*◌, ◌^◌, ◌<◌, ◌≤◌, All, IfOk, OnOk, length, map};
ghost use Rattle.std.specs.Prelude.{nat_eq, slice_index, sum, sum_by, take};
ghost use Rattle.std.specs.List.{range_with_len};
ghost use Rattle.scr_funds.specs.ByNumber.{IsRow, held_at, numbered, weighted_rows};
ghost use Rattle.scr_funds.specs.Chains.{IsAcyclic};
ghost use Rattle.scr_funds.specs.HandedOn.{AreReady, times};
ghost use Rattle.scr_funds.specs.LookThrough.{falling_to, names_in, parts_of, total};

use crate::allocate;
use std::alloc::{AllocError as NoMemory, Global};

/// The total of each fund and security in cents: what is held of it directly and through funds
/// (Article 84 of Delegated Regulation (EU) 2015/35). No total is above all that is held directly.
/// Only want of memory is refused.
///
/// All go by numbers, which are their places in `held`. Fund k has `funds[k]`, its components with
/// their weights in the order of its record; a fund without components is closed, and what comes
/// after the funds is a security. `held` sums to at most 5·10^13; a fund has at most 1,000
/// components, each below the number of all and of a weight of 1 to 10^9; none leads to itself. The
/// cost is in proportion to the funds, the securities and the components.
pub fn totals(alloc: Global, held: &[u64], funds: &[Vec<(u32, u64)>]) -> Result<Vec<u64>, NoMemory>
    requires funds { length funds.now ≤ length held.now }
    requires size { length held.now ≤ 2 ^ 32 }
    requires rows { All (IsRow (length held.now)) (weighted_rows funds.now) }
    requires held { sum held.now ≤ 5 * 10 ^ 13 }
    requires acyclic { IsAcyclic (names_in nat_eq (numbered (weighted_rows funds.now))) }
    ensures totals { IfOk result (λ found. found.items
        ≡ map (total nat_eq (held_at held.now) (numbered (weighted_rows funds.now)))
        (range_with_len 0 (length held.now))) }
    ensures within { IfOk result (λ found. All (λ value. value ≤ sum held.now) found.items) }
{
    let mut values = Vec::from_slice(alloc, held)?;
    let mut waiting = holders_of(alloc, held.len(), funds)?;
    let mut ready = first_ready(alloc, &waiting, funds.len())?;
    hand_out(&mut values, &mut waiting, &mut ready, funds)?;
    Ok(values)
}

/// How many places in the rows of funds each number has.
fn holders_of(alloc: Global, size: usize, funds: &[Vec<(u32, u64)>]) -> Result<Vec<u64>, NoMemory>
    requires rows { All (IsRow size) (weighted_rows funds.now) }
    requires few { length funds.now ≤ 2 ^ 32 }
    ensures length { IfOk result (λ waiting. length waiting.items ≡ size) }
    ensures counts { IfOk result (λ waiting. (x : ℕ) → x < size
        → slice_index waiting.items x ≡ sum_by (times x) (weighted_rows funds.now)) }
{
    let mut waiting = vec![in alloc; 0; size]?;
    for row in funds {
        count_places(&mut waiting, row);
    }
    Ok(waiting)
}

/// Counts the places that each number has in a row.
fn count_places(waiting: &mut [u64], row: &[(u32, u64)])
    requires below { All (λ component. component.0 < length waiting.old) row.now }
    requires fits { All (λ count. count + length row.now < 2 ^ 64) waiting.old }
    ensures { (x : ℕ) → x < length waiting.old
        → slice_index waiting.new x ≡ slice_index waiting.old x + times x row.now }
{
    for (component, _) in row {
        waiting[*component as usize] += 1;
    }
}

/// The funds that wait for none.
fn first_ready(alloc: Global, waiting: &[u64], funds: usize) -> Result<Vec<u32>, NoMemory>
    requires within { funds ≤ length waiting.now }
    requires few { funds ≤ 2 ^ 32 }
    ensures { IfOk result (λ ready. AreReady funds waiting.now ready.items) }
{
    let mut ready = Vec::with_capacity(alloc, funds)?;
    for fund in 0..funds {
        if waiting[fund] == 0 {
            ready.push(fund as u32)?;
        }
    }
    Ok(ready)
}

/// Hands out what each fund has, each after all that hold it.
fn hand_out(
    values: &mut [u64],
    waiting: &mut [u64],
    ready: &mut Vec<u32>,
    funds: &[Vec<(u32, u64)>],
) -> Result<(), NoMemory>
    requires funds { length funds.now ≤ length values.old }
    requires size { length values.old ≤ 2 ^ 32 }
    requires rows { All (IsRow (length values.old)) (weighted_rows funds.now) }
    requires held { sum values.old ≤ 5 * 10 ^ 13 }
    requires acyclic { IsAcyclic (names_in nat_eq (numbered (weighted_rows funds.now))) }
    requires waiting { length waiting.old ≡ length values.old }
    requires counts { (x : ℕ) → x < length values.old
        → slice_index waiting.old x ≡ sum_by (times x) (weighted_rows funds.now) }
    requires ready { AreReady (length funds.now) waiting.old ready.old.items }
    ensures totals { OnOk result (values.new
        ≡ map (total nat_eq (held_at values.old) (numbered (weighted_rows funds.now)))
        (range_with_len 0 (length values.old))) }
    ensures within { OnOk result (All (λ value. value ≤ sum values.old) values.new) }
{
    let mut weights = [0; 1_000];
    let mut parts = [0; 1_000];
    for place in 0..funds.len() {
        let fund = ready[place] as usize;
        let row = funds[fund].as_slice();
        share_out(values[fund], row, &mut weights, &mut parts);
        add_parts(values, row, &parts[..row.len()]);
        release(waiting, row, funds.len(), ready)?;
    }
    Ok(())
}

/// Shares a value out among the components of a row: the first places of `parts` get their parts.
fn share_out(value: u64, row: &[(u32, u64)], weights: &mut [u64], parts: &mut [u64])
    requires value { value ≤ 5 * 10 ^ 13 }
    requires few { length row.now ≤ 1000 }
    requires positive { All (λ component. 1 ≤ component.1) row.now }
    requires small { All (λ component. component.1 ≤ 10 ^ 9) row.now }
    requires weights { 1000 ≤ length weights.old }
    requires parts { 1000 ≤ length parts.old }
    ensures { take (length row.now) parts.new
        ≡ parts_of value (map (λ component. component.1) row.now) }
{
    if row.is_empty() {
        return;
    }
    copy_weights(row, weights);
    allocate(value, &weights[..row.len()], &mut parts[..row.len()]);
}

/// Puts the weights of a row into the first places.
fn copy_weights(row: &[(u32, u64)], weights: &mut [u64])
    requires { length row.now ≤ length weights.old }
    ensures { take (length row.now) weights.new ≡ map (λ component. component.1) row.now }
{
    for (place, (_, weight)) in row.iter().enumerate() {
        weights[place] = *weight;
    }
}

/// Adds to what each component has its part.
fn add_parts(values: &mut [u64], row: &[(u32, u64)], parts: &[u64])
    requires below { All (λ component. component.0 < length values.old) row.now }
    requires lengths { length parts.now ≡ length row.now }
    requires fits { All (λ value. value + sum parts.now < 2 ^ 64) values.old }
    ensures { (x : ℕ) → x < length values.old → slice_index values.new x
        ≡ slice_index values.old x + falling_to nat_eq x
        (map (λ component. component.0) row.now) parts.now }
{
    for (place, (component, _)) in row.iter().enumerate() {
        values[*component as usize] += parts[place];
    }
}

/// The components of a row wait for it no longer, and funds among them that wait for none are
/// ready.
fn release(
    waiting: &mut [u64],
    row: &[(u32, u64)],
    funds: usize,
    ready: &mut Vec<u32>,
) -> Result<(), NoMemory>
    requires below { All (λ component. component.0 < length waiting.old) row.now }
    requires within { funds ≤ length waiting.old }
    requires counted { (x : ℕ) → times x row.now ≤ slice_index waiting.old x }
    requires ready { AreReady funds waiting.old ready.old.items }
    ensures counts { OnOk result
        ((x : ℕ) → slice_index waiting.new x + times x row.now ≡ slice_index waiting.old x) }
    ensures ready { OnOk result (AreReady funds waiting.new ready.new.items) }
    ensures front { OnOk result (take (length ready.old.items) ready.new.items ≡ ready.old.items) }
{
    for (component, _) in row {
        let count = &mut waiting[*component as usize];
        *count -= 1;
        if *count == 0 && (*component as usize) < funds {
            ready.push(*component)?;
        }
    }
    Ok(())
}
