//! The search for a chain of components, in order of distance.
ghost use Rattle.std.specs.Prelude.{◌≡◌, ℕ, ◌++◌, List, [], ◌∷◌, IfOk, MatchOption, OnOk, reverse, true};
ghost use Rattle.scr_funds.specs.Chains.{IsFirstShortest, LeadsTo};
ghost use Rattle.scr_funds.specs.Components.{number_above};
ghost use Rattle.scr_funds.specs.Edges.{edges_in, leads_on};
ghost use Rattle.scr_funds.specs.Search.{entered, IsTraced};

use crate::edges::Edges;
use indexmap::IndexMap;
use std::alloc::{AllocError as NoMemory, Global};

/// The first shortest chain between two funds. It costs what the search reaches.
pub(crate) fn first_chain(
    alloc: Global,
    edges: &Edges<'_>,
    to: u32,
) -> Result<Option<Vec<u32>>, NoMemory>
    requires { (fund : ℕ) → ¬ (fund ≡ to) → LeadsTo (edges_in edges.now) fund to
        → leads_on edges.now to fund ≡ true }
    ensures { IfOk result (λ found. MatchOption found
        (¬ LeadsTo (edges_in edges.now) edges.now.from to)
        (λ path. IsFirstShortest (edges_in edges.now) edges.now.from to path.items)) }
{
    // What was reached so far, nearest first, each with the place here of that which leads to it.
    let mut reached = IndexMap::new(alloc);
    reached.insert(edges.from, 0)?;
    let mut place = 0;
    while place < reached.len() {
        let (&fund, _) = reached.get_index(place).unwrap();
        let components = edges.components_of(fund);
        if components.contains(&to) {
            let path = trace(alloc, &reached, edges.from, place, to)?;
            return Ok(Some(path));
        }
        enter(&mut reached, edges, to, components, place)?;
        place += 1;
    }
    Ok(None)
}

/// Enters those components that were not reached before, with the place of the fund that leads to
/// them. What does not lead to the fund that is looked for, by its rank, is left out.
fn enter(
    reached: &mut IndexMap<u32, usize>,
    edges: &Edges<'_>,
    to: u32,
    components: &[u32],
    place: usize,
) -> Result<(), NoMemory>
    ensures { OnOk result (reached.new.entries
        ≡ entered (leads_on edges.now to) place components.now reached.old.entries) }
{
    for component in components {
        if !reached.contains_key(component) && edges.leads_on(*component, to) {
            reached.insert(*component, place)?;
        }
    }
    Ok(())
}

/// The path from the fund where the search began, through what leads to the place, to what `to`
/// names.
fn trace(
    alloc: Global,
    reached: &IndexMap<u32, usize>,
    from: u32,
    place: usize,
    to: u32,
) -> Result<Vec<u32>, NoMemory>
    requires { (trail : List ℕ) × IsTraced reached.now.entries from place trail }
    ensures { (trail : List ℕ) → IsTraced reached.now.entries from place trail
        → IfOk result (λ path. path.items ≡ from ∷ (reverse trail ++ to ∷ [])) }
{
    let mut path = Vec::new(alloc);
    path.push(to)?;
    let mut place = place;
    while place > 0 {
        let (&fund, &before) = reached.get_index(place).unwrap();
        path.push(fund)?;
        place = before;
    }
    path.push(from)?;
    path.reverse();
    Ok(path)
}

/// The number above a fund and its components.
pub(crate) fn number_above(fund: u32, members: &[u32]) -> usize
    ensures { result ≡ number_above fund members.now }
{
    members.iter().fold(fund, |most, member| most.max(*member)) as usize + 1
}
