//! Reachability along edges.
ghost use Rattle.std.specs.Prelude.{◌≡◌, ◌<◌, ◌≤◌, [], All, OnOk, length, map, nat_eq, take};
ghost use Rattle.std.specs.List.{IsDistinct};
ghost use Rattle.indexmap.specs.IndexSet.{insert_all};
ghost use Rattle.scr_links.specs.Edges.{dependants_of};
ghost use Rattle.scr_reachability.specs.Reached.{AreReached};

use crate::marks::Marked;
use scr_links::Links;
use std::alloc::AllocError as NoMemory;

/// Marks all numbers that are reached from the starts along edges, each from a source to its dependant. The starts come first in
/// their order. `NoMemory` if the list can't grow. It costs one step for each reached number and each of its edges.
pub fn mark_reached(marked: &mut Marked, links: &Links, starts: &[u32]) -> Result<(), NoMemory>
    requires none { marked.old.list ≡ [] }
    requires links { links.now.size ≤ marked.old.size }
    requires starts { All (λ start. start < marked.old.size) starts.now }
    requires apart { IsDistinct nat_eq starts.now }
    ensures size { marked.new.size ≡ marked.old.size }
    ensures reached { OnOk result (AreReached links.now.edges starts.now marked.new.list) }
    ensures first { OnOk result (take (length starts.now) marked.new.list ≡ starts.now) }
{
    links.size();
    mark_all(marked, starts)?;
    let mut place = 0;
    while place < marked.as_slice().len() {
        let number = marked.as_slice()[place];
        mark_dependants(marked, links, number)?;
        place += 1;
    }
    Ok(())
}

/// Marks the starts.
fn mark_all(marked: &mut Marked, starts: &[u32]) -> Result<(), NoMemory>
    requires { All (λ start. start < marked.old.size) starts.now }
    ensures size { marked.new.size ≡ marked.old.size }
    ensures list { OnOk result (marked.new.list ≡ insert_all nat_eq marked.old.list starts.now) }
{
    for start in starts {
        marked.insert(*start)?;
    }
    Ok(())
}

/// Marks the dependants of a number.
fn mark_dependants(marked: &mut Marked, links: &Links, number: u32) -> Result<(), NoMemory>
    requires { links.now.size ≤ marked.old.size }
    ensures size { marked.new.size ≡ marked.old.size }
    ensures list { OnOk result (marked.new.list ≡ insert_all nat_eq marked.old.list
        (map (λ edge. edge.0) (dependants_of links.now number))) }
{
    links.size();
    for (dependant, _) in links.dependants(number) {
        marked.insert(dependant)?;
    }
    Ok(())
}
