//! Edges to single numbers.
ghost use Rattle.std.specs.Prelude.{◌≡◌, ◌<◌, ◌≤◌, All, length, IfOk};
ghost use Rattle.scr_reachability.specs.Linked.{sources_in};
ghost use Rattle.scr_reachability.specs.Relinking.{IsJoined};

use scr_links::Links;
use std::alloc::{AllocError as NoMemory, Global};

/// Appends edges from `sources`, in order, to the edges to a number. Room is reserved, so it can't fail.
pub fn link(links: &mut Links, number: u32, sources: &[u32])
    requires number { number < links.old.size }
    requires sources { All (λ source. source < links.old.size) sources.now }
    requires spare { length sources.now ≤ links.old.spare }
    ensures { IsJoined number sources.now links.old links.new }
{
    for source in sources {
        links.join(*source, number);
    }
}

/// The sources that are linked to a number, in order; `NoMemory` if the list doesn't fit.
pub fn linked_sources(alloc: Global, links: &Links, number: u32) -> Result<Vec<u32>, NoMemory>
    ensures { IfOk result (λ list. list.items ≡ sources_in links.now.edges number) }
{
    let mut list = Vec::new(alloc);
    for (source, _) in links.sources(number) {
        list.push(source)?;
    }
    Ok(list)
}
