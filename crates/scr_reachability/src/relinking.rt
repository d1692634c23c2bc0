//! Edges that are made anew, without memory.
ghost use Rattle.std.specs.Prelude.{◌≡◌, ◌≤◌, ◌+◌, [], eqb, slice_get};
ghost use Rattle.std.specs.List.{AllByRecursion, IsDistinct};
ghost use Rattle.std.specs.Option.{option_map};
ghost use Rattle.scr_links.specs.Edges.{ids_of, sources_of};
ghost use Rattle.scr_reachability.specs.declared.ranks.Due.{Due};
ghost use Rattle.scr_reachability.specs.LinkedDues.{AreRelinked, numbers_of, sources_count};
ghost use Rattle.scr_reachability.specs.Linked.{edges_to};
ghost use Rattle.scr_reachability.specs.Relinking.{AreJoined, AreLinkable, AreUnlinked, IsUnlinked};

use crate::linking::link;
use crate::ranks::Due;
use scr_links::{EdgeId, Links};

/// Replaces all edges to the number of each due by edges from its sources. The edges to every other number stay. Room is reserved,
/// so it can't fail. It costs one step for each edge cut or made.
pub fn relink(links: &mut Links, dues: &[Due])
    requires { AreLinkable links.old dues.now }
    ensures links { AreRelinked dues.now links.old.edges links.new.edges }
    ensures spare { links.old.spare ≤ links.new.spare + sources_count dues.now }
    ensures size { links.new.size ≡ links.old.size }
{
    unlink_all(links, dues);
    link_all(links, dues);
}

/// Cuts all edges to the numbers of the dues.
fn unlink_all(links: &mut Links, dues: &[Due])
    ensures { AreUnlinked (numbers_of dues.now) links.old links.new }
{
    for due in dues {
        unlink(links, due.number);
    }
}

/// Cuts all edges to a number.
fn unlink(links: &mut Links, number: u32)
    ensures { IsUnlinked number links.old links.new }
{
    while let Some(edge) = first_link(links, number) {
        links.cut(edge);
    }
}

/// The first edge to a number; `None` if there is none. No two edges share an id.
fn first_link(links: &Links, number: u32) -> Option<EdgeId>
    ensures first { result
        ≡ option_map (λ source. source.1) (slice_get (sources_of links.now number) 0) }
    ensures apart { IsDistinct eqb (ids_of links.now) }
{
    let _ = links.spare();
    match links.sources(number).next() {
        Some((_, edge)) => Some(edge),
        None => None,
    }
}

/// Links the dues to their sources, where there is no edge.
fn link_all(links: &mut Links, dues: &[Due])
    requires linkable { AreLinkable links.old dues.now }
    requires free { AllByRecursion (λ (due : Due). edges_to links.old.edges due.number ≡ []) dues.now }
    ensures { AreJoined dues.now links.old links.new }
{
    for due in dues {
        link(links, due.number, due.sources.as_slice());
    }
}
