//! Edges that join and leave the lists of their two nodes at a constant cost.
ghost use Rattle.std.specs.Prelude.{◌≡◌, ℕ, ◌+◌, ◌-◌, ◌<◌, ◌≤◌, ◌==◌, ◌++◌, ◌∷◌, [], max};
ghost use Rattle.std.specs.Prelude.{All, IsTrue, true, false, eqb, length, IfOk, OnOk, OnErr};
ghost use Rattle.std.specs.List.{IsDistinct};
ghost use Rattle.scr_links.specs.Edges.{edge, linked, ids_of, is_edge, edges_without};
ghost use Rattle.scr_links.specs.Places.{has};
ghost use Rattle.scr_links.specs.Chains.{none, list_of};
ghost use Rattle.scr_links.specs.Growth.{Freed};
ghost use Rattle.scr_links.specs.Edges.{sources_of, dependants_of};

use crate::chains::Chains;
use crate::walk::{Towards, Walk};
use std::alloc::{AllocError as NoMemory, Global};
use std::marker::Model;

/// The largest number of slots: edge ids have 32 bits, of which two values are none.
const MAX_PLACES: u32 = u32::MAX - 1;

/// The list of all edges, in the order of joining.
const STANDING: u32 = 0;

/// The list of free slots.
const FREE: u32 = 1;

/// The id of an edge, from `Links::join` to `Links::cut`. Contracts see it as a number.
#[derive(Clone, Copy, Debug, PartialEq, Eq)]
pub struct EdgeId {
    place: u32,
}

impl Model for EdgeId {
    ghost use Rattle.std.specs.Prelude.{ℕ};

    ghost Value = { ℕ };

    ghost view = { λ id. id.place };

    ghost inverse = { λ place. record { place = place } };
}

impl EdgeId {
    /// The id of the edge in a slot.
    pub(crate) fn new(place: u32) -> EdgeId
        ensures { result ≡ place }
    {
        EdgeId { place }
    }
}

/// The two nodes of an edge.
#[derive(Clone, Copy)]
pub(crate) struct Pair {
    pub(crate) source: u32,
    pub(crate) dependant: u32,
}

/// The edges by slot: the list of all, the lists by source and by dependant, and the nodes of each.
#[derive(Drop)]
struct Tables {
    order: Chains,
    by_source: Chains,
    by_dependant: Chains,
    pairs: Vec<Pair>,
}

impl Tables {
    ghost use Rattle.std.specs.Prelude.{◌≤◌, OnOk};
    ghost use Rattle.scr_links.specs.Chains.{none};
    ghost use Rattle.scr_links.specs.Growth.{HasGrown, HasRoom};

    /// Makes room for `places` slots and for lists of `size` nodes. Every list stays.
    fn grow(&mut self, places: u32, size: u32) -> Result<(), NoMemory>
        requires { places ≤ none }
        ensures grown { HasGrown self.old self.new }
        ensures ok { OnOk result (HasRoom self.new places size) }
    {
        let places = places as usize;
        self.order.grow(places, 2)?;
        if places > self.pairs.len() {
            self.pairs.resize(
                places,
                Pair {
                    source: 0,
                    dependant: 0,
                },
            )?;
        }
        // Few nodes are sources, so their lists come last: unwritten room then shares no page with written lists.
        self.by_dependant.grow(places, size)?;
        self.by_source.grow(places, size)
    }
}

/// Edges from sources to dependants. Contracts see the edges in the order in which they joined, each with its own id. `spare` is
/// the number of further edges that can join without memory, and `size` the bound of all nodes.
#[derive(Drop)]
pub struct Links {
    tables: Tables,
    places: u32,
    spare: u32,
    size: u32,
}

impl Model for Links {
    ghost use Rattle.scr_links.specs.Edges.{Linked};

    ghost Value = { Linked };

    ghost use Rattle.scr_links.specs.Kept.{linked_of, AreKept};

    ghost view = { linked_of };

    ghost invariant = { AreKept };
}

impl Links {
    /// No edge, and room for none; `NoMemory` if the arena can't be made.
    pub fn new(alloc: Global) -> Result<Links, NoMemory>
        ensures { IfOk result (λ links. links ≡ linked [] 0 0) }
    {
        let mut order = Chains::new(alloc);
        order.grow(0, 2)?;
        let tables = Tables {
            order,
            by_source: Chains::new(alloc),
            by_dependant: Chains::new(alloc),
            pairs: Vec::new(alloc),
        };
        Ok(Links {
            tables,
            places: 0,
            spare: 0,
            size: 0,
        })
    }

    /// Makes room for `n` further edges, and for nodes below `size`; room never shrinks. `NoMemory` if memory is refused or there
    /// would be more than 2^32 - 2 slots; all stays as it was.
    pub fn reserve(&mut self, alloc: Global, n: u32, size: u32) -> Result<(), NoMemory>
        ensures ok { OnOk result (self.new
            ≡ linked self.old.edges (max self.old.spare n) (max self.old.size size)) }
        ensures err { OnErr result (self.new ≡ self.old) }
    {
        if n <= self.spare && size <= self.size {
            return Ok(());
        }
        let places = places_with(self.places, self.spare, n)?;
        let size = self.size.max(size);
        self.tables.grow(places, size)?;
        free(&mut self.tables.order, self.places, places);
        self.spare += places - self.places;
        self.places = places;
        self.size = size;
        Ok(())
    }

    /// Appends an edge and returns its id, which no other edge has. It uses reserved room, so it can't fail.
    pub fn join(&mut self, source: u32, dependant: u32) -> EdgeId
        requires room { 0 < self.old.spare }
        requires source { source < self.old.size }
        requires dependant { dependant < self.old.size }
        ensures joined { self.new ≡ linked (self.old.edges ++ edge source dependant result ∷ [])
            (self.old.spare - 1) self.old.size }
        ensures name { is_edge self.old result ≡ false }
    {
        let place = self.tables.order.first(FREE);
        self.tables.order.remove(FREE, place);
        self.tables.order.append(STANDING, place);
        self.tables.pairs[place as usize] = Pair { source, dependant };
        self.tables.by_source.append(source, place);
        self.tables.by_dependant.append(dependant, place);
        self.spare -= 1;
        EdgeId::new(place)
    }

    /// Removes an edge; the others stay in order. Its slot is free, so a later edge may get its id.
    pub fn cut(&mut self, e: EdgeId)
        requires { IsTrue (is_edge self.old e) }
        ensures { self.new ≡ linked (edges_without self.old e) (self.old.spare + 1) self.old.size }
    {
        let place = e.place;
        let Pair { source, dependant } = self.tables.pairs[place as usize];
        self.tables.by_source.remove(source, place);
        self.tables.by_dependant.remove(dependant, place);
        self.tables.order.remove(STANDING, place);
        self.tables.order.append(FREE, place);
        self.spare += 1;
    }

    /// The sources of a node, each with the id of its edge, in the order of joining. A node at `size` or above has none.
    pub fn sources(&self, n: u32) -> Walk<'_>
        ensures { result ≡ sources_of self.now n }
    {
        Walk::new(
            &self.tables.by_dependant,
            self.tables.pairs.as_slice(),
            Towards::Source,
            n,
        )
    }

    /// The dependants of a node, each with the id of its edge, in the order of joining. A node at `size` or above has none.
    pub fn dependants(&self, n: u32) -> Walk<'_>
        ensures { result ≡ dependants_of self.now n }
    {
        Walk::new(
            &self.tables.by_source,
            self.tables.pairs.as_slice(),
            Towards::Dependant,
            n,
        )
    }

    /// The number of further edges that can join without memory. No two edges share an id.
    pub fn spare(&self) -> u32
        ensures value { result ≡ self.now.spare }
        ensures apart { IsDistinct eqb (ids_of self.now) }
    {
        self.spare
    }

    /// The bound below which the nodes of every edge are.
    pub fn size(&self) -> u32
        ensures value { result ≡ self.now.size }
        ensures below { All (λ e. (e.source < self.now.size) × (e.dependant < self.now.size))
            self.now.edges }
    {
        self.size
    }
}

/// The number of slots that leaves `wanted` of them spare; `NoMemory` above 2^32 - 2.
fn places_with(places: u32, spare: u32, wanted: u32) -> Result<u32, NoMemory>
    ensures count { IfOk result (λ count. count + spare ≡ places + max spare wanted) }
    ensures few { IfOk result (λ count. count < none) }
{
    match places.checked_add(wanted.saturating_sub(spare)) {
        Some(count) if count <= MAX_PLACES => Ok(count),
        _ => Err(NoMemory),
    }
}

/// Appends slots `from` to `to` - 1 to the free list.
fn free(order: &mut Chains, from: u32, to: u32)
    requires range { from ≤ to }
    requires places { to ≤ length order.old.links }
    requires numbers { 2 ≤ order.old.room }
    requires placed { (number place : ℕ)
        → has place (list_of order.old number) ≡ true → place < from }
    ensures { Freed order.old order.new from to }
{
    for place in from..to {
        order.append(FREE, place);
    }
}
