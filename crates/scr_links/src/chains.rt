//! Doubly linked lists of slots.
ghost use Rattle.std.specs.Prelude.{◌≡◌, ℕ, ◌<◌, ◌≤◌, ◌==◌, [], true, false, length, OnOk};
ghost use Rattle.scr_links.specs.Places.{has};
ghost use Rattle.scr_links.specs.Chains.{none, link_at, ends_at, list_of, places_from};
ghost use Rattle.scr_links.specs.Chains.{Leads, Appended, Removed, SetsNext, SetsPrevious};

use crate::list_ends::ListEnds;
use std::alloc::{AllocError as NoMemory, Global};
use std::marker::Model;

/// The link where there is no neighbour. No slot has this index.
pub(crate) const NONE: u32 = u32::MAX;

/// The neighbours of a slot in its list; `NONE` where there is none.
#[derive(Clone, Copy)]
pub(crate) struct Link {
    pub(crate) next: u32,
    pub(crate) previous: u32,
}

/// The first and the last slot of a list; `NONE` if it is empty.
#[derive(Clone, Copy)]
pub(crate) struct Ends {
    pub(crate) first: u32,
    pub(crate) last: u32,
}

/// Lists by number, of slots by index. A slot is in one list at most.
#[derive(Drop)]
pub(crate) struct Chains {
    links: Vec<Link>,
    ends: ListEnds,
}

impl Model for Chains {
    ghost use Rattle.scr_links.specs.Chains.{Chained};

    ghost Value = { Chained };

    ghost use Rattle.scr_links.specs.ChainsInside.{chained, AreKept};

    ghost view = { chained };

    ghost invariant = { AreKept };
}

impl Chains {
    /// No slot and no list.
    pub(crate) fn new(alloc: Global) -> Chains
        ensures lists { (number : ℕ) → list_of result number ≡ [] }
        ensures places { length result.links ≡ 0 }
    {
        Chains {
            links: Vec::new(alloc),
            ends: ListEnds::new(alloc),
        }
    }

    /// Makes room for `places` slots and `lists` lists; `NoMemory` if there is none. Every list stays in either case.
    pub(crate) fn grow(&mut self, places: usize, lists: u32) -> Result<(), NoMemory>
        requires { places ≤ none }
        ensures lists { (number : ℕ) → list_of self.new number ≡ list_of self.old number }
        ensures places { length self.old.links ≤ length self.new.links }
        ensures numbers { self.old.room ≤ self.new.room }
        ensures ok { OnOk result
            ((places ≤ length self.new.links) × (lists ≤ self.new.room)) }
    {
        grow_links(&mut self.links, places)?;
        self.ends.reserve(lists)
    }

    /// Appends a slot that is in no list to one.
    pub(crate) fn append(&mut self, list: u32, place: u32)
        requires list { list < self.old.room }
        requires place { place < length self.old.links }
        requires free { (number : ℕ) → has place (list_of self.old number) ≡ false }
        ensures { Appended self.old self.new list place }
    {
        let mut ends = self.ends.at(list);
        let last = ends.last;
        set_next(&mut self.links, &mut ends, last, place);
        set_previous(&mut self.links, &mut ends, NONE, place);
        set_next(&mut self.links, &mut ends, place, NONE);
        set_previous(&mut self.links, &mut ends, place, last);
        self.ends.set(list, ends);
    }

    /// Removes a slot from its list.
    pub(crate) fn remove(&mut self, list: u32, place: u32)
        requires { has place (list_of self.old list) ≡ true }
        ensures { Removed self.old self.new list place }
    {
        let mut ends = self.ends.at(list);
        let Link { next, previous } = self.links[place as usize];
        set_next(&mut self.links, &mut ends, previous, next);
        set_previous(&mut self.links, &mut ends, next, previous);
        self.ends.set(list, ends);
    }

    /// The first slot of a list; `NONE` if it is empty.
    pub(crate) fn first(&self, list: u32) -> u32
        ensures value { result ≡ (ends_at self.now.ends list).first }
        ensures listed { places_from self.now.links (length self.now.links) result
            ≡ list_of self.now list }
        ensures leads { Leads self.now.links result (list_of self.now list) }
    {
        self.ends.at(list).first
    }

    /// The slot after this one in its list; `NONE` after the last.
    pub(crate) fn next(&self, place: u32) -> u32
        requires { place < length self.now.links }
        ensures { result ≡ (link_at self.now.links place).next }
    {
        self.links[place as usize].next
    }
}

/// Makes a link for each of `places` slots; new ones have no neighbour.
fn grow_links(links: &mut Vec<Link>, places: usize) -> Result<(), NoMemory>
    requires { places ≤ none }
    ensures same { (place : ℕ) → link_at links.new.items place ≡ link_at links.old.items place }
    ensures longer { length links.old.items ≤ length links.new.items }
    ensures few { length links.old.items ≤ none → length links.new.items ≤ none }
    ensures ok { OnOk result (places ≤ length links.new.items) }
{
    if places <= links.len() {
        return Ok(());
    }
    let alone = Link {
        next: NONE,
        previous: NONE,
    };
    links.resize(places, alone)
}

/// Sets the forward link of a slot, or the list's first slot for `NONE`.
fn set_next(links: &mut Vec<Link>, ends: &mut Ends, place: u32, next: u32)
    requires { (place == none) ≡ false → place < length links.old.items }
    ensures { SetsNext place next links.old.items ends.old links.new.items ends.new }
{
    if place == NONE {
        ends.first = next;
    } else {
        links[place as usize].next = next;
    }
}

/// Sets the backward link of a slot, or the list's last slot for `NONE`.
fn set_previous(links: &mut Vec<Link>, ends: &mut Ends, place: u32, previous: u32)
    requires { (place == none) ≡ false → place < length links.old.items }
    ensures { SetsPrevious place previous links.old.items ends.old links.new.items ends.new }
{
    if place == NONE {
        ends.last = previous;
    } else {
        links[place as usize].previous = previous;
    }
}
