//! Which funds hold which, by name.
ghost use Rattle.std.specs.Prelude.{◌≡◌, ℕ, ◌≤◌, ◌<◌, ◌||◌, List, [], ◌∷◌, length, map, if◌then◌else◌};
ghost use Rattle.std.specs.Prelude.{Contains, IsTrue, true, false, Some, None, OnOk, OnErr, IfOk, IfSome};
ghost use Rattle.std.specs.Prelude.{slice_index_or};
ghost use Rattle.scr_funds.specs.Chains.{IsAcyclic, LeadsTo};
ghost use Rattle.scr_funds.specs.Paths.{path_within};
ghost use Rattle.scr_tables.specs.Names.{same_name};
ghost use Rattle.scr_fund_graph.specs.Answers.{Answers};
ghost use Rattle.scr_fund_graph.specs.Graph.{number_in, entered_in, components_under, components_after};
ghost use Rattle.scr_fund_graph.specs.Graph.{is_known, known_among, is_component, with_names, BeginsWith};
ghost use Rattle.scr_fund_graph.specs.KeptNumbers.{AreNumbersOf, is_number, are_numbers, stands_for};

use crate::{GraphFault, KeptComponents};
use indexmap::IndexSet;
use scr_funds::{FundOrder, Kept, OrderFault};
use scr_tables::{Name, Names};
use std::alloc::{AllocError as NoMemory, Global};
use std::marker::Model;

/// The most names that can be entered: their numbers have 32 bits.
const MAX_NAMES: usize = u32::MAX as usize;

/// Which funds hold which (Article 84 of Delegated Regulation (EU) 2015/35): securities and funds
/// by name, none of which holds itself. Contracts see the names that were entered and the
/// components under each.
#[derive(Drop)]
pub struct FundGraph {
    // In the order in which they were entered.
    names: IndexSet<Name>,
    order: FundOrder,
}

impl Model for FundGraph {
    ghost use Rattle.scr_fund_graph.specs.Graph.{Graph};

    ghost Value = { Graph };

    ghost use Rattle.scr_fund_graph.specs.GraphInside.{graph_of, IsNumbered};

    ghost view = { graph_of };

    ghost invariant = { IsNumbered };
}

impl FundGraph {
    /// Nothing is entered.
    pub fn new(alloc: Global) -> Result<FundGraph, NoMemory>
        ensures entered { IfOk result (λ graph. (x : List ℕ) → entered_in graph x ≡ false) }
        ensures components { IfOk result (λ graph. (x : List ℕ) → components_under graph x ≡ []) }
    {
        Ok(FundGraph {
            names: IndexSet::new(alloc),
            order: FundOrder::new(alloc)?,
        })
    }

    /// Whether a fund could have these components in the place of its own; nothing changes. `Cycle`
    /// comes exactly where it would then hold itself, and tells the first shortest chain by which
    /// it would. The fund and its components may be names that were not entered, and the fund be a
    /// component of itself. `most` may be any number that is at least that of the names that would
    /// have components. Hands out the numbers of those components that were entered, which spare
    /// `put` a look-up of each.
    pub fn check(
        &self,
        alloc: Global,
        fund: &Name,
        components: &[(Name, i64)],
    ) -> Result<Vec<u32>, GraphFault>
        ensures answer { let after = components_after fund.now components.now self.now in
            (most : ℕ) (holders : List (List ℕ))
            → ((x : List ℕ) → ¬ (after x ≡ []) → Contains holders x) → length holders ≤ most
            → Answers (path_within same_name after most fund.now fund.now) result }
        ensures apart { OnOk result
            (¬ LeadsTo (components_after fund.now components.now self.now) fund.now fund.now) }
        ensures numbers { IfOk result (λ numbers. numbers.items
            ≡ map (λ c. number_in self.now.names c.0) (known_among fund.now components.now self.now)) }
    {
        let numbers = match self.numbers(alloc, fund, components) {
            Ok(numbers) => numbers,
            Err(NoMemory) => return Err(GraphFault::NoMemory),
        };
        match self.order.check_edges(alloc, self.number(fund), &numbers) {
            Ok(()) => Ok(numbers),
            Err(OrderFault::NoMemory) => Err(GraphFault::NoMemory),
            Err(OrderFault::Cycle(path)) => match self.names(alloc, fund, path.as_slice()) {
                Ok(names) => Err(GraphFault::Cycle(Names::new(names))),
                Err(NoMemory) => Err(GraphFault::NoMemory),
            },
        }
    }

    /// Gives a fund these components in the place of its own, by which it must not come to hold
    /// itself. It and its components are entered, for good, where they were not. Where memory is
    /// refused, all is as before; where 2^32 - 1 names were entered, a new one is refused as if for
    /// want of memory. The numbers that `found` has may be any; a component whose number is the next
    /// of them is not looked up.
    pub fn put(
        &mut self,
        alloc: Global,
        fund: &Name,
        components: &[(Name, i64)],
        found: &[u32],
    ) -> Result<(), NoMemory>
        requires { ¬ LeadsTo
            (components_after fund.now components.now self.old) fund.now fund.now }
        ensures ok { OnOk result
            (components_under self.new ≡ components_after fund.now components.now self.old) }
        ensures entered { OnOk result ((x : List ℕ) → entered_in self.new x
            ≡ (same_name x fund.now || is_component x components.now || entered_in self.old x)) }
        ensures err { OnErr result (self.new ≡ self.old) }
        ensures acyclic { OnOk result (IsAcyclic (components_under self.new)) }
    {
        let before = self.names.len();
        match self.enter_and_put(alloc, fund, components, found) {
            Ok(()) => Ok(()),
            Err(NoMemory) => {
                self.names.truncate(before);
                Err(NoMemory)
            }
        }
    }

    // The same, but where memory is refused some names may have been entered.
    fn enter_and_put(
        &mut self,
        alloc: Global,
        fund: &Name,
        components: &[(Name, i64)],
        found: &[u32],
    ) -> Result<(), NoMemory>
        requires { ¬ LeadsTo
            (components_after fund.now components.now self.old) fund.now fund.now }
        ensures ok { OnOk result
            (components_under self.new ≡ components_after fund.now components.now self.old) }
        ensures entered { OnOk result (self.new.names
            ≡ with_names (fund.now ∷ map (λ c. c.0) components.now) self.old.names) }
        ensures err { OnErr result (self.new.components ≡ self.old.components) }
        ensures names { BeginsWith self.old.names self.new.names }
        ensures acyclic { OnOk result (IsAcyclic (components_under self.new)) }
    {
        let number = self.enter(fund)?;
        let numbers = self.enter_components(alloc, components, found)?;
        self.order.replace(alloc, number, numbers)?;
        Ok(())
    }

    // Enters the components. Hands out their numbers.
    fn enter_components(
        &mut self,
        alloc: Global,
        components: &[(Name, i64)],
        found: &[u32],
    ) -> Result<Vec<u32>, NoMemory>
        ensures numbers { IfOk result (λ numbers. numbers.items
            ≡ map (λ c. number_in self.new.names c.0) components.now) }
        ensures entered { OnOk result (self.new.names
            ≡ with_names (map (λ c. c.0) components.now) self.old.names) }
        ensures names { BeginsWith self.old.names self.new.names }
        ensures components { self.new.components ≡ self.old.components }
        ensures under { OnOk result (components_under self.new ≡ components_under self.old) }
    {
        let mut numbers = Vec::with_capacity(alloc, components.len())?;
        let mut next = 0;
        for (name, _) in components {
            let number = match self.found_number(found, next, name) {
                Some(number) => {
                    next += 1;
                    number
                }
                None => self.enter(name)?,
            };
            numbers.push(number)?;
        }
        Ok(numbers)
    }

    // The number at that place, where it is that of the name.
    fn found_number(&self, found: &[u32], place: usize, name: &Name) -> Option<u32>
        ensures { IfSome result (λ number. (number ≡ number_in self.now.names name.now)
            × (entered_in self.now name.now ≡ true) × (place < length found.now)) }
    {
        match found.get(place) {
            Some(number) if self.is_number(self.names.len(), *number, name) => Some(*number),
            _ => None,
        }
    }

    // Enters a name, where it was not entered. Hands out its number.
    fn enter(&mut self, name: &Name) -> Result<u32, NoMemory>
        ensures number { IfOk result (λ number. number ≡ number_in self.old.names name.now) }
        ensures entered { OnOk result (self.new.names ≡ with_names (name.now ∷ []) self.old.names) }
        ensures components { self.new.components ≡ self.old.components }
        ensures under { OnOk result (components_under self.new ≡ components_under self.old) }
        ensures err { OnErr result (self.new ≡ self.old) }
    {
        if self.names.len() >= MAX_NAMES {
            return self.known(name);
        }
        // One look-up enters a new name, and leaves one that is there.
        let Ok((place, _)) = self.names.insert_full(*name) else {
            return Err(NoMemory);
        };
        Ok(place as u32)
    }

    // Where no more names can be entered: the number of one that was.
    fn known(&self, name: &Name) -> Result<u32, NoMemory>
        ensures number { IfOk result (λ number. number ≡ number_in self.now.names name.now) }
        ensures entered { OnOk result (entered_in self.now name.now ≡ true) }
    {
        match self.names.get_index_of(name) {
            Some(place) => Ok(place as u32),
            None => Err(NoMemory),
        }
    }

    /// Takes a fund's components off, without memory. The name stays entered.
    pub fn clear(&mut self, fund: &Name)
        ensures components { components_under self.new ≡ components_after fund.now [] self.old }
        ensures entered { entered_in self.new ≡ entered_in self.old }
        ensures acyclic { IsAcyclic (components_under self.new) }
    {
        let number = self.number(fund);
        let _ = self.order.remove(number);
    }

    /// The components of a fund, kept so that they can be put back without memory.
    pub fn keep(&self, alloc: Global, fund: &Name) -> Result<KeptComponents, NoMemory>
        ensures { IfOk result (λ kept. AreNumbersOf kept fund.now self.now) }
    {
        let number = self.number(fund);
        let components = Vec::from_slice(alloc, self.order.components(number))?;
        Ok(KeptComponents { number, components })
    }

    /// Gives a fund these components, which it had, in the place of its own, without memory: by the numbers that were kept, where
    /// these still are those of the names. Answers whether they are; where not, all is as before.
    pub fn put_back(
        &mut self,
        fund: &Name,
        components: &[(Name, i64)],
        kept: KeptComponents,
    ) -> bool
        requires apart { ¬ LeadsTo
            (components_after fund.now components.now self.old) fund.now fund.now }
        ensures told { result ≡ stands_for kept fund.now components.now self.old }
        ensures back { result ≡ true
            → components_under self.new ≡ components_after fund.now components.now self.old }
        ensures own { result ≡ true → entered_in self.old fund.now ≡ true }
        ensures still { result ≡ false → self.new ≡ self.old }
        ensures entered { entered_in self.new ≡ entered_in self.old }
    {
        if self.stands_for(fund, components, &kept) {
            let KeptComponents { number, components } = kept;
            let _ = self.order.remove(number);
            self.order.put_back(Kept::new(number, components));
            return true;
        }
        false
    }

    /// What was kept are the numbers of the fund and of these components.
    fn stands_for(&self, fund: &Name, components: &[(Name, i64)], kept: &KeptComponents) -> bool
        ensures { result ≡ stands_for kept.now fund.now components.now self.now }
    {
        let below = self.order.size();
        self.is_number(below, kept.number, fund)
            && self.are_numbers(below, &kept.components, components)
    }

    /// These are the numbers of the components, in their order, and below that one.
    fn are_numbers(&self, below: usize, numbers: &[u32], components: &[(Name, i64)]) -> bool
        requires { below ≤ length self.now.names }
        ensures { result ≡ are_numbers below numbers.now components.now self.now }
    {
        if numbers.len() != components.len() {
            return false;
        }
        for k in 0..numbers.len() {
            if !self.is_number(below, numbers[k], &components[k].0) {
                return false;
            }
        }
        true
    }

    /// This is the number of the name, and below that one.
    fn is_number(&self, below: usize, number: u32, name: &Name) -> bool
        requires { below ≤ length self.now.names }
        ensures { result ≡ is_number below number name.now self.now }
    {
        let place = number as usize;
        place < below && self.names.as_slice()[place] == *name
    }

    /// The number of a name: the next one, where it was not entered.
    fn number(&self, name: &Name) -> u32
        ensures { result ≡ number_in self.now.names name.now }
    {
        match self.names.get_index_of(name) {
            Some(place) => place as u32,
            None => self.names.len() as u32,
        }
    }

    /// The numbers of those components that were entered or are the fund itself.
    fn numbers(
        &self,
        alloc: Global,
        fund: &Name,
        components: &[(Name, i64)],
    ) -> Result<Vec<u32>, NoMemory>
        ensures { IfOk result (λ numbers. numbers.items
            ≡ map (λ c. number_in self.now.names c.0) (known_among fund.now components.now self.now)) }
    {
        let mut numbers = Vec::with_capacity(alloc, components.len())?;
        for (name, _) in components {
            if let Some(number) = self.known_number(fund, name) {
                numbers.push(number)?;
            }
        }
        Ok(numbers)
    }

    /// The number of a name that was entered or is the fund's.
    fn known_number(&self, fund: &Name, name: &Name) -> Option<u32>
        ensures { result ≡ (if is_known fund.now self.now name.now
            then Some (number_in self.now.names name.now) else None) }
    {
        match self.names.get_index_of(name) {
            Some(place) => Some(place as u32),
            None if *name == *fund => Some(self.names.len() as u32),
            None => None,
        }
    }

    /// The names that have these numbers: that of the fund at the next one.
    fn names(&self, alloc: Global, fund: &Name, numbers: &[u32]) -> Result<Vec<Name>, NoMemory>
        ensures { IfOk result (λ names. names.items
            ≡ map (λ k. slice_index_or self.now.names k fund.now) numbers.now) }
    {
        let mut names = Vec::with_capacity(alloc, numbers.len())?;
        for number in numbers {
            names.push(self.name(fund, *number))?;
        }
        Ok(names)
    }

    /// The name of a number: the fund's, where no name has it.
    fn name(&self, fund: &Name, number: u32) -> Name
        ensures { result ≡ slice_index_or self.now.names number fund.now }
    {
        let place = number as usize;
        if place < self.names.len() {
            self.names.as_slice()[place]
        } else {
            *fund
        }
    }
}
