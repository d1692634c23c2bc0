//! The rule of the board's table, and what its steps tell. These types are for the proofs alone.
ghost use Rattle.std.specs.Prelude.{ℕ};
ghost use Rattle.scr_board.specs.declared.lists.Round.{Round};
ghost use Rattle.scr_board.specs.Plays.{begun, drew, gave, loaded, wrote};
ghost use Rattle.scr_board.specs.Rule.{Holds};
ghost use Rattle.scr_board.specs.Views.{blank, no_round, view_fresh, view_joined, view_split};

use crate::views::View;
use atomic_table::{Join, Play, Split, TableRule};
use std::marker::{Brand, PhantomData};

/// The rule. A table is told the words that it begins with.
pub struct Rules;

impl TableRule<(), View, Vec<u64>> for Rules {
    ghost holds = { λ _. Holds };

    ghost first = { λ words. blank words.items };
}

/// The round that a board is opened for. The call that opens it picks it.
pub trait Opening {
    ghost round: { Round };

    ghost workers: { ℕ };
}

impl Opening for Brand {
    ghost round = { no_round };

    ghost workers = { 0 };
}

/// Which delivery a step makes. The call that makes it picks it.
pub trait Aim {
    ghost node: { ℕ };

    ghost place: { ℕ };
}

impl Aim for Brand {
    ghost node = { 0 };

    ghost place = { 0 };
}

pub struct First<W> {
    marker: PhantomData<W>,
}

impl<W: Opening> Play<(), View> for First<W> {
    ghost then = { begun W.round W.workers };
}

pub struct Draw;

impl Play<(), View> for Draw {
    ghost then = { drew };
}

pub struct Load;

impl Play<(), View> for Load {
    ghost then = { loaded };
}

pub struct Store;

impl Play<(), View> for Store {
    ghost then = { wrote };
}

pub struct Deliver<W> {
    marker: PhantomData<W>,
}

impl<W: Aim> Play<(), View> for Deliver<W> {
    ghost then = { gave W.node W.place };
}

pub struct Part;

impl Split<View> for Part {
    ghost left = { view_split };

    ghost right = { view_fresh };
}

pub struct Whole;

impl Join<View> for Whole {
    ghost use Rattle.std.specs.Prelude.{[]};

    ghost both = { view_joined };

    ghost spent = { blank [] };
}
