//! What each step on the table tells: on which word it is, with which operands, and what its seat knows after. With
//! specs/Steps these are part of what the calls promise.
ghost use Rattle.bd_driver.specs.Steps.{entered, looked, took, published, put, opened, closed, posted_as, withdrew, collected_as, picked_as, served, answered_as};
ghost use Rattle.bd_driver.specs.Views.{view_of, others_of};
ghost use Rattle.std.specs.Prelude.{[], ◌∷◌, ◌++◌};

use crate::slot::Slot;
use crate::view::View;
use atomic_table::{Join, Play, Split};
use std::collections::LinkedList;

// A new seat that carries no view.
pub(crate) struct Enter;

impl Play<Slot, LinkedList<View>> for Enter {
    ghost then = { entered };
}

pub(crate) struct Look;

impl Play<Slot, LinkedList<View>> for Look {
    ghost then = { looked };
}

pub(crate) struct Take;

impl Play<Slot, LinkedList<View>> for Take {
    ghost then = { took };
}

pub(crate) struct Publish;

impl Play<Slot, LinkedList<View>> for Publish {
    ghost then = { published };
}

pub(crate) struct Put;

impl Play<Slot, LinkedList<View>> for Put {
    ghost then = { put };
}

// A new seat gets the first of several views.
pub(crate) struct Deal;

impl Split<LinkedList<View>> for Deal {
    ghost left = { others_of };

    ghost right = { λ vs. view_of vs ∷ [] };
}

// A seat takes in another's views.
pub(crate) struct Gather;

impl Join<LinkedList<View>> for Gather {
    ghost both = { λ vs ws. ws ++ vs };

    ghost spent = { [] };
}

pub(crate) struct Open;

impl Play<Slot, LinkedList<View>> for Open {
    ghost then = { opened };
}

pub(crate) struct Shut;

impl Play<Slot, LinkedList<View>> for Shut {
    ghost then = { closed };
}

pub(crate) struct Post;

impl Play<Slot, LinkedList<View>> for Post {
    ghost then = { posted_as };
}

pub(crate) struct Withdraw;

impl Play<Slot, LinkedList<View>> for Withdraw {
    ghost then = { withdrew };
}

pub(crate) struct Collect;

impl Play<Slot, LinkedList<View>> for Collect {
    ghost then = { collected_as };
}

pub(crate) struct Pick;

impl Play<Slot, LinkedList<View>> for Pick {
    ghost then = { picked_as };
}

pub(crate) struct PublishFor;

impl Play<Slot, LinkedList<View>> for PublishFor {
    ghost then = { served };
}

pub(crate) struct AnswerPick;

impl Play<Slot, LinkedList<View>> for AnswerPick {
    ghost then = { answered_as };
}
