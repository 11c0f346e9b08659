//! The kinds of atomic step, and what each tells the pass that takes it.

ghost use Rattle.std.specs.Prelude.{◌≡◌, List, [], ◌∷◌};
ghost use Rattle.story_lock.specs.Rule.{draws, looks, commits, passes, settles, fewer, newcomer, met, spent};
ghost use Rattle.story_lock.specs.Counts.{greatest};

use crate::chronicle::Chronicle;
use crate::view::View;
use atomic_table::{Join, Play, Split};
use std::marker::{Brand, PhantomData};

/// A compare_exchange on the next ticket: the pass has the number where it succeeds.
pub(crate) struct Draw;

impl<S, E, A> Play<Option<S>, View<S, E, A>> for Draw {
    ghost then = { draws };
}

/// A load of the ticket that is served: where it is its own, the pass has the state and has seen the whole history.
pub(crate) struct Look;

impl<S: Chronicle> Play<Option<S>, View<S, S::Event, S::Said>> for Look {
    ghost then = { looks S.represents S.keyed };
}

/// A load of the ticket that is served, which is its own: the entry joins the history.
pub(crate) struct Commit<J> {
    marker: PhantomData<J>,
}

impl<S, E, A, J: Appended<E, A>> Play<Option<S>, View<S, E, A>> for Commit<J> {
    ghost then = { commits J.appended };
}

/// The entries that a commit adds. The call picks them, since a `Play` has no parameter of its own.
pub trait Appended<E, A> {
    // One entry, where a story calls it.
    ghost appended: { List (E × A) };
}

impl<E, A> Appended<E, A> for Brand {
    ghost appended = { [] };
}

/// A fetch_add on the ticket that is served: the state is home, and the next ticket's turn comes.
pub(crate) struct PassOn;

impl<S, E, A> Play<Option<S>, View<S, E, A>> for PassOn {
    ghost then = { passes };
}

/// A load that changes nothing: what a pass that was joined knows of itself.
pub(crate) struct Settle;

impl<S, E, A> Play<Option<S>, View<S, E, A>> for Settle {
    ghost then = { settles };
}

/// The greatest seat number goes to a new pass.
pub(crate) struct Cut;

impl<S, E, A> Split<View<S, E, A>> for Cut {
    ghost left = { fewer };

    ghost right = { λ v. newcomer v (greatest v.numbers ∷ []) };
}

/// A new pass has no seat number.
pub(crate) struct Watch;

impl<S, E, A> Split<View<S, E, A>> for Watch {
    ghost left = { λ v. v };

    ghost right = { λ v. newcomer v [] };
}

/// Two passes become one.
pub(crate) struct Meet;

impl<S, E, A> Join<View<S, E, A>> for Meet {
    ghost both = { met };

    ghost spent = { spent };
}
