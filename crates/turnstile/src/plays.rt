//! What each step on a word tells the seat that makes it.
ghost use Rattle.turnstile.specs.Steps.{took, looked, counted, published, passed, heard};

use crate::chronicle::Chronicle;
use crate::view::View;
use atomic_table::{Join, Play, Split};
use std::marker::{Brand, PhantomData};

/// Taking a ticket.
pub(crate) struct Take;

impl<T: Chronicle> Play<Option<T>, View<T::Entry>> for Take {
    ghost then = { took };
}

/// Looking at the ticket that is served.
pub(crate) struct Look;

impl<T: Chronicle> Play<Option<T>, View<T::Entry>> for Look {
    ghost then = { looked T.history T.kept };
}

/// Looking at the length of the history.
pub(crate) struct Count;

impl<T: Chronicle> Play<Option<T>, View<T::Entry>> for Count {
    ghost then = { counted };
}

/// A history, which a caller picks.
pub trait Told<E> {
    ghost use Rattle.std.specs.Prelude.{List};

    ghost log: { List E };
}

impl<E> Told<E> for Brand {
    ghost use Rattle.std.specs.Prelude.{[]};

    ghost log = { [] };
}

/// Publishing the history `L`.
pub(crate) struct Publish<L> {
    log: PhantomData<L>,
}

impl<T: Chronicle, L: Told<T::Entry>> Play<Option<T>, View<T::Entry>> for Publish<L> {
    ghost then = { published L.log };
}

/// Passing the turn on.
pub(crate) struct PassOn;

impl<T: Chronicle> Play<Option<T>, View<T::Entry>> for PassOn {
    ghost then = { passed };
}

/// A look after two seats were joined.
pub(crate) struct Hear;

impl<T: Chronicle> Play<Option<T>, View<T::Entry>> for Hear {
    ghost then = { heard };
}

/// How a seat is split, and how two are joined.
pub(crate) struct Shares;

impl<E> Split<View<E>> for Shares {
    ghost use Rattle.turnstile.specs.Views.{one_less, one_more};

    ghost left = { one_less };

    ghost right = { one_more };
}

impl<E> Join<View<E>> for Shares {
    ghost use Rattle.turnstile.specs.Views.{hearing, spent};

    ghost both = { hearing };

    ghost spent = { spent };
}
