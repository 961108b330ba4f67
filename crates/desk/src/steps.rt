// What each step tells the seat that makes it.

ghost use Rattle.std.specs.Prelude.{ℕ};
ghost use Rattle.desk.specs.inner.Steps.{CatchUpTells, DrawTells, LookTells, PublishTells};
ghost use Rattle.desk.specs.Views.{after_split, split_view, after_join};
ghost use Rattle.desk.specs.inner.Passes.{spent_view};

use crate::journaled::Journaled;
use crate::view::View;
use atomic_table::{Join, Play, Split};
use std::marker::{Brand, PhantomData};

/// A ticket is drawn.
pub struct Draw;

impl<V: Journaled> Play<Option<V>, View<V::Setup, V::Entry>> for Draw {
    ghost then = { DrawTells };
}

/// The serving word is looked at while a ticket is out.
pub struct Look;

impl<V: Journaled> Play<Option<V>, View<V::Setup, V::Entry>> for Look {
    ghost then = { LookTells V.who V.setup V.journal };
}

/// The turn is given up, with one entry or none.
pub struct Publish;

impl<V: Journaled> Play<Option<V>, View<V::Setup, V::Entry>> for Publish {
    ghost then = { PublishTells V.journal };
}

/// The serving word is looked at after a join.
pub struct CatchUp;

impl<V: Journaled> Play<Option<V>, View<V::Setup, V::Entry>> for CatchUp {
    ghost then = { CatchUpTells };
}

/// The connection that a pass is split for. Each call picks it.
pub trait Connection {
    ghost who: { ℕ };
}

impl Connection for Brand {
    ghost who = { 0 };
}

/// A pass is split from the first.
pub struct SplitFor<N> {
    marker: PhantomData<N>,
}

impl<S, E, N: Connection> Split<View<S, E>> for SplitFor<N> {
    ghost left = { after_split N.who };

    ghost right = { split_view N.who };
}

/// A pass is joined into the first.
pub struct JoinInto;

impl<S, E> Join<View<S, E>> for JoinInto {
    ghost both = { after_join };

    ghost spent = { spent_view };
}
