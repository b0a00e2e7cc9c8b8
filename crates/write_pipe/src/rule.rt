ghost use Rattle.std.specs.Prelude.{◌≡◌, ◌∷◌, ◌++◌, []};

use crate::filled::Filled;
use crossbeam_queue::protocol::{Lesson, Outcome, Protocol, Split};
use crossbeam_queue::{Pass, RuledArrayQueue};
use page_cell::Plant;
use std::collections::LinkedList;
use std::marker::PhantomData;

/// What a pass may do (push, pop), the plant when the relay was made once it is known, and what the pass has pushed and
/// popped. No value of it is made.
pub(crate) struct Log<P> {
    pub(crate) pushes: bool,
    pub(crate) pops: bool,
    pub(crate) from: Option<P>,
    pub(crate) sent: LinkedList<Filled<P>>,
    pub(crate) got: LinkedList<Filled<P>>,
}

/// The rule of the queue: what came out and then what it holds is what went in.
pub(crate) struct InOrder<P> {
    plant: PhantomData<P>,
}

impl<P: Plant> Protocol<Filled<P>, Log<P>> for InOrder<P> {
    ghost use Rattle.std.specs.Prelude.{true, None, []};
    ghost use Rattle.write_pipe.specs.Rule.{log, Relayed};

    ghost holds = { Relayed P.total P.stands };

    ghost first = { log true true None [] [] };
}

/// One pass pushes and another pops.
pub(crate) struct Roles;

impl<P> Split<Log<P>> for Roles {
    ghost use Rattle.std.specs.Prelude.{true, false, []};
    ghost use Rattle.write_pipe.specs.Rule.{log};

    ghost left = { λ v. log true false v.from v.sent [] };

    ghost right = { λ v. log false true v.from [] v.got };
}

/// A buffer went in behind the others.
pub(crate) struct Sent;

impl<P> Outcome<Filled<P>, Log<P>> for Sent {
    ghost use Rattle.write_pipe.specs.Rule.{IsSent};

    ghost then = { IsSent };
}

impl<P> Lesson<Filled<P>, Log<P>> for Sent {
    ghost use Rattle.write_pipe.specs.Rule.{Nothing};

    ghost fact = { Nothing };
}

/// A buffer came out behind those that had come out.
pub(crate) struct Got<P> {
    plant: PhantomData<P>,
}

impl<P: Plant> Outcome<Filled<P>, Log<P>> for Got<P> {
    ghost use Rattle.write_pipe.specs.Rule.{IsGot};

    ghost then = { IsGot P.total P.stands };
}

impl<P: Plant> Lesson<Filled<P>, Log<P>> for Got<P> {
    ghost use Rattle.write_pipe.specs.Rule.{Nothing};

    ghost fact = { Nothing };
}

/// The one buffer came out that tells the plant, before any page went in.
pub(crate) struct Opened;

impl<P> Outcome<Filled<P>, Log<P>> for Opened {
    ghost use Rattle.write_pipe.specs.Rule.{IsOpened};

    ghost then = { IsOpened };
}

pub(crate) type Queue<P> = RuledArrayQueue<Filled<P>, Log<P>, InOrder<P>>;

pub(crate) type QueuePass<P> = Pass<Filled<P>, Log<P>>;
