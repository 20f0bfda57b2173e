ghost use Rattle.std.specs.Prelude.{◌≡◌, true};
ghost use Rattle.routes.specs.Ways.{none, both, along, head as head_of, tail as tail_of, into as is_into, out as is_out};
ghost use Rattle.nets.specs.Turns.{Still};

use kinds::Kind;
use links::Link;
use routes::Way;

// The four legs of a turn: from the given block, from earlier turns, within the turn, to
// the block asked for.
// An enum: a closure for each leg would need a contract on what takes part, is read and written.
#[derive(Clone, Copy)]
pub(crate) enum Leg {
    Into,
    Wait,
    Glide,
    Out,
}

// One turn of a call on a net of n transitions. The block of `reads` wires at `given` is
// read, the block of `writes` wires at `asked` is written; the working cells are a row of
// n states for each turn, and a spare row after them.
#[derive(Clone, Copy)]
pub(crate) struct Stage {
    pub(crate) way: Way,
    pub(crate) n: usize,
    pub(crate) beats: usize,
    pub(crate) turn: usize,
    pub(crate) beat: usize,
    pub(crate) given: usize,
    pub(crate) reads: usize,
    pub(crate) asked: usize,
    pub(crate) writes: usize,
    pub(crate) working: usize,
}

// The way stays a value of an enum: the net's definitions and theorems take it as one.
impl Stage {
    // What a cell holds where nothing arrives.
    pub(crate) fn blank<T: Kind>(&self) -> T
        ensures { result ≡ none T.Kind.ops self.now.way }
    {
        match self.way {
            Way::Forth => T::bottom(),
            Way::Back => T::top(),
        }
    }

    // Forth the join of a and the product of value and b, back the meet of a and their residual.
    pub(crate) fn gather<T: Kind>(&self, a: T, value: T, b: T) -> T
        ensures { result ≡ both T.Kind.ops self.now.way a (along T.Kind.ops self.now.way value b) }
    {
        match self.way {
            Way::Forth => a.join(value.product(b)),
            Way::Back => a.meet(value.residual(b)),
        }
    }

    // Whether nothing new has arrived in a cell.
    pub(crate) fn is_still<T: Kind>(&self, now: T, before: T) -> bool
        ensures { result ≡ true → Still T.Kind.ops self.now.way now before }
    {
        match self.way {
            Way::Forth => now.at_most(before),
            Way::Back => before.at_most(now),
        }
    }

    // The end where a link starts.
    pub(crate) fn tail<T>(&self, link: &Link<T>) -> usize
        ensures { result ≡ tail_of self.now.way link.now }
    {
        match self.way {
            Way::Forth => usize::from(link.from),
            Way::Back => usize::from(link.to),
        }
    }

    // The end where it arrives.
    pub(crate) fn head<T>(&self, link: &Link<T>) -> usize
        ensures { result ≡ head_of self.now.way link.now }
    {
        match self.way {
            Way::Forth => usize::from(link.to),
            Way::Back => usize::from(link.from),
        }
    }

    // Whether a link leads from one of the given wires to one of the transitions.
    pub(crate) fn leads_in<T>(&self, link: &Link<T>) -> bool
        ensures { result ≡ is_into self.now.way self.now.n self.now.reads link.now }
    {
        match self.way {
            Way::Forth => link.is_entry(self.n, self.reads),
            Way::Back => link.is_leaving(self.n, self.reads),
        }
    }

    // Whether a link leads from one of the transitions to one of the wires asked for.
    pub(crate) fn leads_out<T>(&self, link: &Link<T>) -> bool
        ensures { result ≡ is_out self.now.way self.now.n self.now.writes link.now }
    {
        match self.way {
            Way::Forth => link.is_leaving(self.n, self.writes),
            Way::Back => link.is_entry(self.n, self.writes),
        }
    }
}
