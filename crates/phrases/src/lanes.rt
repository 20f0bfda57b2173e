ghost use Rattle.std.specs.Prelude.{◌≡◌, ◌+◌, ◌<◌, true, set};
ghost use Rattle.phrases.specs.Orders.{lane_at, back};

use kinds::Refusal;

// What an input's lane keeps: how many of its beats are fixed, and whether an order is out.
// A flag beside a count and no Option: beats are fixed with no order out too.
#[derive(Clone, Copy, PartialEq, Eq, Debug)]
pub struct Lane {
    pub(crate) fixed: usize,
    pub(crate) out: bool,
}

// An order for one beat of an input. It can't be let go: it is given back as a firing or a miss.
#[derive(PartialEq, Eq, Debug)]
pub struct Order {
    pub(crate) input: usize,
    pub(crate) beat: usize,
}

// An order that was not taken, and why.
#[derive(PartialEq, Eq, Debug)]
pub struct Returned {
    pub order: Order,
    pub refusal: Refusal,
}

// The lanes of the inputs.
#[derive(Drop)]
pub struct Lanes {
    pub(crate) table: [Lane; 16],
}

impl Order {
    pub fn input(&self) -> usize
        ensures { result ≡ self.now.input }
    {
        self.input
    }

    pub fn beat(&self) -> usize
        ensures { result ≡ self.now.beat }
    {
        self.beat
    }

    pub(crate) fn spend(self) {
        let Order { input: _, beat: _ } = self;
    }
}

impl Returned {
    // Why the order was not taken. The order is spent.
    pub(crate) fn why(self) -> Refusal
        ensures { result ≡ self.refusal }
    {
        let Returned { order, refusal } = self;
        order.spend();
        refusal
    }
}

impl Lanes {
    // Fixes the lowest open beat of an input and hands out its order.
    pub(crate) fn give(&mut self, input: usize) -> Order
        requires { (input < 16) × ((lane_at self.old.table input).fixed < 64) }
        ensures { (result.input ≡ input) × ((result.beat ≡ (lane_at self.old.table input).fixed) × (self.new.table ≡ set self.old.table input (record { fixed = (lane_at self.old.table input).fixed + 1; out = true }))) }
    {
        let lane = &mut self.table[input];
        let beat = lane.fixed;
        lane.fixed += 1;
        lane.out = true;
        Order { input, beat }
    }

    pub(crate) fn take_back(&mut self, order: Order)
        requires { order.input < 16 }
        ensures { self.new.table ≡ back self.old.table order }
    {
        let Order { input, beat: _ } = order;
        self.table[input].out = false;
    }
}
