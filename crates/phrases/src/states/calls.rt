ghost use Rattle.std.specs.Prelude.{◌≡◌, ◌<◌, false, List, [], replicate};
ghost use Rattle.phrases.specs.Orders.{idle, ordered};
ghost use Rattle.phrases.specs.Promises.{Stays, LayCells, StrikesCells, DueCells, OrderAnswer, FireCells, MissCells, Law, OrderLaw};
ghost use Rattle.runs.specs.History.{written, playing, ended};
ghost use Rattle.phrases.specs.Steps.{Left, lay_act, due_act, strikes_act, fire_act, miss_act, start_act, end_act};

use crate::lanes::{Lane, Lanes, Order, Returned};
use crate::states::{Ended, Phrase, Playing, Written};
use kinds::{Kind, Refusal};
use plants::{Horizon, Plant};

// A phrase over a plant, with no beat fixed and no order out.
pub fn write<P: Plant>(plant: P, horizon: Horizon) -> Written<P>
    ensures holds { (result.phrase.plant ≡ plant) × (result.phrase.horizon ≡ horizon) }
    ensures fresh { result.phrase.lanes.table ≡ replicate 16 idle }
    ensures law { (s : List (P.Value)) → Left P.Value.Kind.ops (P.Plant.meaning plant) horizon.beats (P.Plant.need plant horizon.beats) written [] result.phrase.lanes.table s }
{
    let lane = Lane {
        fixed: 0,
        out: false,
    };
    Written {
        phrase: Phrase {
            plant,
            horizon,
            lanes: Lanes { table: [lane; 16] },
        },
    }
}

impl<P: Plant> Written<P> {
    // Sets score and plan to top and the strikes to bottom. Refused with 8.
    pub fn lay(&self, sheet: &mut [P::Value]) -> Result<(), Refusal>
        ensures cells { LayCells P.Value.Kind.ops P.Plant.meaning P.Plant.need self.now.phrase sheet.old sheet.new result }
        ensures law { Law P.Value.Kind.ops P.Plant.meaning P.Plant.need written written self.now.phrase self.now.phrase (lay_act result) sheet.old sheet.new }
    {
        self.phrase.lay(sheet)
    }

    // Changes one cell of the score and plans anew: the open cells of the plan become the
    // ceiling. Refused with 8, 7, or 20 where no plan is left; then score and plan stay.
    pub fn due(
        &self,
        sheet: &mut [P::Value],
        output: usize,
        beat: usize,
        value: P::Value,
    ) -> Result<(), Refusal>
        ensures cells { DueCells P.Value.Kind.ops P.Plant.meaning P.Plant.need self.now.phrase output beat value sheet.old sheet.new result }
        ensures law { Law P.Value.Kind.ops P.Plant.meaning P.Plant.need written written self.now.phrase self.now.phrase (due_act output beat value result) sheet.old sheet.new }
    {
        self.phrase.due(sheet, output, beat, value)
    }

    // From now on orders are taken, and no lay.
    pub fn start(self) -> Playing<P>
        ensures same { result.phrase ≡ self.phrase }
        ensures law { (s : List (P.Value)) → Law P.Value.Kind.ops P.Plant.meaning P.Plant.need written playing self.phrase result.phrase start_act s s }
    {
        let Written { phrase } = self;
        Playing { phrase }
    }
}

impl<P: Plant> Playing<P> {
    // Changes one cell of the score and plans anew: the fixed cells of the plan stay, the open
    // ones become the ceiling. Refused with 8, 7, or 20 where no plan is left; then score and
    // plan stay.
    pub fn due(
        &self,
        sheet: &mut [P::Value],
        output: usize,
        beat: usize,
        value: P::Value,
    ) -> Result<(), Refusal>
        ensures cells { DueCells P.Value.Kind.ops P.Plant.meaning P.Plant.need self.now.phrase output beat value sheet.old sheet.new result }
        ensures law { Law P.Value.Kind.ops P.Plant.meaning P.Plant.need playing playing self.now.phrase self.now.phrase (due_act output beat value result) sheet.old sheet.new }
    {
        self.phrase.due(sheet, output, beat, value)
    }

    // Fixes the lowest open beat of an input at what the plan has there, and hands out its
    // order. Refused with 8, 7, 21, 22.
    pub fn order(&mut self, sheet: &[P::Value], input: usize) -> Result<Order, Refusal>
        ensures answer { OrderAnswer P.Value.Kind.ops P.Plant.meaning P.Plant.need self.old.phrase input sheet.now result }
        ensures lanes { self.new.phrase.lanes.table ≡ ordered self.old.phrase.lanes.table result }
        ensures same { Stays self.old.phrase self.new.phrase }
        ensures law { OrderLaw P.Value.Kind.ops P.Plant.meaning P.Plant.need playing self.old.phrase self.new.phrase input sheet.now result }
    {
        let (order, _) = self.phrase.order(sheet, input)?;
        Ok(order)
    }

    // Gives an order back with a value at most the ordered cell, which takes it. Refused with
    // 8, 24, 23; then the order is handed back.
    pub fn fire(
        &mut self,
        sheet: &mut [P::Value],
        order: Order,
        value: P::Value,
    ) -> Result<(), Returned>
        ensures cells { FireCells P.Value.Kind.ops P.Plant.meaning P.Plant.need self.old.phrase self.new.phrase order value sheet.old sheet.new result }
        ensures same { Stays self.old.phrase self.new.phrase }
        ensures law { Law P.Value.Kind.ops P.Plant.meaning P.Plant.need playing playing self.old.phrase self.new.phrase (fire_act order value result) sheet.old sheet.new }
    {
        self.phrase.fire(sheet, order, value)
    }

    // Gives an order back unfired: its cell becomes bottom. Refused with 8, 24; then the order
    // is handed back.
    pub fn miss(&mut self, sheet: &mut [P::Value], order: Order) -> Result<(), Returned>
        ensures cells { MissCells P.Value.Kind.ops P.Plant.meaning P.Plant.need self.old.phrase self.new.phrase order sheet.old sheet.new result }
        ensures same { Stays self.old.phrase self.new.phrase }
        ensures law { Law P.Value.Kind.ops P.Plant.meaning P.Plant.need playing playing self.old.phrase self.new.phrase (miss_act order result) sheet.old sheet.new }
    {
        self.phrase.miss(sheet, order)
    }

    // Writes the forward answer to the plan into the strikes. Refused with 8.
    pub fn strikes(&self, sheet: &mut [P::Value]) -> Result<(), Refusal>
        ensures cells { StrikesCells P.Value.Kind.ops P.Plant.meaning P.Plant.need self.now.phrase sheet.old sheet.new result }
        ensures law { Law P.Value.Kind.ops P.Plant.meaning P.Plant.need playing playing self.now.phrase self.now.phrase (strikes_act result) sheet.old sheet.new }
    {
        self.phrase.strikes(sheet)
    }

    // From now on only misses are taken, and strikes.
    pub fn end(self) -> Ended<P>
        ensures same { result.phrase ≡ self.phrase }
        ensures law { (s : List (P.Value)) → Law P.Value.Kind.ops P.Plant.meaning P.Plant.need playing ended self.phrase result.phrase end_act s s }
    {
        let Playing { phrase } = self;
        Ended { phrase }
    }
}

impl<P: Plant> Ended<P> {
    // Gives an order back unfired, as before the end.
    pub fn miss(&mut self, sheet: &mut [P::Value], order: Order) -> Result<(), Returned>
        ensures cells { MissCells P.Value.Kind.ops P.Plant.meaning P.Plant.need self.old.phrase self.new.phrase order sheet.old sheet.new result }
        ensures same { Stays self.old.phrase self.new.phrase }
        ensures law { Law P.Value.Kind.ops P.Plant.meaning P.Plant.need ended ended self.old.phrase self.new.phrase (miss_act order result) sheet.old sheet.new }
    {
        self.phrase.miss(sheet, order)
    }

    // Writes the forward answer to the plan into the strikes. Refused with 8.
    pub fn strikes(&self, sheet: &mut [P::Value]) -> Result<(), Refusal>
        ensures cells { StrikesCells P.Value.Kind.ops P.Plant.meaning P.Plant.need self.now.phrase sheet.old sheet.new result }
        ensures law { Law P.Value.Kind.ops P.Plant.meaning P.Plant.need ended ended self.now.phrase self.now.phrase (strikes_act result) sheet.old sheet.new }
    {
        self.phrase.strikes(sheet)
    }
}
