ghost use Rattle.std.specs.Prelude.{◌≡◌, Decides};
ghost use Rattle.phrases.specs.Orders.{is_out};
ghost use Rattle.phrases.specs.Cells.{plan, spare, Holds};
ghost use Rattle.phrases.specs.Promises.{Stays, fixed_in, BlocksAt, Adopts, LayCells, StrikesCells, ScoreAnswer, DueCells, NextAnswer, FoundAnswer, AimAnswer, FireCells, MissCells};

use crate::cells::all_at_most;
use crate::lanes::{Lane, Lanes, Order, Returned};
use crate::states::Phrase;
use crate::states::blocks::Blocks;
use kinds::{Kind, Refusal};
use plants::{Horizon, Places, Plant, fill};

// What each call does, at whatever stage.
impl<P: Plant> Phrase<P> {
    // Whether every fixed plan cell is at most its cell in the spare block.
    fn holds(&self, sheet: &[P::Value], at: Blocks) -> bool
        requires { BlocksAt P.Value.Kind.ops P.Plant.meaning P.Plant.need self.now at sheet.now }
        ensures { Decides result (Holds P.Value.Kind.ops (P.Plant.meaning self.now.plant) (fixed_in self.now) (plan P.Value.Kind.ops (P.Plant.meaning self.now.plant) self.now.horizon.beats sheet.now) (spare P.Value.Kind.ops (P.Plant.meaning self.now.plant) self.now.horizon.beats sheet.now)) }
    {
        let inputs = self.plant.inputs();
        for (wire, lane) in self.lanes.table[..inputs].iter().enumerate() {
            let plan = at.plan + self.cells(wire);
            let spare = at.spare + self.cells(wire);
            if !all_at_most(
                &sheet[plan..plan + lane.fixed],
                &sheet[spare..spare + lane.fixed],
            ) {
                return false;
            }
        }
        true
    }

    // Copies the open cells of the plan from the spare block.
    fn adopt(&self, sheet: &mut [P::Value], at: Blocks)
        requires { BlocksAt P.Value.Kind.ops P.Plant.meaning P.Plant.need self.now at sheet.old }
        ensures { Adopts P.Value.Kind.ops P.Plant.meaning P.Plant.need self.now sheet.old sheet.new }
    {
        let inputs = self.plant.inputs();
        for (wire, lane) in self.lanes.table[..inputs].iter().enumerate() {
            let open = self.cells(wire) + lane.fixed;
            let end = self.cells(wire) + self.horizon.beats();
            sheet.copy_within(at.spare + open..at.spare + end, at.plan + open);
        }
    }

    pub(crate) fn lay(&self, sheet: &mut [P::Value]) -> Result<(), Refusal>
        ensures { LayCells P.Value.Kind.ops P.Plant.meaning P.Plant.need self.now sheet.old sheet.new result }
    {
        let at = self.blocks(sheet)?;
        fill(sheet, 0, at.strikes, P::Value::top());
        fill(sheet, at.strikes, at.plan, P::Value::bottom());
        Ok(())
    }

    pub(crate) fn strikes(&self, sheet: &mut [P::Value]) -> Result<(), Refusal>
        ensures { StrikesCells P.Value.Kind.ops P.Plant.meaning P.Plant.need self.now sheet.old sheet.new result }
    {
        let at = self.blocks(sheet)?;
        // The blocks lie apart in the sheet, so the plant takes the call.
        let places = Places {
            input: at.plan,
            output: at.strikes,
            working: at.spare,
        };
        let _ = self.plant.forward(self.horizon, sheet, places);
        Ok(())
    }

    // A cell of the score, and where the blocks begin. Refused with 8, 7.
    fn score_cell(
        &self,
        sheet: &[P::Value],
        output: usize,
        beat: usize,
    ) -> Result<(Blocks, usize), Refusal>
        ensures { ScoreAnswer P.Value.Kind.ops P.Plant.meaning P.Plant.need self.now output beat sheet.now result }
    {
        let at = self.blocks(sheet)?;
        if output >= self.plant.outputs() || beat >= self.horizon.beats() {
            return Err(Refusal::Missing);
        }
        Ok((at, self.cells(output) + beat))
    }

    // The ceiling of the changed score goes to the spare block: the plant takes that call too.
    pub(crate) fn due(
        &self,
        sheet: &mut [P::Value],
        output: usize,
        beat: usize,
        value: P::Value,
    ) -> Result<(), Refusal>
        ensures { DueCells P.Value.Kind.ops P.Plant.meaning P.Plant.need self.now output beat value sheet.old sheet.new result }
    {
        let (at, cell) = self.score_cell(sheet, output, beat)?;
        let old = sheet[cell];
        sheet[cell] = value;
        let places = Places {
            input: at.spare,
            output: 0,
            working: at.working,
        };
        let _ = self.plant.backward(self.horizon, sheet, places);
        if !self.holds(sheet, at) {
            sheet[cell] = old;
            return Err(Refusal::NoPlan);
        }
        self.adopt(sheet, at);
        Ok(())
    }

    // The cell of an input's lowest open beat. Refused with 8, 7, 21, 22.
    fn next_cell(&self, sheet: &[P::Value], input: usize) -> Result<usize, Refusal>
        ensures { NextAnswer P.Value.Kind.ops P.Plant.meaning P.Plant.need self.now input sheet.now result }
    {
        let at = self.blocks(sheet)?;
        if input >= self.plant.inputs() {
            return Err(Refusal::Missing);
        }
        let lane = self.lanes.table[input];
        if lane.out {
            return Err(Refusal::OrderOut);
        }
        if lane.fixed >= self.horizon.beats() {
            return Err(Refusal::AllFixed);
        }
        Ok(at.plan + (self.cells(input) + lane.fixed))
    }

    // An order, with the plan value that it found.
    pub(crate) fn order(
        &mut self,
        sheet: &[P::Value],
        input: usize,
    ) -> Result<(Order, P::Value), Refusal>
        ensures answer { FoundAnswer P.Value.Kind.ops P.Plant.meaning P.Plant.need self.old self.new input sheet.now result }
        ensures same { Stays self.old self.new }
    {
        let cell = self.next_cell(sheet, input)?;
        Ok((self.lanes.give(input), sheet[cell]))
    }

    // Whether this order is out here.
    fn is_out(&self, order: &Order) -> bool
        ensures { result ≡ is_out (P.Plant.meaning self.now.plant).inputs self.now.lanes.table order.now }
    {
        if order.input >= self.plant.inputs() {
            return false;
        }
        let lane = self.lanes.table[order.input];
        lane.out && lane.fixed == order.beat.saturating_add(1)
    }

    // The cell that a firing writes. Refused with 8, 24, 23.
    fn aim(&self, sheet: &[P::Value], order: &Order, value: P::Value) -> Result<usize, Refusal>
        ensures { AimAnswer P.Value.Kind.ops P.Plant.meaning P.Plant.need self.now order.now value sheet.now result }
    {
        let at = self.blocks(sheet)?;
        if !self.is_out(order) {
            return Err(Refusal::NoOrder);
        }
        let cell = at.plan + (self.cells(order.input) + order.beat);
        if !value.at_most(sheet[cell]) {
            return Err(Refusal::TooHigh);
        }
        Ok(cell)
    }

    pub(crate) fn fire(
        &mut self,
        sheet: &mut [P::Value],
        order: Order,
        value: P::Value,
    ) -> Result<(), Returned>
        ensures cells { FireCells P.Value.Kind.ops P.Plant.meaning P.Plant.need self.old self.new order value sheet.old sheet.new result }
        ensures same { Stays self.old self.new }
    {
        match self.aim(sheet, &order, value) {
            Ok(cell) => {
                sheet[cell] = value;
                self.lanes.take_back(order);
                Ok(())
            }
            Err(refusal) => Err(Returned { order, refusal }),
        }
    }

    // A miss is a firing of bottom, which is never too high.
    pub(crate) fn miss(&mut self, sheet: &mut [P::Value], order: Order) -> Result<(), Returned>
        ensures cells { MissCells P.Value.Kind.ops P.Plant.meaning P.Plant.need self.old self.new order sheet.old sheet.new result }
        ensures same { Stays self.old self.new }
    {
        self.fire(sheet, order, P::Value::bottom())
    }
}
