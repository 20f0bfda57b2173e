ghost use Rattle.std.specs.Prelude.{◌≡◌, Ok, Err, MatchOption};
ghost use Rattle.kinds.specs.declared.refusals.Refusal.{Refusal as Why};
ghost use Rattle.phrases.specs.declared.lanes.Returned.{Returned as Back};
ghost use Rattle.phrases.specs.Promises.{Stays, OrderTaken, OrderFired, OrderMissed};
ghost use Rattle.phrases.specs.Events.{acts, MissesNext, FiresNext, MissNextCells, FireNextCells, Follows};

use crate::lanes::{Order, Returned};
use crate::states::Playing;
use crate::states::run::spend;
use kinds::Kind;
use plants::Plant;
use runs::{Act, Answer, Call};

// The calls that an event comes to, with their answers, the oldest first.
// An enum: three acts at most, and no heap is used here; a list without one would need a crate
// more.
#[derive(Clone, Copy, PartialEq, Eq, Debug)]
pub enum Happened<T> {
    One(Act<T>),
    Two(Act<T>, Act<T>),
    Three(Act<T>, Act<T>, Act<T>),
}

impl<P: Plant> Playing<P> {
    // Takes an order: the act that this comes to, and the order if it is handed out.
    pub(crate) fn take_order(
        &mut self,
        sheet: &[P::Value],
        input: usize,
    ) -> (Act<P::Value>, Option<Order>)
        ensures { MatchOption result.1 ((e : Why) × OrderTaken P.Value.Kind.ops P.Plant.meaning P.Plant.need self.old.phrase self.new.phrase input sheet.now (Err e) result.0) (λ order. OrderTaken P.Value.Kind.ops P.Plant.meaning P.Plant.need self.old.phrase self.new.phrase input sheet.now (Ok order) result.0) }
    {
        let call = Call::Order { input };
        match self.phrase.order(sheet, input) {
            Ok(handed) => {
                let (order, found) = handed;
                let beat = order.beat;
                let answer = Answer::Ordered { beat, found };
                (Act { call, answer }, Some(order))
            }
            Err(why) => {
                let answer = Answer::Refused { why };
                (Act { call, answer }, None)
            }
        }
    }

    // Fires an order: the act that this comes to, and the order if it is handed back.
    fn fire_order(
        &mut self,
        sheet: &mut [P::Value],
        order: Order,
        value: P::Value,
    ) -> (Act<P::Value>, Option<Order>)
        ensures { MatchOption result.1 (OrderFired P.Value.Kind.ops P.Plant.meaning P.Plant.need self.old.phrase self.new.phrase order value sheet.old sheet.new (Ok tt) result.0) (λ back. (e : Back) × ((back ≡ e.order) × OrderFired P.Value.Kind.ops P.Plant.meaning P.Plant.need self.old.phrase self.new.phrase order value sheet.old sheet.new (Err e) result.0)) }
    {
        let (input, beat) = (order.input, order.beat);
        let call = Call::Fire { input, beat, value };
        match self.fire(sheet, order, value) {
            Ok(()) => {
                let answer = Answer::Done;
                (Act { call, answer }, None)
            }
            Err(
                Returned {
                    order,
                    refusal: why,
                },
            ) => {
                let answer = Answer::Refused { why };
                (Act { call, answer }, Some(order))
            }
        }
    }

    // Misses an order: the act that this comes to.
    fn miss_order(&mut self, sheet: &mut [P::Value], order: Order) -> Act<P::Value>
        ensures { OrderMissed P.Value.Kind.ops P.Plant.meaning P.Plant.need self.old.phrase self.new.phrase order sheet.old sheet.new result }
    {
        let (input, beat) = (order.input, order.beat);
        let answer = spend(self.miss(sheet, order));
        Act {
            call: Call::Miss { input, beat },
            answer,
        }
    }

    // Takes the next order of an input and misses it.
    pub fn miss_next(&mut self, sheet: &mut [P::Value], input: usize) -> Happened<P::Value>
        ensures calls { MissesNext input (acts result) }
        ensures cells { MissNextCells P.Value.Kind.ops P.Plant.meaning P.Plant.need self.old.phrase self.new.phrase input sheet.old sheet.new (acts result) }
        ensures same { Stays self.old.phrase self.new.phrase }
        ensures law { Follows P.Value.Kind.ops P.Plant.meaning P.Plant.need self.old.phrase self.new.phrase (acts result) sheet.old sheet.new }
    {
        let (ordered, order) = self.take_order(sheet, input);
        match order {
            None => Happened::One(ordered),
            Some(order) => Happened::Two(ordered, self.miss_order(sheet, order)),
        }
    }

    // Takes the next order of an input and fires it, or misses it if that is refused.
    pub fn fire_next(
        &mut self,
        sheet: &mut [P::Value],
        input: usize,
        value: P::Value,
    ) -> Happened<P::Value>
        ensures calls { FiresNext input value (acts result) }
        ensures cells { FireNextCells P.Value.Kind.ops P.Plant.meaning P.Plant.need self.old.phrase self.new.phrase input value sheet.old sheet.new (acts result) }
        ensures same { Stays self.old.phrase self.new.phrase }
        ensures law { Follows P.Value.Kind.ops P.Plant.meaning P.Plant.need self.old.phrase self.new.phrase (acts result) sheet.old sheet.new }
    {
        let (ordered, order) = self.take_order(sheet, input);
        let Some(order) = order else {
            return Happened::One(ordered);
        };
        let (fired, back) = self.fire_order(sheet, order, value);
        match back {
            None => Happened::Two(ordered, fired),
            Some(order) => Happened::Three(ordered, fired, self.miss_order(sheet, order)),
        }
    }
}
