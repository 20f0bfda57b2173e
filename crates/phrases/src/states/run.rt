ghost use Rattle.std.specs.Prelude.{◌≡◌, ◌<◌, []};
ghost use Rattle.phrases.specs.Orders.{lane_at, order_out, orders_out};
ghost use Rattle.phrases.specs.Steps.{told_back};
ghost use Rattle.runs.specs.Performed.{played, calls};
ghost use Rattle.phrases.specs.Phases.{Advanced, PlayedFrom, LeftOf, table_of};
ghost use Rattle.phrases.specs.declared.states.phase.Phase.TheVariants.{Written as at_written, Playing as at_playing, Ended as at_ended};

use crate::lanes::{Lanes, Order, Returned};
use crate::states::phase::{Performance, Phase};
use crate::states::{Ended, Playing, Written};
use kinds::Kind;
use plants::Plant;
use runs::{Act, Answer, Call};
use std::array;

// The answer to a call that may hand its order back, which is spent.
pub(crate) fn spend<T: Kind>(r: Result<(), Returned>) -> Answer<T>
    ensures { result ≡ told_back r }
{
    Answer::from(r.map_err(|back| back.why()))
}

// Each stage takes calls of its own, and each call has parts of its own: so matches on it.
fn advance_written<P: Plant>(
    w: Written<P>,
    sheet: &mut [P::Value],
    call: Call<P::Value>,
) -> (Phase<P>, Answer<P::Value>)
    ensures { Advanced P.Value.Kind.ops P.Plant.meaning P.Plant.need (at_written w) call result.0 result.1 sheet.old sheet.new }
{
    match call {
        Call::Lay => {
            let r = w.lay(sheet);
            (Phase::Written(w), Answer::from(r))
        }
        Call::Due {
            output,
            beat,
            value,
        } => {
            let r = w.due(sheet, output, beat, value);
            (Phase::Written(w), Answer::from(r))
        }
        Call::Start => (Phase::Playing(w.start()), Answer::Done),
        _ => (Phase::Written(w), Answer::Untaken),
    }
}

fn advance_playing<P: Plant>(
    mut p: Playing<P>,
    sheet: &mut [P::Value],
    call: Call<P::Value>,
) -> (Phase<P>, Answer<P::Value>)
    ensures { Advanced P.Value.Kind.ops P.Plant.meaning P.Plant.need (at_playing p) call result.0 result.1 sheet.old sheet.new }
{
    match call {
        Call::Due {
            output,
            beat,
            value,
        } => {
            let r = p.due(sheet, output, beat, value);
            (Phase::Playing(p), Answer::from(r))
        }
        Call::Order { input } => {
            let (act, order) = p.take_order(sheet, input);
            if let Some(order) = order {
                order.spend();
            }
            (Phase::Playing(p), act.answer)
        }
        Call::Fire { input, beat, value } => {
            let r = p.fire(sheet, Order { input, beat }, value);
            (Phase::Playing(p), spend(r))
        }
        Call::Miss { input, beat } => {
            let r = p.miss(sheet, Order { input, beat });
            (Phase::Playing(p), spend(r))
        }
        Call::Strikes => {
            let r = p.strikes(sheet);
            (Phase::Playing(p), Answer::from(r))
        }
        Call::End => (Phase::Ended(p.end()), Answer::Done),
        _ => (Phase::Playing(p), Answer::Untaken),
    }
}

fn advance_ended<P: Plant>(
    mut e: Ended<P>,
    sheet: &mut [P::Value],
    call: Call<P::Value>,
) -> (Phase<P>, Answer<P::Value>)
    ensures { Advanced P.Value.Kind.ops P.Plant.meaning P.Plant.need (at_ended e) call result.0 result.1 sheet.old sheet.new }
{
    match call {
        Call::Miss { input, beat } => {
            let r = e.miss(sheet, Order { input, beat });
            (Phase::Ended(e), spend(r))
        }
        Call::Strikes => {
            let r = e.strikes(sheet);
            (Phase::Ended(e), Answer::from(r))
        }
        _ => (Phase::Ended(e), Answer::Untaken),
    }
}

fn advance<P: Plant>(
    phase: Phase<P>,
    sheet: &mut [P::Value],
    call: Call<P::Value>,
) -> (Phase<P>, Answer<P::Value>)
    ensures { Advanced P.Value.Kind.ops P.Plant.meaning P.Plant.need phase call result.0 result.1 sheet.old sheet.new }
{
    match phase {
        Phase::Written(w) => advance_written(w, sheet, call),
        Phase::Playing(p) => advance_playing(p, sheet, call),
        Phase::Ended(e) => advance_ended(e, sheet, call),
    }
}

// The calls one after the other, with their answers filled in.
fn play_on<P: Plant>(
    phrase: Written<P>,
    sheet: &mut [P::Value],
    acts: &mut [Act<P::Value>],
) -> Phase<P>
    ensures run { PlayedFrom P.Value.Kind.ops P.Plant.meaning P.Plant.need (at_written phrase) result acts.new sheet.old sheet.new }
    ensures law { LeftOf P.Value.Kind.ops P.Plant.meaning P.Plant.need (at_written phrase) result (played acts.new []) sheet.new }
    ensures asked { calls acts.new ≡ calls acts.old }
{
    let mut phase = Phase::Written(phrase);
    for act in acts.iter_mut() {
        let (next, answer) = advance(phase, sheet, act.call);
        act.answer = answer;
        phase = next;
    }
    phase
}

// The order of a lane that is out.
fn held(lanes: &Lanes, input: usize) -> Option<Order>
    requires { input < 16 }
    ensures { result ≡ order_out (lane_at lanes.now.table input) input }
{
    let lane = lanes.table[input];
    if lane.out {
        return Some(Order {
            input,
            beat: lane.fixed.saturating_sub(1),
        });
    }
    None
}

// Hands out the orders that are out, with the phrase.
fn close<P: Plant>(phase: Phase<P>) -> Performance<P>
    ensures { (result.phase ≡ phase) × (result.orders ≡ orders_out (table_of phase)) }
{
    let lanes = &phase.phrase().lanes;
    let orders = array::from_fn(|input| held(lanes, input));
    Performance { phase, orders }
}

// Makes the calls one after the other, fills in their answers, and hands out the orders that
// are still out.
pub fn perform<P: Plant>(
    phrase: Written<P>,
    sheet: &mut [P::Value],
    acts: &mut [Act<P::Value>],
) -> Performance<P>
    ensures run { PlayedFrom P.Value.Kind.ops P.Plant.meaning P.Plant.need (at_written phrase) result.phase acts.new sheet.old sheet.new }
    ensures law { LeftOf P.Value.Kind.ops P.Plant.meaning P.Plant.need (at_written phrase) result.phase (played acts.new []) sheet.new }
    ensures asked { calls acts.new ≡ calls acts.old }
    ensures orders { result.orders ≡ orders_out (table_of result.phase) }
{
    close(play_on(phrase, sheet, acts))
}
