ghost use Rattle.std.specs.Prelude.{◌≡◌};
ghost use Rattle.printing.specs.ActLines.{spot, call_line, order_line, act_line};

use kinds::{Kind, Refusal};
use listing::{CardLine, Event, Spot};
use runs::{Act, Answer, Call};

fn spot_of<T: Kind>(beat: usize, value: T) -> Option<Spot<T>>
    ensures { result ≡ spot beat value }
{
    Some(Spot { beat, value })
}

// The line of a call that was done or refused. A match: each call has parts of its own.
fn call_line<T: Kind>(call: Call<T>, answer: Result<(), Refusal>) -> Option<CardLine<T>>
    ensures { result ≡ call_line T.Kind.ops.bottom call answer }
{
    let (event, wire, spot) = match call {
        Call::Due {
            output,
            beat,
            value,
        } => (Event::Due, output, spot_of(beat, value)),
        Call::Order { input } => (Event::Order, input, None),
        Call::Fire { input, beat, value } => (Event::Fire, input, spot_of(beat, value)),
        Call::Miss { input, beat } => (Event::Miss, input, spot_of(beat, T::bottom())),
        Call::Lay | Call::Start | Call::Strikes | Call::End => return None,
    };
    Some(CardLine::Answered {
        event,
        wire,
        spot,
        answer,
    })
}

// The line of an order that was handed out.
fn order_line<T: Kind>(call: Call<T>, beat: usize, found: T) -> Option<CardLine<T>>
    ensures { result ≡ order_line call beat found }
{
    match call {
        Call::Order { input } => Some(CardLine::Answered {
            event: Event::Order,
            wire: input,
            spot: spot_of(beat, found),
            answer: Ok(()),
        }),
        _ => None,
    }
}

// The line of a call with its answer; none for a call that a card does not list.
pub fn act_line<T: Kind>(act: Act<T>) -> Option<CardLine<T>>
    ensures { result ≡ act_line T.Kind.ops.bottom act }
{
    match act.answer {
        Answer::Done => call_line(act.call, Ok(())),
        Answer::Ordered { beat, found } => order_line(act.call, beat, found),
        Answer::Refused { why } => call_line(act.call, Err(why)),
        Answer::Untaken => None,
    }
}
