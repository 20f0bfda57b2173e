ghost use Rattle.std.specs.Prelude.{◌≡◌, ◌≤◌, ok_or};
ghost use Rattle.kinds.specs.declared.refusals.Refusal.TheVariants.{Range};
ghost use Rattle.kinds.specs.Dates.{date_ops, at, tick, new_tick};
ghost use Rattle.kinds.specs.DateLaws.{date_laws};

use crate::dates::{Date, Tick};
use crate::{Kind, Refusal};

// The one place that makes a tick, so that one proof ties it to its number.
fn tick_of(value: u32) -> Tick
    requires { value ≤ 1000000 }
    ensures { result ≡ tick value }
{
    Tick { value }
}

// The tick of a number of milliseconds, if it is in range.
impl TryFrom<u32> for Tick {
    type Error = Refusal;

    ghost try_from_gives = { λ n r. r ≡ ok_or (new_tick n) Range };

    fn try_from(value: u32) -> Result<Tick, Refusal> {
        if value <= 1_000_000 {
            Ok(tick_of(value))
        } else {
            Err(Refusal::Range)
        }
    }
}

impl Kind for Date {
    ghost ops = { date_ops };

    ghost laws = { date_laws };

    fn bottom() -> Date {
        Date::Never
    }

    fn one() -> Date {
        Date::At(tick_of(0))
    }

    fn top() -> Date {
        Date::Open
    }

    // A match, not the derived `max` and `min`, which compare by an `Option` of an order: join and
    // product are most of what a check does, meet and residual of what a due does.
    fn join(self, other: Date) -> Date {
        match (self, other) {
            (Date::Never, later) | (later, Date::Never) => later,
            (Date::At(s), Date::At(t)) => if s.value <= t.value { other } else { self },
            _ => Date::Open,
        }
    }

    fn meet(self, other: Date) -> Date {
        match (self, other) {
            (Date::Open, sooner) | (sooner, Date::Open) => sooner,
            (Date::At(s), Date::At(t)) => if s.value <= t.value { self } else { other },
            _ => Date::Never,
        }
    }

    fn product(self, other: Date) -> Date {
        match (self, other) {
            (Date::Never, _) | (_, Date::Never) => Date::Never,
            (Date::At(s), Date::At(t)) => {
                let sum = s.value + t.value;
                if sum <= 1_000_000 {
                    Date::At(tick_of(sum))
                } else {
                    Date::Open
                }
            }
            _ => Date::Open,
        }
    }

    fn residual(self, other: Date) -> Date {
        match (self, other) {
            (Date::Never, _) | (_, Date::Open) => Date::Open,
            (Date::At(s), Date::At(t)) => {
                if t.value < s.value {
                    Date::Never
                } else {
                    Date::At(tick_of(t.value - s.value))
                }
            }
            _ => Date::Never,
        }
    }

    fn at_most(self, other: Date) -> bool {
        self <= other
    }
}
