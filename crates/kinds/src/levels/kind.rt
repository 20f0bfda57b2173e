ghost use Rattle.std.specs.Prelude.{◌≡◌, ◌≤◌, ok_or};
ghost use Rattle.kinds.specs.declared.refusals.Refusal.TheVariants.{Range};
ghost use Rattle.kinds.specs.Levels.{level_ops, level, new_level};
ghost use Rattle.kinds.specs.LevelLaws.{level_laws};

use crate::levels::Level;
use crate::{Kind, Refusal};

// The one place that makes a level, so that one proof ties it to its number.
fn level_of(value: u8) -> Level
    requires { value ≤ 127 }
    ensures { result ≡ level value }
{
    Level { value }
}

// The level of a number, if it is in range.
impl TryFrom<u32> for Level {
    type Error = Refusal;

    ghost try_from_gives = { λ n r. r ≡ ok_or (new_level n) Range };

    fn try_from(value: u32) -> Result<Level, Refusal> {
        if value <= 127 {
            // At most 127, so that no bit is lost.
            Ok(level_of(value as u8))
        } else {
            Err(Refusal::Range)
        }
    }
}

impl Kind for Level {
    ghost ops = { level_ops };

    ghost laws = { level_laws };

    fn bottom() -> Level {
        level_of(0)
    }

    fn one() -> Level {
        level_of(127)
    }

    fn top() -> Level {
        level_of(127)
    }

    fn join(self, other: Level) -> Level {
        self.max(other)
    }

    fn meet(self, other: Level) -> Level {
        self.min(other)
    }

    fn product(self, other: Level) -> Level {
        self.meet(other)
    }

    fn residual(self, other: Level) -> Level {
        if other < self { other } else { level_of(127) }
    }

    fn at_most(self, other: Level) -> bool {
        self <= other
    }
}
