ghost use Rattle.std.specs.Prelude.{◌≡◌};
ghost use Rattle.runs.specs.Told.{told};

use crate::acts::Answer;
use kinds::Refusal;

// The answer to a call that hands nothing out.
impl<T> From<Result<(), Refusal>> for Answer<T> {
    ghost from_gives = { λ r a. a ≡ told r };

    fn from(r: Result<(), Refusal>) -> Answer<T> {
        match r {
            Ok(()) => Answer::Done,
            Err(why) => Answer::Refused { why },
        }
    }
}
