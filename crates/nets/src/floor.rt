ghost use Rattle.std.specs.Prelude.{length};
ghost use Rattle.nets.specs.Stages.{Laid};

use crate::stage::Stage;
use links::Link;

// The links of a net, a turn of a call on it, and the sheet.
#[derive(Drop)]
pub(crate) struct Floor<'a, T> {
    pub(crate) links: &'a [Link<T>],
    pub(crate) stage: Stage,
    pub(crate) sheet: &'a mut [T],
    ghost laid: { Laid stage (length sheet.now) },
}
