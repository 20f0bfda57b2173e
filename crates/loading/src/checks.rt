ghost use Rattle.std.specs.Prelude.{IfOk, MatchBool};
ghost use Rattle.loading.specs.Loads.{Settles};

use crate::copies::copies_of;
use circuits::check_circuits;
use kinds::Kind;
use links::{Counts, Link};
use std::alloc::{AllocError, Global};

// Whether every circuit of a net has a gain of at most one. A question and no error passed on:
// the check's own fault tells of transitions, the text's of none.
pub(crate) fn passes<T: Kind>(
    heap: Global,
    counts: Counts,
    links: &[Link<T>],
) -> Result<bool, AllocError>
    ensures { IfOk result (λ b. MatchBool b (Settles T.Kind.ops counts links.now) (Settles T.Kind.ops counts links.now → ⊥)) }
{
    let mut cells = copies_of(heap, 8192, T::bottom())?;
    let mut list = [0u8; 64];
    let checked = check_circuits(
        links,
        usize::from(counts.transitions),
        cells.as_mut_slice(),
        &mut list,
    );
    Ok(checked.is_ok())
}
