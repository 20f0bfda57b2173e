ghost use Rattle.std.specs.Prelude.{◌≡◌, IfOk};
ghost use Rattle.loading.specs.Copies.{copies};

use std::alloc::{AllocError, Global};

// So many copies of a value.
pub fn copies_of<L: Copy>(heap: Global, count: usize, value: L) -> Result<Vec<L>, AllocError>
    ensures { IfOk result (λ v. v.items ≡ copies count value) }
{
    let mut all = Vec::new(heap);
    all.resize(count, value)?;
    Ok(all)
}
