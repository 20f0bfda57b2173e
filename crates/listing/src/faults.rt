ghost use Rattle.std.specs.Prelude.{◌≡◌, IfOk};
ghost use Rattle.listing.specs.FaultRows.{fault_row};

use std::alloc::{AllocError, Global};
use texts::Fault;

// The printed line of a fault, with its end.
pub fn refused(heap: Global, fault: Fault) -> Result<Vec<u8>, AllocError>
    ensures { IfOk result (λ v. v.items ≡ fault_row fault) }
{
    let row = format!(in heap; "{fault}\n")?;
    Ok(row.into_bytes())
}
