ghost use Rattle.std.specs.Prelude.{◌≡◌};
ghost use Rattle.loading.specs.declared.errors.LoadError.TheVariants.{Faulty, OutOfMemory};

use std::alloc::AllocError;
use texts::Fault;

// Why no net is loaded: its text is refused, or memory is wanting.
#[derive(Clone, Copy, PartialEq, Eq, Debug)]
pub enum LoadError {
    Faulty(Fault),
    OutOfMemory(AllocError),
}

impl From<Fault> for LoadError {
    ghost from_gives = { λ fault e. e ≡ Faulty fault };

    fn from(fault: Fault) -> LoadError {
        LoadError::Faulty(fault)
    }
}

impl From<AllocError> for LoadError {
    ghost from_gives = { λ want e. e ≡ OutOfMemory want };

    fn from(want: AllocError) -> LoadError {
        LoadError::OutOfMemory(want)
    }
}
