ghost use Rattle.std.specs.Prelude.{◌≤◌};

pub mod calls;

// The number of beats of a phrase, 1 to 64.
#[derive(Clone, Copy, PartialEq, Eq, Debug)]
pub struct Horizon {
    beats: usize,
    ghost ok: { (1 ≤ beats) × (beats ≤ 64) },
}
