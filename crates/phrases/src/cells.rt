ghost use Rattle.std.specs.Prelude.{◌≡◌, ℕ, ◌<◌, length, slice_index_or, Decides};
ghost use Rattle.kinds.specs.Kind.{AtMost};

use kinds::Kind;

// Whether each cell is at most its cell in another slice of the same length.
pub(crate) fn all_at_most<T: Kind>(low: &[T], high: &[T]) -> bool
    requires { length low.now ≡ length high.now }
    ensures { Decides result ((k : ℕ) (d : T) → k < length low.now → AtMost T.Kind.ops (slice_index_or low.now k d) (slice_index_or high.now k d)) }
{
    low.iter().zip(high).all(|(l, h)| l.at_most(*h))
}
