#![tactic(auto)]

ghost use Rattle.std.specs.Prelude.{◌≡◌, Decides};
ghost use Rattle.kinds.specs.Kind.{Ops, Laws, AtMost};

mod channels;
mod dates;
mod levels;
mod refusals;
mod shown;

pub use channels::Channels;
pub use dates::{Date, Tick};
pub use levels::Level;
pub use refusals::Refusal;

// A value kind. `ops` are its operations and its question; `laws` is every law
// that code above may use, and that each kind proves.
pub trait Kind: Copy {
    ghost ops: { Ops Self };

    // At most every value, and neutral for join.
    fn bottom() -> Self
        ensures { result ≡ ops.bottom };

    // Neutral for product.
    fn one() -> Self
        ensures { result ≡ ops.one };

    fn top() -> Self
        ensures { result ≡ ops.top };

    // The least value that both are at most.
    fn join(self, other: Self) -> Self
        ensures { result ≡ ops.join self other };

    // The greatest value at most both.
    fn meet(self, other: Self) -> Self
        ensures { result ≡ ops.meet self other };

    fn product(self, other: Self) -> Self
        ensures { result ≡ ops.product self other };

    // The greatest value whose product with `self` is at most `other`.
    fn residual(self, other: Self) -> Self
        ensures { result ≡ ops.residual self other };

    fn at_most(self, other: Self) -> bool
        ensures { Decides result (AtMost ops self other) };

    ghost laws: { Laws ops };
}
