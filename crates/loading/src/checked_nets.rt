ghost use Rattle.std.specs.Prelude.{◌≡◌, min, max};

use kinds::{Channels, Date, Level};
use links::{Counts, Link};
use nets::Net;

// A net that was read and whose circuits pass: the counts of its first line,
// and its links in the order of their lines.
#[derive(Drop)]
pub struct CheckedNet<T> {
    pub counts: Counts,
    pub links: Vec<Link<T>>,
}

// A checked net over the kind that its text names.
#[derive(Drop)]
pub enum AnyNet {
    Dates(CheckedNet<Date>),
    Levels(CheckedNet<Level>),
    Sets(CheckedNet<Channels>),
}

impl<T> CheckedNet<T> {
    // The plant over these links.
    pub fn plant(&self) -> Net<'_, T>
        ensures links { result.links.now ≡ self.now.links.items }
        ensures sizes { (result.transitions ≡ max 1 (min self.now.counts.transitions 64)) × (result.inputs ≡ max 1 (min self.now.counts.inputs 16)) × (result.outputs ≡ max 1 (min self.now.counts.outputs 16)) }
    {
        Net::new(
            self.links.as_slice(),
            usize::from(self.counts.transitions),
            usize::from(self.counts.inputs),
            usize::from(self.counts.outputs),
        )
    }
}
