ghost use Rattle.std.specs.Prelude.{◌≡◌, ◌≤◌, min, max};

use links::Link;

pub mod calls;

// An event net over a lent table of links: 1 to 64 transitions, 1 to 16 inputs and outputs.
#[derive(Drop)]
pub struct Net<'a, T> {
    links: &'a [Link<T>],
    transitions: usize,
    inputs: usize,
    outputs: usize,
    ghost inner: { (1 ≤ transitions) × (transitions ≤ 64) },
    ghost ins: { (1 ≤ inputs) × (inputs ≤ 16) },
    ghost outs: { (1 ≤ outputs) × (outputs ≤ 16) },
}

impl<'a, T> Net<'a, T> {
    // A net of these links; a count out of its range is taken as the nearest end of it.
    // Not `links::Counts`: its bytes would ask more of callers than any count.
    pub fn new(
        links: &'a [Link<T>],
        transitions: usize,
        inputs: usize,
        outputs: usize,
    ) -> Net<'a, T>
        ensures { (result.links ≡ links.entry) × (result.transitions ≡ max 1 (min transitions 64)) × (result.inputs ≡ max 1 (min inputs 16)) × (result.outputs ≡ max 1 (min outputs 16)) }
    {
        Net {
            links,
            transitions: transitions.clamp(1, 64),
            inputs: inputs.clamp(1, 16),
            outputs: outputs.clamp(1, 16),
        }
    }

    pub fn transitions(&self) -> usize
        ensures { (result ≡ self.now.transitions) × (1 ≤ result) × (result ≤ 64) }
    {
        self.transitions
    }

    pub fn links(&self) -> &'a [Link<T>]
        ensures { result ≡ self.now.links }
    {
        self.links
    }
}
