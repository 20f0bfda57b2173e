ghost use Rattle.std.specs.Prelude.{◌≡◌, ◌+◌, ◌-◌, ◌*◌, ◌≤◌, max, length};
ghost use Rattle.plants.specs.Calls.{Flooded};
ghost use Rattle.cabling.specs.Series.{chain, chain_need, chain_counted, Layout, SeriesForward, SeriesBackward};

use kinds::{Kind, Refusal};
use plants::{Horizon, Places, Plant, fill};

// `first`, then `second` on what it gives. Output l of the first is input l of the second.
#[derive(Drop)]
pub struct Series<A, B> {
    pub first: A,
    pub second: B,
}

// The places of the two plants' calls. The joined wires begin where the working cells of
// the whole begin, and the working cells of both calls come after them.
#[derive(Clone, Copy)]
struct Inner {
    first: Places,
    second: Places,
}

// The joined wires as one direction has them: the plant that is called first writes `have` of
// them, and the other reads `want`.
#[derive(Clone, Copy)]
struct Wires {
    have: usize,
    want: usize,
    ghost few: { (have ≤ 16) × (want ≤ 16) },
}

impl Wires {
    // The same wires in the other direction.
    fn turned(self) -> Wires
        ensures { (result.have ≡ self.want) × (result.want ≡ self.have) }
    {
        Wires {
            have: self.want,
            want: self.have,
        }
    }

    fn cells(self, k: Horizon) -> usize
        ensures { (result ≡ max self.have self.want * k.beats) × (result ≤ 1024) }
    {
        self.have.max(self.want) * k.beats()
    }

    // Writes `value` into the wires from `have` up to `want`, where the wires begin at `start`.
    fn fill_rest<T: Kind>(self, k: Horizon, sheet: &mut [T], start: usize, value: T)
        requires { start + max self.have self.want * k.beats ≤ length sheet.old }
        ensures { Flooded T.Kind.ops (start + self.have * k.beats) ((self.want - self.have) * k.beats) value sheet.old sheet.new }
    {
        let beats = k.beats();
        fill(
            sheet,
            start + self.have * beats,
            self.want.saturating_sub(self.have) * beats,
            value,
        );
    }
}

impl<A: Plant, B: Plant<Value = A::Value>> Series<A, B> {
    // The joined wires, forward.
    fn wires(&self) -> Wires
        ensures { (result.have ≡ (A.Plant.meaning self.now.first).outputs) × (result.want ≡ (B.Plant.meaning self.now.second).inputs) }
    {
        Wires {
            have: self.first.outputs(),
            want: self.second.inputs(),
        }
    }

    // The places of the two inner calls.
    fn layout(&self, k: Horizon, at: Places, len: usize) -> Result<Inner, Refusal>
        ensures { Layout (A.Plant.meaning self.now.first) (B.Plant.meaning self.now.second) k.beats (A.Plant.need self.now.first k.beats) (B.Plant.need self.now.second k.beats) at len result }
    {
        self.check_places(k, len, at)?;
        let rest = at.working + self.wires().cells(k);
        Ok(Inner {
            first: Places {
                input: at.input,
                output: at.working,
                working: rest,
            },
            second: Places {
                input: at.working,
                output: at.output,
                working: rest,
            },
        })
    }
}

impl<A: Plant, B: Plant<Value = A::Value>> Plant for Series<A, B> {
    type Value = A::Value;

    ghost meaning = { λ s. chain A.Value.Kind.ops (A.Plant.meaning s.first) (B.Plant.meaning s.second) };

    ghost need = { λ s n. chain_need (A.Plant.meaning s.first) (B.Plant.meaning s.second) n (A.Plant.need s.first n) (B.Plant.need s.second n) };

    ghost counted = { λ s. chain_counted A.Value.Kind.ops (A.Plant.meaning s.first) (B.Plant.meaning s.second) (A.Plant.counted s.first) (B.Plant.counted s.second) };

    fn inputs(&self) -> usize {
        self.first.inputs()
    }

    fn outputs(&self) -> usize {
        self.second.outputs()
    }

    fn need(&self, k: Horizon) -> usize {
        let joined = self.wires().cells(k);
        joined.saturating_add(self.first.need(k).max(self.second.need(k)))
    }

    fn forward(&self, k: Horizon, sheet: &mut [A::Value], at: Places) -> Result<(), Refusal> {
        let inner = self.layout(k, at, sheet.len())?;
        self.first.forward(k, sheet, inner.first)?;
        let wires = self.wires();
        wires.fill_rest(k, sheet, at.working, A::Value::bottom());
        self.second.forward(k, sheet, inner.second)
    }

    // Not one function with `forward`: the parts differ in type, so that their order is no value.
    fn backward(&self, k: Horizon, sheet: &mut [A::Value], at: Places) -> Result<(), Refusal> {
        let inner = self.layout(k, at, sheet.len())?;
        self.second.backward(k, sheet, inner.second)?;
        let wires = self.wires().turned();
        wires.fill_rest(k, sheet, at.working, A::Value::top());
        self.first.backward(k, sheet, inner.first)
    }
}

// A series answers as its two plants in turn, for every kind and every two meanings.
#[tactic(auto, using(crate::proofs::Chains::series_forward, crate::proofs::Chains::series_backward))]
pub fn series_answers_in_turn<T: Kind>()
    ensures forward { SeriesForward T.Kind.ops }
    ensures backward { SeriesBackward T.Kind.ops }
{}
