ghost use Rattle.std.specs.Prelude.{◌≡◌, ℕ, ◌+◌, ◌-◌, ◌<◌, ◌≤◌, true, cond, Some, None, IfSome, length, slice_set};
ghost use Rattle.routes.specs.Ways.{none, both, along};
ghost use Rattle.nets.specs.Stages.{cell, takes_part, source, target, row_cell, Swept};
ghost use Rattle.nets.specs.Turns.{Still, Relaxed, Settled, Played, Blank};
ghost use Rattle.nets.specs.Floors.{SameFloor};

use crate::floor::Floor;
use crate::stage::Leg;
use kinds::Kind;
use links::Link;
use plants::fill;

impl<T: Kind> Floor<'_, T> {
    // The cells that a link reads and writes in a leg, if it takes part.
    fn ends(&self, leg: Leg, link: &Link<T>) -> Option<(usize, usize)>
        ensures ends { result ≡ cond (takes_part leg self.now.stage link.now) (Some (source leg self.now.stage link.now, target leg self.now.stage link.now)) None }
        ensures within { IfSome result (λ p. (p.0 < length self.now.sheet.now) × (p.1 < length self.now.sheet.now)) }
    {
        let stage = &self.stage;
        // Each arm works out its own cells: most links take no part in most legs.
        match leg {
            Leg::Into if stage.leads_in(link) => Some((
                stage.given + (stage.tail(link) * stage.beats + stage.beat),
                stage.working + (stage.turn * stage.n + stage.head(link)),
            )),
            Leg::Wait if link.is_delayed(stage.n) && usize::from(link.tokens) <= stage.turn => {
                let row = stage.turn - usize::from(link.tokens);
                Some((
                    stage.working + (row * stage.n + stage.tail(link)),
                    stage.working + (stage.turn * stage.n + stage.head(link)),
                ))
            }
            Leg::Glide if link.is_tokenless(stage.n) => Some((
                stage.working + (stage.beats * stage.n + stage.tail(link)),
                stage.working + (stage.turn * stage.n + stage.head(link)),
            )),
            Leg::Out if stage.leads_out(link) => Some((
                stage.working + (stage.turn * stage.n + stage.tail(link)),
                stage.asked + (stage.head(link) * stage.beats + stage.beat),
            )),
            _ => None,
        }
    }

    // Brings to one cell what comes of another over a link.
    fn carry(&mut self, from: usize, to: usize, value: T)
        requires { (from < length self.old.sheet.now) × (to < length self.old.sheet.now) }
        ensures floor { SameFloor self.old self.new }
        ensures carried { self.new.sheet.now ≡ slice_set self.old.sheet.now to (both T.Kind.ops self.old.stage.way (cell T.Kind.ops self.old.sheet.now to) (along T.Kind.ops self.old.stage.way value (cell T.Kind.ops self.old.sheet.now from))) }
    {
        let there = self.sheet[to];
        let here = self.sheet[from];
        self.sheet[to] = self.stage.gather(there, value, here);
    }

    // Brings to the cells of this leg what the links bring there.
    fn sweep(&mut self, leg: Leg)
        ensures floor { SameFloor self.old self.new }
        ensures swept { Swept T.Kind.ops leg self.old.stage self.old.links.now self.old.sheet.now self.new.sheet.now }
    {
        for link in self.links {
            if let Some((from, to)) = self.ends(leg, link) {
                self.carry(from, to, link.value);
            }
        }
    }

    // Whether nothing new has arrived in a row, as the spare row holds it.
    fn is_stable(&self, row: usize, spare: usize) -> bool
        requires row_within { row + self.now.stage.n ≤ length self.now.sheet.now }
        requires spare_within { spare + self.now.stage.n ≤ length self.now.sheet.now }
        ensures { result ≡ true → (t : ℕ) → t < self.now.stage.n → Still T.Kind.ops self.now.stage.way (cell T.Kind.ops self.now.sheet.now (row + t)) (cell T.Kind.ops self.now.sheet.now (spare + t)) }
    {
        let n = self.stage.n;
        let states = self.sheet[row..row + n].iter();
        let mut pairs = states.zip(&self.sheet[spare..spare + n]);
        pairs.all(|(now, before)| self.stage.is_still(*now, *before))
    }

    // One round: the row gets what the tokenless places bring; whether that was nothing new.
    fn relax(&mut self) -> bool
        ensures floor { SameFloor self.old self.new }
        ensures relaxed { Relaxed T.Kind.ops self.old.stage self.old.links.now self.old.sheet.now self.new.sheet.now result }
    {
        let n = self.stage.n;
        let row = self.stage.working + self.stage.turn * n;
        let spare = self.stage.working + self.stage.beats * n;
        self.sheet.copy_within(row..row + n, spare);
        self.sweep(Leg::Glide);
        self.is_stable(row, spare)
    }

    // Relaxes the row of the turn n - 1 times, or until a round brings nothing new.
    fn settle(&mut self)
        ensures floor { SameFloor self.old self.new }
        ensures settled { Settled T.Kind.ops self.old.stage self.old.links.now (self.old.stage.n - 1) self.old.sheet.now self.new.sheet.now }
    {
        for _round in 1..self.stage.n {
            if self.relax() {
                return;
            }
        }
    }

    // Makes the states of one turn and what goes out in it.
    pub(crate) fn play(&mut self)
        requires { (t : ℕ) → t < self.old.stage.n → row_cell T.Kind.ops self.old.stage self.old.sheet.now t ≡ none T.Kind.ops self.old.stage.way }
        ensures floor { SameFloor self.old self.new }
        ensures played { Played T.Kind.ops self.old.stage self.old.links.now self.old.sheet.now self.new.sheet.now }
    {
        self.sweep(Leg::Into);
        self.sweep(Leg::Wait);
        self.settle();
        self.sweep(Leg::Out);
    }

    // Makes the block asked for and the working cells blank.
    pub(crate) fn clear(&mut self)
        ensures floor { SameFloor self.old self.new }
        ensures blank { Blank T.Kind.ops self.old.stage self.old.sheet.now self.new.sheet.now }
    {
        let stage = &self.stage;
        let value = stage.blank();
        fill(self.sheet, stage.asked, stage.writes * stage.beats, value);
        fill(
            self.sheet,
            stage.working,
            (stage.beats + 1) * stage.n,
            value,
        );
    }
}
