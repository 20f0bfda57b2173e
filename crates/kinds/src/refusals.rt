ghost use Rattle.std.specs.Prelude.{◌≡◌};
ghost use Rattle.kinds.specs.Refusals.{code};

// Why a call is refused. The first seven blame the input, the others the state.
#[derive(Clone, Copy, PartialEq, Eq, Debug)]
pub enum Refusal {
    // A line of wrong shape or letter.
    Shape = 1,
    // A field that spells no number, kind or value.
    Spelling = 2,
    // A number outside its range.
    Range = 3,
    // The link table is full, 320 links stand, or a text is too long.
    Full = 4,
    // A circuit whose gain is not at most one.
    Circuit = 6,
    // An input, output or beat that the phrase lacks.
    Missing = 7,
    // A sheet, table or list too short, or places that clash.
    Short = 8,
    // No plan is left that meets the changed score.
    NoPlan = 20,
    // This input's order is still out.
    OrderOut = 21,
    // All beats of this input are fixed.
    AllFixed = 22,
    // The fired value is not at most the ordered cell.
    TooHigh = 23,
    // No order for this input and beat is out.
    NoOrder = 24,
}

// The number that stands for a refusal on the card.
impl From<Refusal> for u8 {
    ghost from_gives = { λ r n. n ≡ code r };

    fn from(refusal: Refusal) -> u8 {
        // An enum's number is read by `as` alone.
        refusal as u8
    }
}
