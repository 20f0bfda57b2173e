use kinds::Refusal;

// One call of a run, with the order of a firing or a miss by its numbers.
#[derive(Clone, Copy, PartialEq, Eq, Debug)]
pub enum Call<T> {
    Lay,
    Due {
        output: usize,
        beat: usize,
        value: T,
    },
    Start,
    Order {
        input: usize,
    },
    Fire {
        input: usize,
        beat: usize,
        value: T,
    },
    Miss {
        input: usize,
        beat: usize,
    },
    Strikes,
    End,
}

// What a call is answered. An order tells its beat and the plan value that it found;
// `Untaken` is a call that a phrase does not take at its stage. One enum: as an Option of a
// Result of an Option its four cases would have no names.
#[derive(Clone, Copy, PartialEq, Eq, Debug)]
pub enum Answer<T> {
    Done,
    Ordered { beat: usize, found: T },
    Refused { why: Refusal },
    Untaken,
}

// A call with its answer.
#[derive(Clone, Copy, PartialEq, Eq, Debug)]
pub struct Act<T> {
    pub call: Call<T>,
    pub answer: Answer<T>,
}
