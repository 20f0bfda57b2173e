#![tactic(auto)]

ghost use Rattle.std.specs.Prelude.{◌≡◌, ◌&&◌, nat_lt};
ghost use Rattle.links.specs.Takes.{tokenless as is_tokenless, delayed as is_delayed, entry as is_entry, leaving as is_leaving};
ghost use Rattle.links.specs.Tallies.{same_sort, how_many};

// What a link joins: a place two transitions, an input link an input to a
// transition, an output link a transition to an output.
#[derive(Clone, Copy, PartialEq, Eq, Debug)]
pub enum Sort {
    Place,
    Input,
    Output,
}

// A link of a net, the same record for every kind of values.
#[derive(Clone, Copy, PartialEq, Eq, Debug)]
pub struct Link<T> {
    pub sort: Sort,
    pub from: u8,
    pub to: u8,
    pub tokens: u8,
    pub value: T,
}

// How many transitions, inputs and outputs a net has.
#[derive(Clone, Copy, PartialEq, Eq, Debug)]
pub struct Counts {
    pub transitions: u8,
    pub inputs: u8,
    pub outputs: u8,
}

// How many links of a sort a table has.
#[tactic(auto, using(crate::proofs::Counting::how_many_is))]
pub fn count_sort<T>(links: &[Link<T>], sort: Sort) -> usize
    ensures { result ≡ how_many sort links.now }
{
    links.iter().filter(|link| link.is(sort)).count()
}

impl<T> Link<T> {
    fn is(&self, sort: Sort) -> bool
        ensures { result ≡ same_sort sort self.now.sort }
    {
        self.sort == sort
    }

    // Whether this is a link of a sort from one of m to one of n.
    fn joins(&self, sort: Sort, m: usize, n: usize) -> bool
        ensures { result ≡ (same_sort sort self.now.sort && (nat_lt self.now.from m && nat_lt self.now.to n)) }
    {
        self.is(sort) && usize::from(self.from) < m && usize::from(self.to) < n
    }

    // Whether this is a place without tokens between two of n transitions.
    pub fn is_tokenless(&self, n: usize) -> bool
        ensures { result ≡ is_tokenless n self.now }
    {
        self.joins(Sort::Place, n, n) && self.tokens == 0
    }

    // Whether this is a place with 1 to 15 tokens between two of n transitions.
    pub fn is_delayed(&self, n: usize) -> bool
        ensures { result ≡ is_delayed n self.now }
    {
        self.joins(Sort::Place, n, n) && self.tokens > 0 && self.tokens < 16
    }

    // Whether this is an input link from one of m inputs to one of n transitions.
    pub fn is_entry(&self, n: usize, m: usize) -> bool
        ensures { result ≡ is_entry n m self.now }
    {
        self.joins(Sort::Input, m, n) && self.tokens == 0
    }

    // Whether this is an output link from one of n transitions to one of p outputs.
    pub fn is_leaving(&self, n: usize, p: usize) -> bool
        ensures { result ≡ is_leaving n p self.now }
    {
        self.joins(Sort::Output, n, p) && self.tokens == 0
    }
}
