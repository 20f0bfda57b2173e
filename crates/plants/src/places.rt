// Where in a sheet the input block, the output block and the working cells of a call begin.
#[derive(Clone, Copy, PartialEq, Eq, Debug)]
pub struct Places {
    pub input: usize,
    pub output: usize,
    pub working: usize,
}
