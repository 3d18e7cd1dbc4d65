// The types that the definitions of orders and the code share.
#![tactic(auto)]

// The desk: jobs answered, and passes answered.
#[derive(Clone, Copy)]
pub struct Desk {
    pub jobs: u32,
    pub passes: u32,
}

// What an order may take at most: the words of its table, the bytes of a file of it, and passes.
#[derive(Clone, Copy)]
pub struct Figures {
    pub words: usize,
    pub bytes: usize,
    pub ceiling: u64,
}
