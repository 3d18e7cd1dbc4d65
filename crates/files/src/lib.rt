// The type that the definitions of files and the code share.
#![tactic(auto)]

// The field that begins at a position of a file.
#[derive(Clone, Copy)]
pub enum Field {
    // the payload starts at `start` and ends before `next`
    Whole {
        tag: u8,
        start: usize,
        len: usize,
        next: usize,
    },
    // the payload is not all there
    Cut {
        tag: u8,
    },
    // under three bytes are left
    Short,
}
