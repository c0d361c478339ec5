// What a line of a script asks for.
use protocol::call::Call;

// An opening by counting.
#[derive(Clone, Copy, PartialEq, Eq, Debug)]
pub struct Opening {
    pub faults: u8,
    // Bit i is set where process i is foreign.
    pub foreign: u32,
    // The own value of process 0; that of process i is i more.
    pub first: u32,
}

#[derive(Clone, Copy, PartialEq, Eq, Debug)]
pub enum Request {
    Open(Opening),
    Carry(Call),
}
