// The search for minimal explanations by single steps: its definitions stand in specs/, its theory in proofs/, over any problem, whatever an
// explanation is and whatever a scenario costs. The functions that make the steps are in the crate stepping.
#![tactic(auto)]

// A search: its next scenario, and how many of the list's entries are found ones.
#[derive(Clone, Copy, PartialEq, Eq, Debug)]
pub struct Record {
    pub position: u32,
    pub found: u32,
}

#[derive(Clone, Copy, PartialEq, Eq, Debug)]
pub enum State {
    Ended,
    Full,
    Going,
}
