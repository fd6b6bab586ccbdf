// The codes of units. Questions 1, 4 and 20 refuse the numbers that mean nothing, so each type holds all 256 of its byte. An enum with a case
// `Other(u8)` would have two values for one byte, and its order and both conversions by hand; these derive their order, and a clause or
// definition says `.0` for the papers' number.
#![tactic(auto)]

// What a unit is.
#[derive(Clone, Copy, Debug, PartialEq, Eq, PartialOrd, Ord)]
pub struct Kind(pub u8);

impl Kind {
    pub const W1: Kind = Kind(1);

    pub const M1: Kind = Kind(2);

    pub const Z1: Kind = Kind(3);

    pub const A: Kind = Kind(4);
}

// A W1's state; a unit of another kind has none. No Option: until it is refused, such a unit can hold any number here.
#[derive(Clone, Copy, Debug, PartialEq, Eq, PartialOrd, Ord)]
pub struct State(pub u8);

impl State {
    pub const NONE: State = State(0);

    pub const R: State = State(1);

    pub const RO: State = State(2);

    pub const U1: State = State(3);

    pub const U2: State = State(4);

    pub const P: State = State(5);

    pub const RP: State = State(6);
}

// The qualification in a unit's row after an event of code 5 or 6; a number, as every qualification is (`report::Head`).
pub const RE: u8 = 8;
