// The codes of reports. Questions 1, 4 and 20 refuse the numbers that mean nothing, so each type holds all 256 of its byte. An enum with a case
// `Other(u8)` would have two values for one byte, and its order and both conversions by hand; these derive their order, and a clause or
// definition says `.0` for the papers' number.
#![tactic(auto)]

// What a record is of.
#[derive(Clone, Copy, Debug, PartialEq, Eq, PartialOrd, Ord)]
pub struct RecordType(pub u8);

impl RecordType {
    pub const STOP: RecordType = RecordType(1);

    pub const POSITIVE_DERATING: RecordType = RecordType(2);

    pub const NEGATIVE_DERATING: RecordType = RecordType(3);

    pub const FORCED_WORK: RecordType = RecordType(4);

    pub const OFF_GRID: RecordType = RecordType(5);

    pub const EVENT: RecordType = RecordType(6);
}

// What a report does to its record.
#[derive(Clone, Copy, Debug, PartialEq, Eq, PartialOrd, Ord)]
pub struct Operation(pub u8);

impl Operation {
    pub const CREATE: Operation = Operation(1);

    pub const CHANGE: Operation = Operation(2);

    pub const WITHDRAW: Operation = Operation(3);
}

// Which power a record is about.
#[derive(Clone, Copy, Debug, PartialEq, Eq, PartialOrd, Ord)]
pub struct Direction(pub u8);

impl Direction {
    pub const GENERATION: Direction = Direction(1);

    pub const CONSUMPTION: Direction = Direction(2);

    pub const BOTH: Direction = Direction(3);
}

// Whether a start or an end is planned or executed.
#[derive(Clone, Copy, Debug, PartialEq, Eq, PartialOrd, Ord)]
pub struct Mark(pub u8);

impl Mark {
    pub const PLANNED: Mark = Mark(1);

    pub const EXECUTED: Mark = Mark(2);
}
