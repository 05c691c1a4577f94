// Why a call says no: the refusals of documents 01 and 02, and the number and value that each is returned as.
#![tactic(auto)]

pub mod numbers;

// The reasons in the order of their numbers, 1 to 18; the value stands beside a reason where one is returned with it.
#[derive(Clone, Copy)]
pub enum Refusal {
    IllegalSetting,
    SampleOutOfRange(u64),
    WrongCount,
    HouseLimit,
    ShortArea,
    NoRoom(u64),
    EndsInHeader,
    IllegalField,
    BodyEnds(u64),
    BadCodeword(u64),
    AfterEnd(u64),
    BlockCoder,
    UnfitFile,
    RowOutOfTurn,
    SecondNotRising,
    NoTablesLent,
    BadCalibration(u64),
    NoSerialLeft,
}

// A refusal as it is told to a caller: C takes numbers, and this pair is all that is left of the enum there.
#[derive(Clone, Copy)]
pub struct Numbered {
    pub number: u64,
    pub value: u64,
}
