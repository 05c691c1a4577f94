// The number of each refusal, and the value returned with it.
ghost use Rattle.std.specs.Prelude.{◌≡◌};
ghost use Rattle.refusals.specs.Refusals.{number, value};

use super::{Numbered, Refusal};

// A number with the value beside it.
fn told(number: u64, value: u64) -> Numbered
    ensures number_value { result.number ≡ number }
    ensures value_value { result.value ≡ value }
{
    Numbered { number, value }
}

// One match for both, so that each reason is listed once.
#[tactic(auto, unfolding(crate::specs::Refusals::number, crate::specs::Refusals::value))]
pub fn numbered(r: Refusal) -> Numbered
    ensures number_value { result.number ≡ number r }
    ensures value_value { result.value ≡ value r }
{
    match r {
        Refusal::IllegalSetting => told(1, 0),
        Refusal::SampleOutOfRange(index) => told(2, index),
        Refusal::WrongCount => told(3, 0),
        Refusal::HouseLimit => told(4, 0),
        Refusal::ShortArea => told(5, 0),
        Refusal::NoRoom(length) => told(6, length),
        Refusal::EndsInHeader => told(7, 0),
        Refusal::IllegalField => told(8, 0),
        Refusal::BodyEnds(rank) => told(9, rank),
        Refusal::BadCodeword(rank) => told(10, rank),
        Refusal::AfterEnd(count) => told(11, count),
        Refusal::BlockCoder => told(12, 0),
        Refusal::UnfitFile => told(13, 0),
        Refusal::RowOutOfTurn => told(14, 0),
        Refusal::SecondNotRising => told(15, 0),
        Refusal::NoTablesLent => told(16, 0),
        Refusal::BadCalibration(band) => told(17, band),
        Refusal::NoSerialLeft => told(18, 0),
    }
}
