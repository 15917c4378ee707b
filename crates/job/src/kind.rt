// The kinds of records, and the length of a record of each: its kind byte and its body (01: "The job file"; 02 §1 and §2).
ghost use Rattle.job.specs.Pass.{Names};

use crate::Refusal;

#[derive(Clone, Copy, PartialEq, Eq)]
pub enum RecordKind {
    Rack = 1,
    Step = 2,
    Link = 3,
    End = 4,
    Wire = 5,
    Result = 6,
}

pub const RACK_LENGTH: usize = 4;

pub const STEP_LENGTH: usize = 5;

pub const LINK_LENGTH: usize = 5;

pub const END_LENGTH: usize = 1;

pub const WIRE_LENGTH: usize = 4;

pub const RESULT_LENGTH: usize = 4;

impl TryFrom<u8> for RecordKind {
    type Error = Refusal;

    ghost try_from_gives = { Names };

    #[tactic(auto, unfolding(crate::specs::Record::kind_of))]
    fn try_from(byte: u8) -> Result<Self, Refusal> {
        match byte {
            1 => Ok(RecordKind::Rack),
            2 => Ok(RecordKind::Step),
            3 => Ok(RecordKind::Link),
            4 => Ok(RecordKind::End),
            5 => Ok(RecordKind::Wire),
            6 => Ok(RecordKind::Result),
            _ => Err(Refusal::UnknownKind),
        }
    }
}
