// The refusal table (01: "Refusal table"; 02 §1 and §2).
ghost use Rattle.std.specs.Prelude.{◌≡◌};
ghost use Rattle.job.specs.Table.{number_of, refusal};

// Why a file, a job, a plan or a lent slice is refused. The rows of the table, 1 to 15.
#[derive(Clone, Copy, Debug, PartialEq, Eq)]
pub enum Refusal {
    CutShort,
    UnknownKind,
    MisplacedKind,
    OutOfRange,
    TooMany,
    BadEnds,
    NotAbove,
    BytesAfter,
    ShortSlice,
    AbsentProcessor,
    LateStart,
    Overlap,
    EarlyStart,
    NotDue,
    NotDeliverable,
}

impl Refusal {
    // Its number in the table.
    pub fn number(self) -> u8
        ensures { result ≡ number_of self }
    {
        match self {
            Refusal::CutShort => 1,
            Refusal::UnknownKind => 2,
            Refusal::MisplacedKind => 3,
            Refusal::OutOfRange => 4,
            Refusal::TooMany => 5,
            Refusal::BadEnds => 6,
            Refusal::NotAbove => 7,
            Refusal::BytesAfter => 8,
            Refusal::ShortSlice => 9,
            Refusal::AbsentProcessor => 10,
            Refusal::LateStart => 11,
            Refusal::Overlap => 12,
            Refusal::EarlyStart => 13,
            Refusal::NotDue => 14,
            Refusal::NotDeliverable => 15,
        }
    }
}

// The row that has a number; of a number that the table has not, the last.
#[tactic(auto, unfolding(crate::specs::Table::refusal))]
pub fn by_number(number: u8) -> Refusal
    ensures { result ≡ refusal number }
{
    match number {
        1 => Refusal::CutShort,
        2 => Refusal::UnknownKind,
        3 => Refusal::MisplacedKind,
        4 => Refusal::OutOfRange,
        5 => Refusal::TooMany,
        6 => Refusal::BadEnds,
        7 => Refusal::NotAbove,
        8 => Refusal::BytesAfter,
        9 => Refusal::ShortSlice,
        10 => Refusal::AbsentProcessor,
        11 => Refusal::LateStart,
        12 => Refusal::Overlap,
        13 => Refusal::EarlyStart,
        14 => Refusal::NotDue,
        _ => Refusal::NotDeliverable,
    }
}
