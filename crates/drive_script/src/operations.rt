// The operations by their numbers.

#[derive(Clone, Copy, Debug, PartialEq, Eq)]
pub enum Operation {
    Fire,
    OverRoutes(OverJob),
    OverLists(OverJob),
    OverSheet(OverSheet),
    OverShelf(OverShelf),
    Find,
    Compare,
    Convert(Way),
}

// An operation over two routes and a done list.
#[derive(Clone, Copy, Debug, PartialEq, Eq)]
pub enum OverJob {
    Run,
    Slice,
    Try,
    Judge,
    Write,
}

#[derive(Clone, Copy, Debug, PartialEq, Eq)]
pub enum OverSheet {
    Read,
    ReadScope,
    ReadLists,
    JobPart,
    Print,
    Try,
}

#[derive(Clone, Copy, Debug, PartialEq, Eq)]
pub enum OverShelf {
    HandIn,
    Put,
    Judge,
}

// A sheet between editions: from 01's version to the present one, back, or the way that its second line tells.
#[derive(Clone, Copy, Debug, PartialEq, Eq)]
pub enum Way {
    Up,
    Down,
    Either,
}

// No operation has this number.
#[derive(Clone, Copy, Debug, PartialEq, Eq)]
pub struct NoOperation;

impl TryFrom<u64> for Operation {
    type Error = NoOperation;

    fn try_from(number: u64) -> Result<Operation, NoOperation> {
        Ok(match number {
            1 => Operation::Fire,
            2 => Operation::OverRoutes(OverJob::Run),
            3 => Operation::OverRoutes(OverJob::Slice),
            4 => Operation::OverRoutes(OverJob::Try),
            5 => Operation::OverRoutes(OverJob::Judge),
            6 => Operation::OverSheet(OverSheet::Read),
            7 => Operation::OverSheet(OverSheet::JobPart),
            8 => Operation::OverRoutes(OverJob::Write),
            9 => Operation::OverSheet(OverSheet::Print),
            10 => Operation::OverSheet(OverSheet::Try),
            12 => Operation::OverLists(OverJob::Run),
            13 => Operation::OverLists(OverJob::Slice),
            14 => Operation::OverLists(OverJob::Try),
            15 => Operation::OverLists(OverJob::Judge),
            16 => Operation::OverSheet(OverSheet::ReadLists),
            18 => Operation::OverLists(OverJob::Write),
            20 => Operation::OverShelf(OverShelf::HandIn),
            21 => Operation::OverShelf(OverShelf::Put),
            22 => Operation::OverShelf(OverShelf::Judge),
            23 => Operation::OverSheet(OverSheet::ReadScope),
            24 => Operation::Find,
            25 => Operation::Compare,
            26 => Operation::Convert(Way::Up),
            27 => Operation::Convert(Way::Down),
            28 => Operation::Convert(Way::Either),
            _ => return Err(NoOperation),
        })
    }
}
