use front_end::Refusal;
use sqlite_items::Items;
use unit_reports::UnitReport;

/// Which of the words of the command names a file.
#[derive(Clone, Copy, Debug, PartialEq, Eq)]
pub enum FileWord {
    Mir,
    Declarations,
}

/// What the command has to tell.
#[derive(Debug, Drop)]
pub enum Answer {
    /// The words are none of the command's.
    Usage,
    Missing(FileWord),
    ReadFault(FileWord),
    TooLong(FileWord),
    /// The text, the declaration file, the layouts or the types are refused.
    Refused(Refusal),
    /// The program is of a form that is not built yet.
    NotBuilt,
    Report(Items<UnitReport>),
}
