ghost use Rattle.std.specs.Prelude.{◌≡◌};
ghost use Rattle.outside_io.specs.Statuses.{status_number};

/// How a run ended.
#[derive(Clone, Copy, Debug, PartialEq, Eq)]
pub enum Status {
    /// The report, or the answer that was asked for, was written.
    Done,
    /// The words aren't in the grammar of commands.
    BadWords,
    /// A named file isn't there.
    NoFile,
    /// Reading failed.
    ReadFault,
    /// Writing failed.
    WriteFault,
    /// The network file is refused.
    BadNetwork,
    /// The model file is refused.
    BadModel,
    /// The failure file is refused.
    BadFailures,
    /// The script is refused.
    BadScript,
    /// A state separates a demand that has a need.
    NotSurvivable,
    /// The report that was checked has a finding.
    Rejected,
    /// A file is longer than its limit.
    TooLong,
    /// The report file is refused.
    BadReport,
    /// No memory was found.
    NoMemory,
    /// The file of flows is refused.
    BadFlows,
    /// The flows that were to be imported have a fault.
    BadImport,
}

impl Status {
    /// The exit status of the program. It takes constant time, and no memory.
    pub fn number(self) -> u8
        ensures { result ≡ status_number self }
    {
        match self {
            Status::Done => 0,
            Status::BadWords => 2,
            Status::NoFile => 3,
            Status::ReadFault => 4,
            Status::WriteFault => 5,
            Status::BadNetwork => 6,
            Status::BadModel => 7,
            Status::BadFailures => 8,
            Status::BadScript => 9,
            Status::NotSurvivable => 10,
            Status::Rejected => 11,
            Status::TooLong => 12,
            Status::BadReport => 13,
            Status::NoMemory => 14,
            Status::BadFlows => 15,
            Status::BadImport => 16,
        }
    }
}
