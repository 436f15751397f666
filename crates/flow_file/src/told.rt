ghost use Rattle.std.specs.Prelude.{◌≡◌};
ghost use Rattle.flow_file.specs.FlowKinds.{flows_kind, told};

use crate::fault::{FlowsKind, FlowsRefusal};
use report_words::fault::{ReportKind, ReportRefusal};
use text_kit::Refusal;
use text_kit::refusal::bad;

/// The kind of a fault that a report's reading met. No name of a report that is listed twice is met here.
pub fn flows_kind(kind: ReportKind) -> FlowsKind
    ensures { result ≡ flows_kind kind }
{
    match kind {
        ReportKind::Header => FlowsKind::Header,
        ReportKind::Section => FlowsKind::Section,
        ReportKind::Token => FlowsKind::Token,
        ReportKind::Ended => FlowsKind::Ended,
        ReportKind::LimitName => FlowsKind::LimitName,
        ReportKind::Number(fault) => FlowsKind::Number(fault),
        ReportKind::UnknownName | ReportKind::DoubleName => FlowsKind::UnknownName,
        ReportKind::Limit => FlowsKind::Limit,
    }
}

/// What a report's reading answered, with its fault told as one of a file of flows.
pub fn told<X: Drop>(answer: Result<X, ReportRefusal>) -> Result<X, FlowsRefusal>
    ensures { result ≡ told answer }
{
    match answer {
        Ok(x) => Ok(x),
        Err(Refusal::Bad { at, kind }) => Err(bad(at, flows_kind(kind))),
        Err(Refusal::NoMemory) => Err(Refusal::NoMemory),
    }
}
