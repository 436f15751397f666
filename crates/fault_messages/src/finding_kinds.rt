ghost use Rattle.std.specs.Prelude.{◌≡◌};
ghost use Rattle.fault_texts.specs.FaultTexts.{HasWords};
ghost use Rattle.fault_messages.specs.FindingMessages.{finding_message, finding_wrong};

use fault_texts::Sentence;
use plan_checker::Finding;

/// What a finding says, in a sentence.
fn finding_wrong(finding: Finding) -> &'static str
    ensures { result.now ≡ finding_wrong finding }
{
    match finding {
        Finding::NotesDiffer =>
            "the report leaves out other costs than those that the network's file has",
        Finding::EntryDiffers(_) =>
            "an entry of the journal has another answer, or another number, than it must have",
        Finding::PoolCount(_, _) => "the pool has another number of cuts than the journal",
        Finding::BadCut(_) => "a cut of the pool is none in its state, or stands there twice",
        Finding::PoolDiffers(_, _, _) =>
            "the right side of a cut of the pool is another one at the last demands",
        Finding::VersionDiffers(_, _) =>
            "the version of an outcome isn't the number of edits accepted before its place in the journal, or that place is past the journal",
        Finding::DemandsDiffer =>
            "the demands of a plan aren't those of the network after the edits before it",
        Finding::Survivable => "a state is said to separate a demand, and doesn't",
        Finding::BadPath(_, _) => "a flow follows no path of its demand that its state leaves",
        Finding::NotCarried(_, _) => "the flows of a demand don't sum to what it needs",
        Finding::Overloaded(_, _) => "the flows over a link are more than its capacity",
        Finding::CostDiffers(_, _) => "the cost isn't what the modules and setups cost",
        Finding::LocalCut(_) =>
            "a cut of the certificate isn't in the pool, which has room for it, or is none in its state",
        Finding::RightDiffers(_, _, _) =>
            "the right side of a cut of the certificate is another one at the plan's demands",
        Finding::PriceExceeded(_, _) => "the certificate asks more for a module than it costs",
        Finding::CertificateWide => "a sum of the certificate is too large",
        Finding::RawDiffers => "the raw value isn't that of the certificate in lowest terms",
        Finding::BoundDiffers(_, _) => "the bound isn't what the raw value rounds up to",
        Finding::NotTight =>
            "the fractional capacities don't cost the raw value, or don't carry the demands in a state",
    }
}

/// What is wrong with a report that was read and isn't accepted, by its first finding. It takes no memory.
pub fn finding_sentence(finding: Finding) -> Sentence
    ensures { HasWords result (finding_message finding) }
{
    Sentence {
        wrong: finding_wrong(finding),
        help: "the report isn't one that the planner prints for these files; nothing of it is shown",
    }
}
