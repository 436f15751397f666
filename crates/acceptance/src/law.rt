ghost use Rattle.acceptance.{specs.Laws.{SnapshotPlansAreAccepted, SoundPlansAreAccepted}, specs.Reports.SoundReportsAreAccepted, specs.Transcripts.{TranscriptsAreAccepted, TranscriptsAreSound}};

/// A plan whose parts are sound has no finding. The call does nothing, and takes no time.
pub fn sound_plans_are_accepted()
    ensures { SoundPlansAreAccepted }
{}

/// A plan of a snapshot has no finding for the snapshot's demands where the pool counts as full. The call does nothing, and takes no time.
pub fn snapshot_plans_are_accepted()
    ensures { SnapshotPlansAreAccepted }
{}

/// A report of a legal history whose outcomes are sound has no finding. The call does nothing, and takes no time.
pub fn sound_reports_are_accepted()
    ensures { SoundReportsAreAccepted }
{}

/// A transcript of at most 1,000 commands has no finding, and no counts that can carry a plan's demands cost less than the plan's bound.
/// The call does nothing, and takes no time.
pub fn transcripts_are_accepted()
    ensures { TranscriptsAreAccepted }
{}

/// Each outcome of a transcript of at most 1,000 commands is sound by itself. The call does nothing, and takes no time.
pub fn transcripts_are_sound()
    ensures { TranscriptsAreSound }
{}
