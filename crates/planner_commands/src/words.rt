ghost use Rattle.std.specs.Prelude.{◌≤◌};

use input_files::PlanFiles;

/// The files of a planning, and one more file.
#[derive(Clone, Copy)]
pub struct FourFiles<'w> {
    pub files: PlanFiles<'w>,
    pub last: &'w str,
}

/// The most splits that a branch tree may have, from 1 to 9,999, and the files of a planning.
#[derive(Clone, Copy)]
pub struct ProofWords<'w> {
    pub limit: u32,
    pub files: PlanFiles<'w>,
    pub ghost range: { (1 ≤ limit) × (limit ≤ 9999) },
}

/// The seed of a sample, and its number of nodes, from 4 to 40.
#[derive(Clone, Copy)]
pub struct SampleWords {
    pub seed: u64,
    pub nodes: u32,
    pub ghost range: { (4 ≤ nodes) × (nodes ≤ 40) },
}

/// The command that a run carries out.
#[derive(Clone, Copy)]
pub enum Command<'w> {
    /// Plan, and write the report.
    Plan(PlanFiles<'w>),
    /// Run a script, and write its report.
    Session(FourFiles<'w>),
    /// Check a report.
    Check(FourFiles<'w>),
    /// Plan, take modules off until none can be spared, and write the report.
    Trim(PlanFiles<'w>),
    /// Plan, search for a branch tree, and write the report with it.
    Prove(ProofWords<'w>),
    /// Plan, put the design of a file of flows in the plan's place, and write the report.
    Import(FourFiles<'w>),
    /// Plan a sample network, and write a summary.
    Sample(SampleWords),
}
