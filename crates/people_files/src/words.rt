use input_files::PlanFiles;

/// The files of a planning by their names, and whether the failure of each single link is to be survived, for which no list is named.
#[derive(Clone, Copy)]
pub struct CaseFiles<'w> {
    pub files: PlanFiles<'w>,
    pub survive: bool,
}
