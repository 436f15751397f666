/// The word for a model or a failure list that is in no file.
pub const DEFAULT: &str = "default";

/// The files of a planning, by their names. A model or a failure list that is in no file is `default`.
#[derive(Clone, Copy)]
pub struct PlanFiles<'w> {
    pub network: &'w str,
    pub model: &'w str,
    pub failures: &'w str,
}
