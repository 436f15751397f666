use net_core::{Copied, LinkId, NoMemory, Path};

/// A column of a basis beside the keys.
#[derive(Drop)]
pub enum Column {
    /// What the link at this place has left.
    Slack(usize),
    /// A path of the demand at this place.
    Carry(usize, Path),
}

/// The number at a link's place, and 0 where there is none.
fn number_at(nums: &[i64], at: usize) -> i64 {
    if at < nums.len() { nums[at] } else { 0 }
}

/// The sum of numbers, one for each link, along a path; a link past the last one counts nothing. It takes time in the path's links.
pub fn along(nums: &[i64], path: &[LinkId]) -> i64 {
    let mut sum = 0i64;
    for link in path {
        sum = sum.wrapping_add(number_at(nums, link.0 as usize));
    }
    sum
}

/// The key path of a demand.
pub(crate) fn key_of(keys: &[Path], demand: usize) -> &[LinkId] {
    if demand < keys.len() {
        keys[demand].items()
    } else {
        &[]
    }
}

/// What a path has more of some numbers, one for each link, than its demand's key. It takes time in the links of both.
pub fn beyond_key(nums: &[i64], keys: &[Path], demand: usize, path: &[LinkId]) -> i64 {
    along(nums, path).wrapping_sub(along(nums, key_of(keys, demand)))
}

/// The product of a row's numbers with a column, whose demand's key makes up for what a path carries.
pub(crate) fn product_with(nums: &[i64], keys: &[Path], column: &Column) -> i64 {
    match column {
        Column::Slack(link) => number_at(nums, *link),
        Column::Carry(demand, path) => beyond_key(nums, keys, *demand, path.items()),
    }
}

impl Column {
    /// A copy.
    pub(crate) fn copy(&self) -> Result<Column, NoMemory> {
        match self {
            Column::Slack(link) => Ok(Column::Slack(*link)),
            Column::Carry(demand, path) => Ok(Column::Carry(*demand, path.copy()?)),
        }
    }

    /// The demand of a path.
    pub(crate) fn demand(&self) -> Option<usize> {
        match self {
            Column::Slack(_) => None,
            Column::Carry(demand, _) => Some(*demand),
        }
    }
}
