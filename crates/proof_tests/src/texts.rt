use net_core::{Bytes, List, NoMemory, Problem};
use report_words::fault::ReportRefusal;
use std::alloc::Global;
use tree_reader::{ReadTree, read_tree};

/// The last tokens of a report, before its tree.
const REPORT: &[u8] = b"OUTCOMES ( )\n";

/// The place after the report's last token.
const END: usize = 12;

/// The triangle's tree: two modules on each link are cheapest.
pub(crate) const TREE: [&[u8]; 16] = [
    b"# box-cut 0 0 12000 1 0 1\n",
    b"# box-cut 1 0 12000 0 1 1\n",
    b"# box-cut 2 2 12000 0 0 1\n",
    b"# box-cut 3 3 24000 1 1 0\n",
    b"# box-cut 4 1 12000 0 0 1\n",
    b"# box-cut 5 2 12000 1 0 1\n",
    b"# box-cut 6 3 12000 1 0 0\n",
    b"# box-cut 7 3 12000 0 1 0\n",
    b"# split AC 0 1\n",
    b"# empty 4\n",
    b"# split AB 0 1\n",
    b"# empty 6\n",
    b"# split BC 0 0\n",
    b"# empty 7\n",
    b"# closed 2 1 7\n",
    b"# cheapest\n",
];

/// A tree with lines of each kind, with their greatest numbers.
pub(crate) const LINED_TREE: [&[u8]; 8] = [
    b"# box-cut 0 1 12000 0 0 1\n",
    b"# line 1 10000 3 0\n",
    b"# table 2 0 failing 1 2\n",
    b"# table 3 0 plain 4294967295\n",
    b"# split AC 0 18446744073709551615\n",
    b"# stuck 1 wide route 0 1 ( 1 2 3 ) ( link AB link BC link AC demand A ) common\n",
    b"# spent 2 1 0 2 1\n",
    b"# above 25.000\n",
];

/// The end of a report with a tree below it, one line of which is replaced.
pub(crate) fn changed(
    alloc: Global,
    lines: &[&[u8]],
    place: usize,
    by: &[u8],
) -> Result<Bytes, NoMemory> {
    let mut text = List::from_slice(alloc, REPORT)?;
    for i in 0..lines.len() {
        text.append(if i == place { by } else { lines[i] })?;
    }
    Ok(text)
}

/// The tree of such a text, after the report's last token.
pub(crate) fn read(alloc: Global, p: &Problem, text: &[u8]) -> Result<ReadTree, ReportRefusal> {
    let end = if text.len() < END { text.len() } else { END };
    read_tree(alloc, &p.net, &p.states, &p.demands, text, end as u64)
}
