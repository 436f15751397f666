ghost use Rattle.std.specs.Prelude.{◌≡◌, ◌++◌, OnOk};
ghost use Rattle.plan_progress.specs.ProgressLines.{HasSplitLine, round_line, split_costs, split_line, split_rest, worth};

use net_core::{Bytes, NoMemory, Places};
use outside_io::{RoundFigures, TreeFigures};
use plan_view::gap_of;
use text_kit::write::{put_decimal, put_money_word};
use view_cells::cells::{put_counted, put_tenths};

/// The value of a certificate in whole units of the network, rounded down; 0 if it has none.
fn worth(figures: &RoundFigures) -> u128
    ensures { result ≡ worth figures.now }
{
    figures.raw_num.checked_div(figures.raw_den).unwrap_or(0)
}

/// Appends the line of a round, with money in a network's decimal places. It takes time in the line's length, and asks for memory only if
/// the text has no room left.
pub fn put_round(text: &mut Bytes, places: Places, figures: &RoundFigures) -> Result<(), NoMemory>
    ensures { OnOk result (text.new ≡ text.old ++ round_line places figures.now) }
{
    text.append(b"round ")?;
    put_decimal(text, figures.round as u128)?;
    text.append(b": ")?;
    put_counted(text, figures.cuts, b"cut", b"cuts")?;
    text.append(b", worth ")?;
    put_money_word(text, places, worth(figures))?;
    text.append(b", ")?;
    put_counted(text, figures.routed, b"state", b"states")?;
    text.append(b" carried\n")
}

/// Appends what is told of the splits and of the costs.
fn put_split_costs(text: &mut Bytes, places: Places, figures: &TreeFigures) -> Result<(), NoMemory>
    ensures { OnOk result (text.new ≡ text.old ++ split_costs places figures.now) }
{
    text.append(b"tree: ")?;
    put_decimal(text, figures.splits as u128)?;
    text.append(b" of ")?;
    put_counted(text, figures.limit as usize, b"split", b"splits")?;
    text.append(b", cost ")?;
    put_money_word(text, places, figures.cost)?;
    text.append(b", at least ")?;
    put_money_word(text, places, figures.bound)
}

/// Appends what is told of the gap, in tenths of a per cent, and of the open boxes.
fn put_split_rest(text: &mut Bytes, figures: &TreeFigures, gap: u32) -> Result<(), NoMemory>
    ensures { OnOk result (text.new ≡ text.old ++ split_rest figures.now gap) }
{
    text.append(b", gap ")?;
    put_tenths(text, gap)?;
    text.append(b", ")?;
    put_counted(text, figures.open, b"box", b"boxes")?;
    text.append(b" open\n")
}

/// Appends the line of a split, with this gap in tenths of a per cent.
fn put_split_gap(
    text: &mut Bytes,
    places: Places,
    figures: &TreeFigures,
    gap: u32,
) -> Result<(), NoMemory>
    ensures { OnOk result (text.new ≡ text.old ++ split_line places figures.now gap) }
{
    put_split_costs(text, places, figures)?;
    put_split_rest(text, figures, gap)
}

/// Appends the line of a split, with money in a network's decimal places. It takes time in the gap's tenths of a per cent.
pub fn put_split(text: &mut Bytes, places: Places, figures: &TreeFigures) -> Result<(), NoMemory>
    ensures { OnOk result (HasSplitLine places figures.now text.old text.new) }
{
    let gap = gap_of(figures.cost, figures.bound);
    put_split_gap(text, places, figures, gap)
}
