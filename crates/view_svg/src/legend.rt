ghost use Rattle.std.specs.Prelude.{◌≡◌, ◌++◌, [], OnOk, cond};
ghost use Rattle.view_svg.specs.Pictures.{beginning, ending};

use crate::escape::put_escaped;
use net_core::{Bytes, NoMemory};
use std::alloc::Global;

/// The size of the picture, and how its parts look.
const HEAD: &[u8] =
    b"<svg xmlns=\"http://www.w3.org/2000/svg\" viewBox=\"0 0 9600 7200\" font-family=\"sans-serif\" font-size=\"120\">
<style>path{fill:none;stroke-linecap:round}text{text-anchor:middle;paint-order:stroke;stroke:#fff;stroke-width:30px}
.k,.n text{text-anchor:start}.n{font-weight:bold}.lo{stroke:#2b7bba}.mi{stroke:#e08a00}.hi{stroke:#c0182b}.no{stroke-dasharray:60 50}
.out{stroke:#999;stroke-dasharray:20 50}.x{font-size:260px;font-weight:bold}.p{stroke:#7a3ea8;stroke-opacity:.35;stroke-width:140}</style>
<rect width=\"9600\" height=\"7200\" fill=\"#fff\"/>
";

/// What lines and numbers mean.
const KEY: &[u8] =
    b"<path class=\"lo\" stroke-width=\"50\" d=\"M400 6600H800\"/><text class=\"k\" x=\"880\" y=\"6640\">below 60 %</text>
<path class=\"mi\" stroke-width=\"50\" d=\"M1800 6600H2200\"/><text class=\"k\" x=\"2280\" y=\"6640\">below 85 %</text>
<path class=\"hi\" stroke-width=\"50\" d=\"M3200 6600H3600\"/><text class=\"k\" x=\"3680\" y=\"6640\">85 % and more</text>
<path class=\"lo no\" stroke-width=\"50\" d=\"M4800 6600H5200\"/><text class=\"k\" x=\"5280\" y=\"6640\">nothing bought</text>
<text class=\"k\" x=\"400\" y=\"6840\">Numbers and colours are the worst use in per cent, widths the capacities.</text>
";

/// What lines mean that only a state with failures has.
const OUT: &[u8] =
    b"<path class=\"out\" stroke-width=\"50\" d=\"M6400 6600H6800\"/><text class=\"k\" x=\"6880\" y=\"6640\">out</text>
<path class=\"p\" d=\"M7400 6600H7800\"/><text class=\"k\" x=\"7920\" y=\"6640\">other paths</text>
";

const CIRCLE: &[u8] =
    b"<text class=\"k\" x=\"400\" y=\"7040\">The file doesn't say where each node stands, so they stand on a circle.</text>\n";

/// Puts the beginning of a picture last, with the names of the network and the state.
pub(crate) fn put_beginning(
    text: &mut Bytes,
    alloc: Global,
    network: &[u8],
    state: &[u8],
) -> Result<(), NoMemory>
    ensures { OnOk result (text.new ≡ text.old ++ beginning network.now state.now) }
{
    text.append(HEAD)?;
    text.append(b"<text class=\"k n\" x=\"400\" y=\"280\">")?;
    put_escaped(text, alloc, network)?;
    text.append(b", state ")?;
    put_escaped(text, alloc, state)?;
    text.append(b"</text>\n")
}

/// Puts a note last, if it is to be shown.
fn put_note(text: &mut Bytes, note: &[u8], shown: bool) -> Result<(), NoMemory>
    ensures { OnOk result (text.new ≡ text.old ++ cond shown note.now []) }
{
    if shown {
        return text.append(note);
    }
    Ok(())
}

/// Puts the end of a picture last: what it shows, and whether the nodes are where the file says.
pub(crate) fn put_ending(text: &mut Bytes, is_map: bool, fails: bool) -> Result<(), NoMemory>
    ensures { OnOk result (text.new ≡ text.old ++ ending is_map fails) }
{
    text.append(KEY)?;
    put_note(text, OUT, fails)?;
    put_note(text, CIRCLE, !is_map)?;
    text.append(b"</svg>\n")
}
