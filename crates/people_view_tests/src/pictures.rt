use crate::texts::{EMPTY, REPORT};
use crate::views::worked;
use net_core::{Bytes, Problem};
use node_places::{Place, node_places};
use people_files::Halt;
use people_views::{picture_form, view_report};
use std::alloc::Global;

/// A report, the nodes of the network's file, a state, and the picture.
type Row = (&'static str, &'static str, &'static str, &'static str);

const ROWS: [Row; 3] = [
    (
        REPORT,
        "NODES ( A B ( 1 1 ) C )",
        "none",
        "<svg xmlns=\"http://www.w3.org/2000/svg\" viewBox=\"0 0 9600 7200\" font-family=\"sans-serif\" font-size=\"120\">
<style>path{fill:none;stroke-linecap:round}text{text-anchor:middle;paint-order:stroke;stroke:#fff;stroke-width:30px}
.k,.n text{text-anchor:start}.n{font-weight:bold}.lo{stroke:#2b7bba}.mi{stroke:#e08a00}.hi{stroke:#c0182b}.no{stroke-dasharray:60 50}
.out{stroke:#999;stroke-dasharray:20 50}.x{font-size:260px;font-weight:bold}.p{stroke:#7a3ea8;stroke-opacity:.35;stroke-width:140}</style>
<rect width=\"9600\" height=\"7200\" fill=\"#fff\"/>
<text class=\"k n\" x=\"400\" y=\"280\">triangle.txt, state none</text>
<g><path class=\"mi\" stroke-width=\"80\" d=\"M4800 600L7134 4650\"/><title>AB: 2 x 10.000, cost 10.000, 12.000 of 20.000 in state AC</title><text x=\"5967\" y=\"2625\">60</text></g>
<g><path class=\"mi\" stroke-width=\"80\" d=\"M7134 4650L2466 4650\"/><title>BC: 2 x 10.000, cost 10.000, 12.000 of 20.000 in state AC</title><text x=\"4800\" y=\"4650\">60</text></g>
<g><path class=\"mi\" stroke-width=\"80\" d=\"M4800 600L2466 4650\"/><title>AC: 2 x 10.000, cost 10.000, 12.000 of 20.000 in state none</title><text x=\"3633\" y=\"2625\">60</text></g>
<circle r=\"50\" cx=\"4800\" cy=\"600\"/>
<circle r=\"50\" cx=\"7134\" cy=\"4650\"/>
<circle r=\"50\" cx=\"2466\" cy=\"4650\"/>
<g class=\"n\" transform=\"translate(80 -70)\">
<text x=\"4800\" y=\"600\">A</text>
<text x=\"7134\" y=\"4650\">B</text>
<text x=\"2466\" y=\"4650\">C</text>
</g>
<path class=\"lo\" stroke-width=\"50\" d=\"M400 6600H800\"/><text class=\"k\" x=\"880\" y=\"6640\">below 60 %</text>
<path class=\"mi\" stroke-width=\"50\" d=\"M1800 6600H2200\"/><text class=\"k\" x=\"2280\" y=\"6640\">below 85 %</text>
<path class=\"hi\" stroke-width=\"50\" d=\"M3200 6600H3600\"/><text class=\"k\" x=\"3680\" y=\"6640\">85 % and more</text>
<path class=\"lo no\" stroke-width=\"50\" d=\"M4800 6600H5200\"/><text class=\"k\" x=\"5280\" y=\"6640\">nothing bought</text>
<text class=\"k\" x=\"400\" y=\"6840\">Numbers and colours are the worst use in per cent, widths the capacities.</text>
<text class=\"k\" x=\"400\" y=\"7040\">The file doesn't say where each node stands, so they stand on a circle.</text>
</svg>
",
    ),
    (
        REPORT,
        "NODES ( A ( 0.0 0 ) B ( 10, 0 ) C ( 5.0 10.0 ) )",
        "AC",
        "<svg xmlns=\"http://www.w3.org/2000/svg\" viewBox=\"0 0 9600 7200\" font-family=\"sans-serif\" font-size=\"120\">
<style>path{fill:none;stroke-linecap:round}text{text-anchor:middle;paint-order:stroke;stroke:#fff;stroke-width:30px}
.k,.n text{text-anchor:start}.n{font-weight:bold}.lo{stroke:#2b7bba}.mi{stroke:#e08a00}.hi{stroke:#c0182b}.no{stroke-dasharray:60 50}
.out{stroke:#999;stroke-dasharray:20 50}.x{font-size:260px;font-weight:bold}.p{stroke:#7a3ea8;stroke-opacity:.35;stroke-width:140}</style>
<rect width=\"9600\" height=\"7200\" fill=\"#fff\"/>
<text class=\"k n\" x=\"400\" y=\"280\">triangle.txt, state AC</text>
<path class=\"p\" d=\"M2111 6000L7489 6000M7489 6000L4800 600\"/>
<g><path class=\"mi\" stroke-width=\"80\" d=\"M2111 6000L7489 6000\"/><title>AB: 2 x 10.000, cost 10.000, 12.000 of 20.000 in state AC; other paths: 12.000</title><text x=\"4800\" y=\"6000\">60</text></g>
<g><path class=\"mi\" stroke-width=\"80\" d=\"M7489 6000L4800 600\"/><title>BC: 2 x 10.000, cost 10.000, 12.000 of 20.000 in state AC; other paths: 12.000</title><text x=\"6144\" y=\"3300\">60</text></g>
<g><path class=\"mi out\" stroke-width=\"80\" d=\"M2111 6000L4800 600\"/><title>AC: 2 x 10.000, cost 10.000, 12.000 of 20.000 in state none</title><text class=\"x\" x=\"3455\" y=\"3300\">&#215;</text></g>
<circle r=\"50\" cx=\"2111\" cy=\"6000\"/>
<circle r=\"50\" cx=\"7489\" cy=\"6000\"/>
<circle r=\"50\" cx=\"4800\" cy=\"600\"/>
<g class=\"n\" transform=\"translate(80 -70)\">
<text x=\"2111\" y=\"6000\">A</text>
<text x=\"7489\" y=\"6000\">B</text>
<text x=\"4800\" y=\"600\">C</text>
</g>
<path class=\"lo\" stroke-width=\"50\" d=\"M400 6600H800\"/><text class=\"k\" x=\"880\" y=\"6640\">below 60 %</text>
<path class=\"mi\" stroke-width=\"50\" d=\"M1800 6600H2200\"/><text class=\"k\" x=\"2280\" y=\"6640\">below 85 %</text>
<path class=\"hi\" stroke-width=\"50\" d=\"M3200 6600H3600\"/><text class=\"k\" x=\"3680\" y=\"6640\">85 % and more</text>
<path class=\"lo no\" stroke-width=\"50\" d=\"M4800 6600H5200\"/><text class=\"k\" x=\"5280\" y=\"6640\">nothing bought</text>
<text class=\"k\" x=\"400\" y=\"6840\">Numbers and colours are the worst use in per cent, widths the capacities.</text>
<path class=\"out\" stroke-width=\"50\" d=\"M6400 6600H6800\"/><text class=\"k\" x=\"6880\" y=\"6640\">out</text>
<path class=\"p\" d=\"M7400 6600H7800\"/><text class=\"k\" x=\"7920\" y=\"6640\">other paths</text>
</svg>
",
    ),
    (
        EMPTY,
        "NODES ( )",
        "none",
        "<svg xmlns=\"http://www.w3.org/2000/svg\" viewBox=\"0 0 9600 7200\" font-family=\"sans-serif\" font-size=\"120\">
<text x=\"400\" y=\"280\">The report has no plan.</text>
</svg>
",
    ),
];

/// The picture of the report of a row, with the nodes at these places.
fn picture_of(
    alloc: Global,
    p: &Problem,
    places: &[Option<Place>],
    row: &Row,
) -> Result<Bytes, Halt> {
    let form = picture_form(alloc, p, row.2, places)?;
    view_report(alloc, "triangle.txt", "report", p, row.0.as_bytes(), form)
}

/// Whether the report of a row has the picture that the row says; `None` if memory runs out.
fn has_picture(alloc: Global, row: &Row) -> Option<bool> {
    let p = worked(alloc)?;
    let places = node_places(alloc, row.1.as_bytes()).ok()?;
    match picture_of(alloc, &p, places.items(), row) {
        Ok(text) => Some(text.items() == row.3.as_bytes()),
        Err(_) => None,
    }
}

/// The first row whose report has another picture.
fn first_wrong(alloc: Global) -> usize {
    for i in 0..ROWS.len() {
        if has_picture(alloc, &ROWS[i]) != Some(true) {
            return i;
        }
    }
    ROWS.len()
}

#[test]
fn pictures_are_as_worked_out(rt: HostRuntime) {
    assert_eq!(rt; first_wrong(rt.alloc()), 3);
}
