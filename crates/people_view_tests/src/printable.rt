use net_core::{Bytes, Problem};
use people_files::Halt;
use people_views::{ViewForm, picture_form, view_report};
use plan_view::Sheet;
use sndlib_reader::read_network;
use std::alloc::Global;
use worked_networks::problem;

/// Every printable byte that a name may have: all but the parentheses.
const NAME: &str =
    "!\"#$%&'*+,-./0123456789:;<=>?@ABCDEFGHIJKLMNOPQRSTUVWXYZ[\\]^_`abcdefghijklmnopqrstuvwxyz{|}~";

/// A network of two nodes and two links between them. One node and one link have that name.
const NETWORK: &str = "?SNDlib native format; type: network; version: 1.0
NODES ( !\"#$%&'*+,-./0123456789:;<=>?@ABCDEFGHIJKLMNOPQRSTUVWXYZ[\\]^_`abcdefghijklmnopqrstuvwxyz{|}~ B )
LINKS ( !\"#$%&'*+,-./0123456789:;<=>?@ABCDEFGHIJKLMNOPQRSTUVWXYZ[\\]^_`abcdefghijklmnopqrstuvwxyz{|}~ ( !\"#$%&'*+,-./0123456789:;<=>?@ABCDEFGHIJKLMNOPQRSTUVWXYZ[\\]^_`abcdefghijklmnopqrstuvwxyz{|}~ B ) 0 0 0 0 ( 10 5 ) b ( !\"#$%&'*+,-./0123456789:;<=>?@ABCDEFGHIJKLMNOPQRSTUVWXYZ[\\]^_`abcdefghijklmnopqrstuvwxyz{|}~ B ) 0 0 0 0 ( 10 5 ) )
DEMANDS ( )
";

/// A report of a plan of 5.00 from the one to the other, where each link fails alone.
const REPORT: &str = "?planner report; version: 1
NOTES ( ) JOURNAL ( ) POOL ( )
OUTCOMES ( PLAN ( caller 1 plan 1 version 0 position 0
  DEMANDS ( A ( !\"#$%&'*+,-./0123456789:;<=>?@ABCDEFGHIJKLMNOPQRSTUVWXYZ[\\]^_`abcdefghijklmnopqrstuvwxyz{|}~ B ) 5.000 )
  cost 10.000 bound 0.000 raw 0 1
  MODULES ( !\"#$%&'*+,-./0123456789:;<=>?@ABCDEFGHIJKLMNOPQRSTUVWXYZ[\\]^_`abcdefghijklmnopqrstuvwxyz{|}~ ( 1 ) b ( 1 ) )
  CERTIFICATE ( 1 )
  ROUTES (
    state 0 none 1 ( A 5000 ( !\"#$%&'*+,-./0123456789:;<=>?@ABCDEFGHIJKLMNOPQRSTUVWXYZ[\\]^_`abcdefghijklmnopqrstuvwxyz{|}~ ) )
    state 1 !\"#$%&'*+,-./0123456789:;<=>?@ABCDEFGHIJKLMNOPQRSTUVWXYZ[\\]^_`abcdefghijklmnopqrstuvwxyz{|}~ 1 ( A 5000 ( b ) )
    state 2 b 1 ( A 5000 ( !\"#$%&'*+,-./0123456789:;<=>?@ABCDEFGHIJKLMNOPQRSTUVWXYZ[\\]^_`abcdefghijklmnopqrstuvwxyz{|}~ ) )
  )
  loose cuts
) )
";

/// A sheet of the report, or its picture in the state in which the link of that name fails, and the text.
type Row = (Option<Sheet>, &'static str);

const ROWS: [Row; 4] = [
    (
        Some(Sheet::Links),
        "caller,plan,link,from,to,modules,capacity,normal,worst,used_percent,state,cost
1,1,\"!\"\"#$%&'*+,-./0123456789:;<=>?@ABCDEFGHIJKLMNOPQRSTUVWXYZ[\\]^_`abcdefghijklmnopqrstuvwxyz{|}~\",\"!\"\"#$%&'*+,-./0123456789:;<=>?@ABCDEFGHIJKLMNOPQRSTUVWXYZ[\\]^_`abcdefghijklmnopqrstuvwxyz{|}~\",B,1 x 10.000,10.000,5.000,5.000,50,none,5.000
1,1,b,\"!\"\"#$%&'*+,-./0123456789:;<=>?@ABCDEFGHIJKLMNOPQRSTUVWXYZ[\\]^_`abcdefghijklmnopqrstuvwxyz{|}~\",B,1 x 10.000,10.000,0.000,5.000,50,\"!\"\"#$%&'*+,-./0123456789:;<=>?@ABCDEFGHIJKLMNOPQRSTUVWXYZ[\\]^_`abcdefghijklmnopqrstuvwxyz{|}~\",5.000
",
    ),
    (
        Some(Sheet::States),
        "caller,plan,state,links_out,rerouted,fullest_link,used_percent,bound_percent
1,1,none,,0.000,\"!\"\"#$%&'*+,-./0123456789:;<=>?@ABCDEFGHIJKLMNOPQRSTUVWXYZ[\\]^_`abcdefghijklmnopqrstuvwxyz{|}~\",50,0.0
1,1,\"!\"\"#$%&'*+,-./0123456789:;<=>?@ABCDEFGHIJKLMNOPQRSTUVWXYZ[\\]^_`abcdefghijklmnopqrstuvwxyz{|}~\",\"!\"\"#$%&'*+,-./0123456789:;<=>?@ABCDEFGHIJKLMNOPQRSTUVWXYZ[\\]^_`abcdefghijklmnopqrstuvwxyz{|}~\",5.000,b,50,0.0
1,1,b,b,0.000,\"!\"\"#$%&'*+,-./0123456789:;<=>?@ABCDEFGHIJKLMNOPQRSTUVWXYZ[\\]^_`abcdefghijklmnopqrstuvwxyz{|}~\",50,0.0
",
    ),
    (
        Some(Sheet::Flows),
        "caller,plan,state,demand,from,to,amount,nodes,links
1,1,none,A,\"!\"\"#$%&'*+,-./0123456789:;<=>?@ABCDEFGHIJKLMNOPQRSTUVWXYZ[\\]^_`abcdefghijklmnopqrstuvwxyz{|}~\",B,5.000,\"!\"\"#$%&'*+,-./0123456789:;<=>?@ABCDEFGHIJKLMNOPQRSTUVWXYZ[\\]^_`abcdefghijklmnopqrstuvwxyz{|}~ B\",\"!\"\"#$%&'*+,-./0123456789:;<=>?@ABCDEFGHIJKLMNOPQRSTUVWXYZ[\\]^_`abcdefghijklmnopqrstuvwxyz{|}~\"
1,1,\"!\"\"#$%&'*+,-./0123456789:;<=>?@ABCDEFGHIJKLMNOPQRSTUVWXYZ[\\]^_`abcdefghijklmnopqrstuvwxyz{|}~\",A,\"!\"\"#$%&'*+,-./0123456789:;<=>?@ABCDEFGHIJKLMNOPQRSTUVWXYZ[\\]^_`abcdefghijklmnopqrstuvwxyz{|}~\",B,5.000,\"!\"\"#$%&'*+,-./0123456789:;<=>?@ABCDEFGHIJKLMNOPQRSTUVWXYZ[\\]^_`abcdefghijklmnopqrstuvwxyz{|}~ B\",b
1,1,b,A,\"!\"\"#$%&'*+,-./0123456789:;<=>?@ABCDEFGHIJKLMNOPQRSTUVWXYZ[\\]^_`abcdefghijklmnopqrstuvwxyz{|}~\",B,5.000,\"!\"\"#$%&'*+,-./0123456789:;<=>?@ABCDEFGHIJKLMNOPQRSTUVWXYZ[\\]^_`abcdefghijklmnopqrstuvwxyz{|}~ B\",\"!\"\"#$%&'*+,-./0123456789:;<=>?@ABCDEFGHIJKLMNOPQRSTUVWXYZ[\\]^_`abcdefghijklmnopqrstuvwxyz{|}~\"
",
    ),
    (
        None,
        "<svg xmlns=\"http://www.w3.org/2000/svg\" viewBox=\"0 0 9600 7200\" font-family=\"sans-serif\" font-size=\"120\">
<style>path{fill:none;stroke-linecap:round}text{text-anchor:middle;paint-order:stroke;stroke:#fff;stroke-width:30px}
.k,.n text{text-anchor:start}.n{font-weight:bold}.lo{stroke:#2b7bba}.mi{stroke:#e08a00}.hi{stroke:#c0182b}.no{stroke-dasharray:60 50}
.out{stroke:#999;stroke-dasharray:20 50}.x{font-size:260px;font-weight:bold}.p{stroke:#7a3ea8;stroke-opacity:.35;stroke-width:140}</style>
<rect width=\"9600\" height=\"7200\" fill=\"#fff\"/>
<text class=\"k n\" x=\"400\" y=\"280\">!&quot;#$%&amp;&#39;*+,-./0123456789:;&lt;=&gt;?@ABCDEFGHIJKLMNOPQRSTUVWXYZ[\\]^_`abcdefghijklmnopqrstuvwxyz{|}~, state !&quot;#$%&amp;&#39;*+,-./0123456789:;&lt;=&gt;?@ABCDEFGHIJKLMNOPQRSTUVWXYZ[\\]^_`abcdefghijklmnopqrstuvwxyz{|}~</text>
<path class=\"p\" d=\"M4800 600Q4440 3300 4800 6000\"/>
<g><path class=\"lo out\" stroke-width=\"80\" d=\"M4800 600L4800 6000\"/><title>!&quot;#$%&amp;&#39;*+,-./0123456789:;&lt;=&gt;?@ABCDEFGHIJKLMNOPQRSTUVWXYZ[\\]^_`abcdefghijklmnopqrstuvwxyz{|}~: 1 x 10.000, cost 5.000, 5.000 of 10.000 in state none</title><text class=\"x\" x=\"4800\" y=\"3300\">&#215;</text></g>
<g><path class=\"lo\" stroke-width=\"80\" d=\"M4800 600Q4440 3300 4800 6000\"/><title>b: 1 x 10.000, cost 5.000, 5.000 of 10.000 in state !&quot;#$%&amp;&#39;*+,-./0123456789:;&lt;=&gt;?@ABCDEFGHIJKLMNOPQRSTUVWXYZ[\\]^_`abcdefghijklmnopqrstuvwxyz{|}~; other paths: 5.000</title><text x=\"4620\" y=\"3300\">50</text></g>
<circle r=\"50\" cx=\"4800\" cy=\"600\"/>
<circle r=\"50\" cx=\"4800\" cy=\"6000\"/>
<g class=\"n\" transform=\"translate(80 -70)\">
<text x=\"4800\" y=\"600\">!&quot;#$%&amp;&#39;*+,-./0123456789:;&lt;=&gt;?@ABCDEFGHIJKLMNOPQRSTUVWXYZ[\\]^_`abcdefghijklmnopqrstuvwxyz{|}~</text>
<text x=\"4800\" y=\"6000\">B</text>
</g>
<path class=\"lo\" stroke-width=\"50\" d=\"M400 6600H800\"/><text class=\"k\" x=\"880\" y=\"6640\">below 60 %</text>
<path class=\"mi\" stroke-width=\"50\" d=\"M1800 6600H2200\"/><text class=\"k\" x=\"2280\" y=\"6640\">below 85 %</text>
<path class=\"hi\" stroke-width=\"50\" d=\"M3200 6600H3600\"/><text class=\"k\" x=\"3680\" y=\"6640\">85 % and more</text>
<path class=\"lo no\" stroke-width=\"50\" d=\"M4800 6600H5200\"/><text class=\"k\" x=\"5280\" y=\"6640\">nothing bought</text>
<text class=\"k\" x=\"400\" y=\"6840\">Numbers and colours are the worst use in per cent, widths the capacities.</text>
<path class=\"out\" stroke-width=\"50\" d=\"M6400 6600H6800\"/><text class=\"k\" x=\"6880\" y=\"6640\">out</text>
<path class=\"p\" d=\"M7400 6600H7800\"/><text class=\"k\" x=\"7920\" y=\"6640\">other paths</text>
<text class=\"k\" x=\"400\" y=\"7040\">The file doesn't say where each node stands, so they stand on a circle.</text>
</svg>
",
    ),
];

/// The network, and its demand of 5.00.
fn named(alloc: Global) -> Option<Problem> {
    let (net, _none) = read_network(alloc, NETWORK.as_bytes()).ok()?;
    problem(alloc, net, &[(0, 1, 5000)]).ok()
}

/// The view of the report in the form of a row, or why there is none.
fn text_of(alloc: Global, p: &Problem, row: &Row) -> Result<Bytes, Halt> {
    let bytes = REPORT.as_bytes();
    match row.0 {
        Some(sheet) => {
            let form = ViewForm::Values(sheet);
            view_report(alloc, NAME, "report", p, bytes, form)
        }
        None => {
            let form = picture_form(alloc, p, NAME, &[])?;
            view_report(alloc, NAME, "report", p, bytes, form)
        }
    }
}

/// Whether the report has the text of a row; `None` if memory runs out.
fn has_text(alloc: Global, row: &Row) -> Option<bool> {
    let p = named(alloc)?;
    match text_of(alloc, &p, row) {
        Ok(text) => Some(text.items() == row.1.as_bytes()),
        Err(_) => None,
    }
}

/// The first row whose text isn't the expected one.
fn first_wrong(alloc: Global) -> usize {
    for i in 0..ROWS.len() {
        if has_text(alloc, &ROWS[i]) != Some(true) {
            return i;
        }
    }
    ROWS.len()
}

#[test]
fn names_of_every_byte_are_escaped(rt: HostRuntime) {
    assert_eq!(rt; first_wrong(rt.alloc()), 4);
}
