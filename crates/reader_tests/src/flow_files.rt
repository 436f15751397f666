use crate::files::{Format, first_difference};

const HEADER: &[u8] = b"?planner flows; version: 1\n";

/// A file with the header of another version.
const OTHER_HEADER: &[u8] = b"0 header|?planner flows; version: 2~
";

/// Names, counts, amounts, parts and flows at their limits and beyond them. The rows are written by bench/flow_files/rows.py.
const LIMITS: &[u8] = b"37 unknown-name|MODULES ( [255 x] ( 0 ) )
37 limit-name|MODULES ( [256 x] ( 0 ) )
42 number-not|MODULES ( AB ( 01 ) )
42 number-not|MODULES ( AB ( 1.0 ) )
42 number-large|MODULES ( AB ( 100000000000000000000000000000000000001 ) )
42 limit|MODULES ( AB ( 17592186044416 ) )
42 limit|MODULES ( AB ( 7036874418 ) )
53 limit|MODULES ( AB ( 7036874417 0 ) )
73 unknown-name|MODULES ( AB ( 7036874417 ) BC ( 0 ) AC ( 0 ) XY ( 0 ) )
73 limit-name|MODULES ( AB ( 7036874417 ) BC ( 0 ) AC ( 0 ) [256 x] ( 0 ) )
64 limit|MODULES ( AB ( 7036874417 ) BC ( 0 ) )
46 unknown-name|MODULES ( AB ( 0 ) AC ( 0 ) )
read 1|MODULES ( AB ( 0 ) BC ( 0 ) AC ( 2 ) ) FLOWS ( none ( A AC A 1099511627.775 ) f ( ) )
88 number-large|MODULES ( AB ( 0 ) BC ( 0 ) AC ( 2 ) ) FLOWS ( none ( A AC A 1099511627.776 ) f ( ) )
read 2|MODULES ( AB ( 0 ) BC ( 0 ) AC ( 2 ) ) FLOWS ( none ( A AC A 0.001 A AC C 012.50000 ) f ( ) ) # the end
88 number-fine|MODULES ( AB ( 0 ) BC ( 0 ) AC ( 2 ) ) FLOWS ( none ( A AC A 0.0001 ) f ( ) )
88 zero-flow|MODULES ( AB ( 0 ) BC ( 0 ) AC ( 2 ) ) FLOWS ( none ( A AC A 0.000 ) f ( ) )
88 number-not|MODULES ( AB ( 0 ) BC ( 0 ) AC ( 2 ) ) FLOWS ( none ( A AC A 1,5 ) f ( ) )
88 number-not|MODULES ( AB ( 0 ) BC ( 0 ) AC ( 2 ) ) FLOWS ( none ( A AC A .5 ) f ( ) )
86 unknown-name|MODULES ( AB ( 0 ) BC ( 0 ) AC ( 2 ) ) FLOWS ( none ( A AC B 1 ) f ( ) )
81 limit-name|MODULES ( AB ( 0 ) BC ( 0 ) AC ( 2 ) ) FLOWS ( none ( [256 x] AC A 1 ) f ( ) )
83 limit-name|MODULES ( AB ( 0 ) BC ( 0 ) AC ( 2 ) ) FLOWS ( none ( A [256 x] A 1 ) f ( ) )
86 limit-name|MODULES ( AB ( 0 ) BC ( 0 ) AC ( 2 ) ) FLOWS ( none ( A AC [256 x] 1 ) f ( ) )
74 limit-name|MODULES ( AB ( 0 ) BC ( 0 ) AC ( 2 ) ) FLOWS ( [256 x] ( A AC A 1 ) f ( ) )
74 unknown-name|MODULES ( AB ( 0 ) BC ( 0 ) AC ( 2 ) ) FLOWS ( f ( A AC A 1 ) none ( ) )
83 limit|MODULES ( AB ( 0 ) BC ( 0 ) AC ( 2 ) ) FLOWS ( none ( ) )
89 unknown-name|MODULES ( AB ( 0 ) BC ( 0 ) AC ( 2 ) ) FLOWS ( none ( ) f ( ) g ( ) )
91 section|MODULES ( AB ( 0 ) BC ( 0 ) AC ( 2 ) ) FLOWS ( none ( ) f ( ) ) end
read 65536|MODULES ( AB ( 0 ) BC ( 0 ) AC ( 2 ) ) FLOWS ( none ( [65536 A AC A 1 ]) f ( ) )
589905 limit|MODULES ( AB ( 0 ) BC ( 0 ) AC ( 2 ) ) FLOWS ( none ( [65536 A AC A 1 ]A AC A 1 ) f ( ) )
589905 unknown-name|MODULES ( AB ( 0 ) BC ( 0 ) AC ( 2 ) ) FLOWS ( none ( [65536 A AC A 1 ]X AC A 1 ) f ( ) )
";

/// A whole file, and that file with each token left out, doubled or replaced, and cut off before each token, written by that script.
const DAMAGED: &[u8] =
    b"read 4|MODULES ( AB ( 2 ) BC ( 2 ) AC ( 2 ) ) FLOWS ( none ( A AC A 12 A AB A 3 A BC B 3 A AC C 3 ) f ( A AC A 12 ) )
27 section|( AB ( 2 ) BC ( 2 ) AC ( 2 ) ) FLOWS ( none ( A AC A 12 A AB A 3 A BC B 3 A AC C 3 ) f ( A AC A 12 ) )
35 section|MODULES MODULES ( AB ( 2 ) BC ( 2 ) AC ( 2 ) ) FLOWS ( none ( A AC A 12 A AB A 3 A BC B 3 A AC C 3 ) f ( A AC A 12 ) )
27 section|x ( AB ( 2 ) BC ( 2 ) AC ( 2 ) ) FLOWS ( none ( A AC A 12 A AB A 3 A BC B 3 A AC C 3 ) f ( A AC A 12 ) )
27 section|( ( AB ( 2 ) BC ( 2 ) AC ( 2 ) ) FLOWS ( none ( A AC A 12 A AB A 3 A BC B 3 A AC C 3 ) f ( A AC A 12 ) )
27 section|) ( AB ( 2 ) BC ( 2 ) AC ( 2 ) ) FLOWS ( none ( A AC A 12 A AB A 3 A BC B 3 A AC C 3 ) f ( A AC A 12 ) )
27 section|0 ( AB ( 2 ) BC ( 2 ) AC ( 2 ) ) FLOWS ( none ( A AC A 12 A AB A 3 A BC B 3 A AC C 3 ) f ( A AC A 12 ) )
35 section|MODULES AB ( 2 ) BC ( 2 ) AC ( 2 ) ) FLOWS ( none ( A AC A 12 A AB A 3 A BC B 3 A AC C 3 ) f ( A AC A 12 ) )
37 token|MODULES ( ( AB ( 2 ) BC ( 2 ) AC ( 2 ) ) FLOWS ( none ( A AC A 12 A AB A 3 A BC B 3 A AC C 3 ) f ( A AC A 12 ) )
35 section|MODULES x AB ( 2 ) BC ( 2 ) AC ( 2 ) ) FLOWS ( none ( A AC A 12 A AB A 3 A BC B 3 A AC C 3 ) f ( A AC A 12 ) )
35 section|MODULES ) AB ( 2 ) BC ( 2 ) AC ( 2 ) ) FLOWS ( none ( A AC A 12 A AB A 3 A BC B 3 A AC C 3 ) f ( A AC A 12 ) )
35 section|MODULES 0 AB ( 2 ) BC ( 2 ) AC ( 2 ) ) FLOWS ( none ( A AC A 12 A AB A 3 A BC B 3 A AC C 3 ) f ( A AC A 12 ) )
37 token|MODULES ( ( 2 ) BC ( 2 ) AC ( 2 ) ) FLOWS ( none ( A AC A 12 A AB A 3 A BC B 3 A AC C 3 ) f ( A AC A 12 ) )
40 token|MODULES ( AB AB ( 2 ) BC ( 2 ) AC ( 2 ) ) FLOWS ( none ( A AC A 12 A AB A 3 A BC B 3 A AC C 3 ) f ( A AC A 12 ) )
37 unknown-name|MODULES ( x ( 2 ) BC ( 2 ) AC ( 2 ) ) FLOWS ( none ( A AC A 12 A AB A 3 A BC B 3 A AC C 3 ) f ( A AC A 12 ) )
37 token|MODULES ( ( ( 2 ) BC ( 2 ) AC ( 2 ) ) FLOWS ( none ( A AC A 12 A AB A 3 A BC B 3 A AC C 3 ) f ( A AC A 12 ) )
37 limit|MODULES ( ) ( 2 ) BC ( 2 ) AC ( 2 ) ) FLOWS ( none ( A AC A 12 A AB A 3 A BC B 3 A AC C 3 ) f ( A AC A 12 ) )
37 unknown-name|MODULES ( 0 ( 2 ) BC ( 2 ) AC ( 2 ) ) FLOWS ( none ( A AC A 12 A AB A 3 A BC B 3 A AC C 3 ) f ( A AC A 12 ) )
40 token|MODULES ( AB 2 ) BC ( 2 ) AC ( 2 ) ) FLOWS ( none ( A AC A 12 A AB A 3 A BC B 3 A AC C 3 ) f ( A AC A 12 ) )
42 token|MODULES ( AB ( ( 2 ) BC ( 2 ) AC ( 2 ) ) FLOWS ( none ( A AC A 12 A AB A 3 A BC B 3 A AC C 3 ) f ( A AC A 12 ) )
40 token|MODULES ( AB x 2 ) BC ( 2 ) AC ( 2 ) ) FLOWS ( none ( A AC A 12 A AB A 3 A BC B 3 A AC C 3 ) f ( A AC A 12 ) )
40 token|MODULES ( AB ) 2 ) BC ( 2 ) AC ( 2 ) ) FLOWS ( none ( A AC A 12 A AB A 3 A BC B 3 A AC C 3 ) f ( A AC A 12 ) )
40 token|MODULES ( AB 0 2 ) BC ( 2 ) AC ( 2 ) ) FLOWS ( none ( A AC A 12 A AB A 3 A BC B 3 A AC C 3 ) f ( A AC A 12 ) )
42 limit|MODULES ( AB ( ) BC ( 2 ) AC ( 2 ) ) FLOWS ( none ( A AC A 12 A AB A 3 A BC B 3 A AC C 3 ) f ( A AC A 12 ) )
44 limit|MODULES ( AB ( 2 2 ) BC ( 2 ) AC ( 2 ) ) FLOWS ( none ( A AC A 12 A AB A 3 A BC B 3 A AC C 3 ) f ( A AC A 12 ) )
42 number-not|MODULES ( AB ( x ) BC ( 2 ) AC ( 2 ) ) FLOWS ( none ( A AC A 12 A AB A 3 A BC B 3 A AC C 3 ) f ( A AC A 12 ) )
42 token|MODULES ( AB ( ( ) BC ( 2 ) AC ( 2 ) ) FLOWS ( none ( A AC A 12 A AB A 3 A BC B 3 A AC C 3 ) f ( A AC A 12 ) )
42 limit|MODULES ( AB ( ) ) BC ( 2 ) AC ( 2 ) ) FLOWS ( none ( A AC A 12 A AB A 3 A BC B 3 A AC C 3 ) f ( A AC A 12 ) )
read 4|MODULES ( AB ( 0 ) BC ( 2 ) AC ( 2 ) ) FLOWS ( none ( A AC A 12 A AB A 3 A BC B 3 A AC C 3 ) f ( A AC A 12 ) )
44 number-not|MODULES ( AB ( 2 BC ( 2 ) AC ( 2 ) ) FLOWS ( none ( A AC A 12 A AB A 3 A BC B 3 A AC C 3 ) f ( A AC A 12 ) )
46 limit|MODULES ( AB ( 2 ) ) BC ( 2 ) AC ( 2 ) ) FLOWS ( none ( A AC A 12 A AB A 3 A BC B 3 A AC C 3 ) f ( A AC A 12 ) )
44 number-not|MODULES ( AB ( 2 x BC ( 2 ) AC ( 2 ) ) FLOWS ( none ( A AC A 12 A AB A 3 A BC B 3 A AC C 3 ) f ( A AC A 12 ) )
44 token|MODULES ( AB ( 2 ( BC ( 2 ) AC ( 2 ) ) FLOWS ( none ( A AC A 12 A AB A 3 A BC B 3 A AC C 3 ) f ( A AC A 12 ) )
44 limit|MODULES ( AB ( 2 0 BC ( 2 ) AC ( 2 ) ) FLOWS ( none ( A AC A 12 A AB A 3 A BC B 3 A AC C 3 ) f ( A AC A 12 ) )
46 token|MODULES ( AB ( 2 ) ( 2 ) AC ( 2 ) ) FLOWS ( none ( A AC A 12 A AB A 3 A BC B 3 A AC C 3 ) f ( A AC A 12 ) )
49 token|MODULES ( AB ( 2 ) BC BC ( 2 ) AC ( 2 ) ) FLOWS ( none ( A AC A 12 A AB A 3 A BC B 3 A AC C 3 ) f ( A AC A 12 ) )
46 unknown-name|MODULES ( AB ( 2 ) x ( 2 ) AC ( 2 ) ) FLOWS ( none ( A AC A 12 A AB A 3 A BC B 3 A AC C 3 ) f ( A AC A 12 ) )
46 token|MODULES ( AB ( 2 ) ( ( 2 ) AC ( 2 ) ) FLOWS ( none ( A AC A 12 A AB A 3 A BC B 3 A AC C 3 ) f ( A AC A 12 ) )
46 limit|MODULES ( AB ( 2 ) ) ( 2 ) AC ( 2 ) ) FLOWS ( none ( A AC A 12 A AB A 3 A BC B 3 A AC C 3 ) f ( A AC A 12 ) )
46 unknown-name|MODULES ( AB ( 2 ) 0 ( 2 ) AC ( 2 ) ) FLOWS ( none ( A AC A 12 A AB A 3 A BC B 3 A AC C 3 ) f ( A AC A 12 ) )
49 token|MODULES ( AB ( 2 ) BC 2 ) AC ( 2 ) ) FLOWS ( none ( A AC A 12 A AB A 3 A BC B 3 A AC C 3 ) f ( A AC A 12 ) )
51 token|MODULES ( AB ( 2 ) BC ( ( 2 ) AC ( 2 ) ) FLOWS ( none ( A AC A 12 A AB A 3 A BC B 3 A AC C 3 ) f ( A AC A 12 ) )
49 token|MODULES ( AB ( 2 ) BC x 2 ) AC ( 2 ) ) FLOWS ( none ( A AC A 12 A AB A 3 A BC B 3 A AC C 3 ) f ( A AC A 12 ) )
49 token|MODULES ( AB ( 2 ) BC ) 2 ) AC ( 2 ) ) FLOWS ( none ( A AC A 12 A AB A 3 A BC B 3 A AC C 3 ) f ( A AC A 12 ) )
49 token|MODULES ( AB ( 2 ) BC 0 2 ) AC ( 2 ) ) FLOWS ( none ( A AC A 12 A AB A 3 A BC B 3 A AC C 3 ) f ( A AC A 12 ) )
51 limit|MODULES ( AB ( 2 ) BC ( ) AC ( 2 ) ) FLOWS ( none ( A AC A 12 A AB A 3 A BC B 3 A AC C 3 ) f ( A AC A 12 ) )
53 limit|MODULES ( AB ( 2 ) BC ( 2 2 ) AC ( 2 ) ) FLOWS ( none ( A AC A 12 A AB A 3 A BC B 3 A AC C 3 ) f ( A AC A 12 ) )
51 number-not|MODULES ( AB ( 2 ) BC ( x ) AC ( 2 ) ) FLOWS ( none ( A AC A 12 A AB A 3 A BC B 3 A AC C 3 ) f ( A AC A 12 ) )
51 token|MODULES ( AB ( 2 ) BC ( ( ) AC ( 2 ) ) FLOWS ( none ( A AC A 12 A AB A 3 A BC B 3 A AC C 3 ) f ( A AC A 12 ) )
51 limit|MODULES ( AB ( 2 ) BC ( ) ) AC ( 2 ) ) FLOWS ( none ( A AC A 12 A AB A 3 A BC B 3 A AC C 3 ) f ( A AC A 12 ) )
read 4|MODULES ( AB ( 2 ) BC ( 0 ) AC ( 2 ) ) FLOWS ( none ( A AC A 12 A AB A 3 A BC B 3 A AC C 3 ) f ( A AC A 12 ) )
53 number-not|MODULES ( AB ( 2 ) BC ( 2 AC ( 2 ) ) FLOWS ( none ( A AC A 12 A AB A 3 A BC B 3 A AC C 3 ) f ( A AC A 12 ) )
55 limit|MODULES ( AB ( 2 ) BC ( 2 ) ) AC ( 2 ) ) FLOWS ( none ( A AC A 12 A AB A 3 A BC B 3 A AC C 3 ) f ( A AC A 12 ) )
53 number-not|MODULES ( AB ( 2 ) BC ( 2 x AC ( 2 ) ) FLOWS ( none ( A AC A 12 A AB A 3 A BC B 3 A AC C 3 ) f ( A AC A 12 ) )
53 token|MODULES ( AB ( 2 ) BC ( 2 ( AC ( 2 ) ) FLOWS ( none ( A AC A 12 A AB A 3 A BC B 3 A AC C 3 ) f ( A AC A 12 ) )
53 limit|MODULES ( AB ( 2 ) BC ( 2 0 AC ( 2 ) ) FLOWS ( none ( A AC A 12 A AB A 3 A BC B 3 A AC C 3 ) f ( A AC A 12 ) )
55 token|MODULES ( AB ( 2 ) BC ( 2 ) ( 2 ) ) FLOWS ( none ( A AC A 12 A AB A 3 A BC B 3 A AC C 3 ) f ( A AC A 12 ) )
58 token|MODULES ( AB ( 2 ) BC ( 2 ) AC AC ( 2 ) ) FLOWS ( none ( A AC A 12 A AB A 3 A BC B 3 A AC C 3 ) f ( A AC A 12 ) )
55 unknown-name|MODULES ( AB ( 2 ) BC ( 2 ) x ( 2 ) ) FLOWS ( none ( A AC A 12 A AB A 3 A BC B 3 A AC C 3 ) f ( A AC A 12 ) )
55 token|MODULES ( AB ( 2 ) BC ( 2 ) ( ( 2 ) ) FLOWS ( none ( A AC A 12 A AB A 3 A BC B 3 A AC C 3 ) f ( A AC A 12 ) )
55 limit|MODULES ( AB ( 2 ) BC ( 2 ) ) ( 2 ) ) FLOWS ( none ( A AC A 12 A AB A 3 A BC B 3 A AC C 3 ) f ( A AC A 12 ) )
55 unknown-name|MODULES ( AB ( 2 ) BC ( 2 ) 0 ( 2 ) ) FLOWS ( none ( A AC A 12 A AB A 3 A BC B 3 A AC C 3 ) f ( A AC A 12 ) )
58 token|MODULES ( AB ( 2 ) BC ( 2 ) AC 2 ) ) FLOWS ( none ( A AC A 12 A AB A 3 A BC B 3 A AC C 3 ) f ( A AC A 12 ) )
60 token|MODULES ( AB ( 2 ) BC ( 2 ) AC ( ( 2 ) ) FLOWS ( none ( A AC A 12 A AB A 3 A BC B 3 A AC C 3 ) f ( A AC A 12 ) )
58 token|MODULES ( AB ( 2 ) BC ( 2 ) AC x 2 ) ) FLOWS ( none ( A AC A 12 A AB A 3 A BC B 3 A AC C 3 ) f ( A AC A 12 ) )
58 token|MODULES ( AB ( 2 ) BC ( 2 ) AC ) 2 ) ) FLOWS ( none ( A AC A 12 A AB A 3 A BC B 3 A AC C 3 ) f ( A AC A 12 ) )
58 token|MODULES ( AB ( 2 ) BC ( 2 ) AC 0 2 ) ) FLOWS ( none ( A AC A 12 A AB A 3 A BC B 3 A AC C 3 ) f ( A AC A 12 ) )
60 limit|MODULES ( AB ( 2 ) BC ( 2 ) AC ( ) ) FLOWS ( none ( A AC A 12 A AB A 3 A BC B 3 A AC C 3 ) f ( A AC A 12 ) )
62 limit|MODULES ( AB ( 2 ) BC ( 2 ) AC ( 2 2 ) ) FLOWS ( none ( A AC A 12 A AB A 3 A BC B 3 A AC C 3 ) f ( A AC A 12 ) )
60 number-not|MODULES ( AB ( 2 ) BC ( 2 ) AC ( x ) ) FLOWS ( none ( A AC A 12 A AB A 3 A BC B 3 A AC C 3 ) f ( A AC A 12 ) )
60 token|MODULES ( AB ( 2 ) BC ( 2 ) AC ( ( ) ) FLOWS ( none ( A AC A 12 A AB A 3 A BC B 3 A AC C 3 ) f ( A AC A 12 ) )
60 limit|MODULES ( AB ( 2 ) BC ( 2 ) AC ( ) ) ) FLOWS ( none ( A AC A 12 A AB A 3 A BC B 3 A AC C 3 ) f ( A AC A 12 ) )
read 4|MODULES ( AB ( 2 ) BC ( 2 ) AC ( 0 ) ) FLOWS ( none ( A AC A 12 A AB A 3 A BC B 3 A AC C 3 ) f ( A AC A 12 ) )
64 unknown-name|MODULES ( AB ( 2 ) BC ( 2 ) AC ( 2 ) FLOWS ( none ( A AC A 12 A AB A 3 A BC B 3 A AC C 3 ) f ( A AC A 12 ) )
66 section|MODULES ( AB ( 2 ) BC ( 2 ) AC ( 2 ) ) ) FLOWS ( none ( A AC A 12 A AB A 3 A BC B 3 A AC C 3 ) f ( A AC A 12 ) )
62 number-not|MODULES ( AB ( 2 ) BC ( 2 ) AC ( 2 x ) FLOWS ( none ( A AC A 12 A AB A 3 A BC B 3 A AC C 3 ) f ( A AC A 12 ) )
62 token|MODULES ( AB ( 2 ) BC ( 2 ) AC ( 2 ( ) FLOWS ( none ( A AC A 12 A AB A 3 A BC B 3 A AC C 3 ) f ( A AC A 12 ) )
62 limit|MODULES ( AB ( 2 ) BC ( 2 ) AC ( 2 0 ) FLOWS ( none ( A AC A 12 A AB A 3 A BC B 3 A AC C 3 ) f ( A AC A 12 ) )
64 unknown-name|MODULES ( AB ( 2 ) BC ( 2 ) AC ( 2 ) FLOWS ( none ( A AC A 12 A AB A 3 A BC B 3 A AC C 3 ) f ( A AC A 12 ) )
66 section|MODULES ( AB ( 2 ) BC ( 2 ) AC ( 2 ) ) ) FLOWS ( none ( A AC A 12 A AB A 3 A BC B 3 A AC C 3 ) f ( A AC A 12 ) )
64 unknown-name|MODULES ( AB ( 2 ) BC ( 2 ) AC ( 2 ) x FLOWS ( none ( A AC A 12 A AB A 3 A BC B 3 A AC C 3 ) f ( A AC A 12 ) )
64 token|MODULES ( AB ( 2 ) BC ( 2 ) AC ( 2 ) ( FLOWS ( none ( A AC A 12 A AB A 3 A BC B 3 A AC C 3 ) f ( A AC A 12 ) )
64 unknown-name|MODULES ( AB ( 2 ) BC ( 2 ) AC ( 2 ) 0 FLOWS ( none ( A AC A 12 A AB A 3 A BC B 3 A AC C 3 ) f ( A AC A 12 ) )
66 section|MODULES ( AB ( 2 ) BC ( 2 ) AC ( 2 ) ) ( none ( A AC A 12 A AB A 3 A BC B 3 A AC C 3 ) f ( A AC A 12 ) )
72 section|MODULES ( AB ( 2 ) BC ( 2 ) AC ( 2 ) ) FLOWS FLOWS ( none ( A AC A 12 A AB A 3 A BC B 3 A AC C 3 ) f ( A AC A 12 ) )
66 section|MODULES ( AB ( 2 ) BC ( 2 ) AC ( 2 ) ) x ( none ( A AC A 12 A AB A 3 A BC B 3 A AC C 3 ) f ( A AC A 12 ) )
66 section|MODULES ( AB ( 2 ) BC ( 2 ) AC ( 2 ) ) ( ( none ( A AC A 12 A AB A 3 A BC B 3 A AC C 3 ) f ( A AC A 12 ) )
66 section|MODULES ( AB ( 2 ) BC ( 2 ) AC ( 2 ) ) ) ( none ( A AC A 12 A AB A 3 A BC B 3 A AC C 3 ) f ( A AC A 12 ) )
66 section|MODULES ( AB ( 2 ) BC ( 2 ) AC ( 2 ) ) 0 ( none ( A AC A 12 A AB A 3 A BC B 3 A AC C 3 ) f ( A AC A 12 ) )
72 section|MODULES ( AB ( 2 ) BC ( 2 ) AC ( 2 ) ) FLOWS none ( A AC A 12 A AB A 3 A BC B 3 A AC C 3 ) f ( A AC A 12 ) )
74 token|MODULES ( AB ( 2 ) BC ( 2 ) AC ( 2 ) ) FLOWS ( ( none ( A AC A 12 A AB A 3 A BC B 3 A AC C 3 ) f ( A AC A 12 ) )
72 section|MODULES ( AB ( 2 ) BC ( 2 ) AC ( 2 ) ) FLOWS x none ( A AC A 12 A AB A 3 A BC B 3 A AC C 3 ) f ( A AC A 12 ) )
72 section|MODULES ( AB ( 2 ) BC ( 2 ) AC ( 2 ) ) FLOWS ) none ( A AC A 12 A AB A 3 A BC B 3 A AC C 3 ) f ( A AC A 12 ) )
72 section|MODULES ( AB ( 2 ) BC ( 2 ) AC ( 2 ) ) FLOWS 0 none ( A AC A 12 A AB A 3 A BC B 3 A AC C 3 ) f ( A AC A 12 ) )
74 token|MODULES ( AB ( 2 ) BC ( 2 ) AC ( 2 ) ) FLOWS ( ( A AC A 12 A AB A 3 A BC B 3 A AC C 3 ) f ( A AC A 12 ) )
79 token|MODULES ( AB ( 2 ) BC ( 2 ) AC ( 2 ) ) FLOWS ( none none ( A AC A 12 A AB A 3 A BC B 3 A AC C 3 ) f ( A AC A 12 ) )
74 unknown-name|MODULES ( AB ( 2 ) BC ( 2 ) AC ( 2 ) ) FLOWS ( x ( A AC A 12 A AB A 3 A BC B 3 A AC C 3 ) f ( A AC A 12 ) )
74 token|MODULES ( AB ( 2 ) BC ( 2 ) AC ( 2 ) ) FLOWS ( ( ( A AC A 12 A AB A 3 A BC B 3 A AC C 3 ) f ( A AC A 12 ) )
74 limit|MODULES ( AB ( 2 ) BC ( 2 ) AC ( 2 ) ) FLOWS ( ) ( A AC A 12 A AB A 3 A BC B 3 A AC C 3 ) f ( A AC A 12 ) )
74 unknown-name|MODULES ( AB ( 2 ) BC ( 2 ) AC ( 2 ) ) FLOWS ( 0 ( A AC A 12 A AB A 3 A BC B 3 A AC C 3 ) f ( A AC A 12 ) )
79 token|MODULES ( AB ( 2 ) BC ( 2 ) AC ( 2 ) ) FLOWS ( none A AC A 12 A AB A 3 A BC B 3 A AC C 3 ) f ( A AC A 12 ) )
81 token|MODULES ( AB ( 2 ) BC ( 2 ) AC ( 2 ) ) FLOWS ( none ( ( A AC A 12 A AB A 3 A BC B 3 A AC C 3 ) f ( A AC A 12 ) )
79 token|MODULES ( AB ( 2 ) BC ( 2 ) AC ( 2 ) ) FLOWS ( none x A AC A 12 A AB A 3 A BC B 3 A AC C 3 ) f ( A AC A 12 ) )
79 token|MODULES ( AB ( 2 ) BC ( 2 ) AC ( 2 ) ) FLOWS ( none ) A AC A 12 A AB A 3 A BC B 3 A AC C 3 ) f ( A AC A 12 ) )
79 token|MODULES ( AB ( 2 ) BC ( 2 ) AC ( 2 ) ) FLOWS ( none 0 A AC A 12 A AB A 3 A BC B 3 A AC C 3 ) f ( A AC A 12 ) )
81 unknown-name|MODULES ( AB ( 2 ) BC ( 2 ) AC ( 2 ) ) FLOWS ( none ( AC A 12 A AB A 3 A BC B 3 A AC C 3 ) f ( A AC A 12 ) )
83 unknown-name|MODULES ( AB ( 2 ) BC ( 2 ) AC ( 2 ) ) FLOWS ( none ( A A AC A 12 A AB A 3 A BC B 3 A AC C 3 ) f ( A AC A 12 ) )
81 unknown-name|MODULES ( AB ( 2 ) BC ( 2 ) AC ( 2 ) ) FLOWS ( none ( x AC A 12 A AB A 3 A BC B 3 A AC C 3 ) f ( A AC A 12 ) )
81 token|MODULES ( AB ( 2 ) BC ( 2 ) AC ( 2 ) ) FLOWS ( none ( ( AC A 12 A AB A 3 A BC B 3 A AC C 3 ) f ( A AC A 12 ) )
83 unknown-name|MODULES ( AB ( 2 ) BC ( 2 ) AC ( 2 ) ) FLOWS ( none ( ) AC A 12 A AB A 3 A BC B 3 A AC C 3 ) f ( A AC A 12 ) )
81 unknown-name|MODULES ( AB ( 2 ) BC ( 2 ) AC ( 2 ) ) FLOWS ( none ( 0 AC A 12 A AB A 3 A BC B 3 A AC C 3 ) f ( A AC A 12 ) )
83 unknown-name|MODULES ( AB ( 2 ) BC ( 2 ) AC ( 2 ) ) FLOWS ( none ( A A 12 A AB A 3 A BC B 3 A AC C 3 ) f ( A AC A 12 ) )
86 unknown-name|MODULES ( AB ( 2 ) BC ( 2 ) AC ( 2 ) ) FLOWS ( none ( A AC AC A 12 A AB A 3 A BC B 3 A AC C 3 ) f ( A AC A 12 ) )
83 unknown-name|MODULES ( AB ( 2 ) BC ( 2 ) AC ( 2 ) ) FLOWS ( none ( A x A 12 A AB A 3 A BC B 3 A AC C 3 ) f ( A AC A 12 ) )
83 token|MODULES ( AB ( 2 ) BC ( 2 ) AC ( 2 ) ) FLOWS ( none ( A ( A 12 A AB A 3 A BC B 3 A AC C 3 ) f ( A AC A 12 ) )
83 token|MODULES ( AB ( 2 ) BC ( 2 ) AC ( 2 ) ) FLOWS ( none ( A ) A 12 A AB A 3 A BC B 3 A AC C 3 ) f ( A AC A 12 ) )
83 unknown-name|MODULES ( AB ( 2 ) BC ( 2 ) AC ( 2 ) ) FLOWS ( none ( A 0 A 12 A AB A 3 A BC B 3 A AC C 3 ) f ( A AC A 12 ) )
86 unknown-name|MODULES ( AB ( 2 ) BC ( 2 ) AC ( 2 ) ) FLOWS ( none ( A AC 12 A AB A 3 A BC B 3 A AC C 3 ) f ( A AC A 12 ) )
88 number-not|MODULES ( AB ( 2 ) BC ( 2 ) AC ( 2 ) ) FLOWS ( none ( A AC A A 12 A AB A 3 A BC B 3 A AC C 3 ) f ( A AC A 12 ) )
86 unknown-name|MODULES ( AB ( 2 ) BC ( 2 ) AC ( 2 ) ) FLOWS ( none ( A AC x 12 A AB A 3 A BC B 3 A AC C 3 ) f ( A AC A 12 ) )
86 token|MODULES ( AB ( 2 ) BC ( 2 ) AC ( 2 ) ) FLOWS ( none ( A AC ( 12 A AB A 3 A BC B 3 A AC C 3 ) f ( A AC A 12 ) )
86 token|MODULES ( AB ( 2 ) BC ( 2 ) AC ( 2 ) ) FLOWS ( none ( A AC ) 12 A AB A 3 A BC B 3 A AC C 3 ) f ( A AC A 12 ) )
86 unknown-name|MODULES ( AB ( 2 ) BC ( 2 ) AC ( 2 ) ) FLOWS ( none ( A AC 0 12 A AB A 3 A BC B 3 A AC C 3 ) f ( A AC A 12 ) )
88 number-not|MODULES ( AB ( 2 ) BC ( 2 ) AC ( 2 ) ) FLOWS ( none ( A AC A A AB A 3 A BC B 3 A AC C 3 ) f ( A AC A 12 ) )
91 unknown-name|MODULES ( AB ( 2 ) BC ( 2 ) AC ( 2 ) ) FLOWS ( none ( A AC A 12 12 A AB A 3 A BC B 3 A AC C 3 ) f ( A AC A 12 ) )
88 number-not|MODULES ( AB ( 2 ) BC ( 2 ) AC ( 2 ) ) FLOWS ( none ( A AC A x A AB A 3 A BC B 3 A AC C 3 ) f ( A AC A 12 ) )
88 token|MODULES ( AB ( 2 ) BC ( 2 ) AC ( 2 ) ) FLOWS ( none ( A AC A ( A AB A 3 A BC B 3 A AC C 3 ) f ( A AC A 12 ) )
88 token|MODULES ( AB ( 2 ) BC ( 2 ) AC ( 2 ) ) FLOWS ( none ( A AC A ) A AB A 3 A BC B 3 A AC C 3 ) f ( A AC A 12 ) )
88 zero-flow|MODULES ( AB ( 2 ) BC ( 2 ) AC ( 2 ) ) FLOWS ( none ( A AC A 0 A AB A 3 A BC B 3 A AC C 3 ) f ( A AC A 12 ) )
91 unknown-name|MODULES ( AB ( 2 ) BC ( 2 ) AC ( 2 ) ) FLOWS ( none ( A AC A 12 AB A 3 A BC B 3 A AC C 3 ) f ( A AC A 12 ) )
93 unknown-name|MODULES ( AB ( 2 ) BC ( 2 ) AC ( 2 ) ) FLOWS ( none ( A AC A 12 A A AB A 3 A BC B 3 A AC C 3 ) f ( A AC A 12 ) )
91 unknown-name|MODULES ( AB ( 2 ) BC ( 2 ) AC ( 2 ) ) FLOWS ( none ( A AC A 12 x AB A 3 A BC B 3 A AC C 3 ) f ( A AC A 12 ) )
91 token|MODULES ( AB ( 2 ) BC ( 2 ) AC ( 2 ) ) FLOWS ( none ( A AC A 12 ( AB A 3 A BC B 3 A AC C 3 ) f ( A AC A 12 ) )
93 unknown-name|MODULES ( AB ( 2 ) BC ( 2 ) AC ( 2 ) ) FLOWS ( none ( A AC A 12 ) AB A 3 A BC B 3 A AC C 3 ) f ( A AC A 12 ) )
91 unknown-name|MODULES ( AB ( 2 ) BC ( 2 ) AC ( 2 ) ) FLOWS ( none ( A AC A 12 0 AB A 3 A BC B 3 A AC C 3 ) f ( A AC A 12 ) )
93 unknown-name|MODULES ( AB ( 2 ) BC ( 2 ) AC ( 2 ) ) FLOWS ( none ( A AC A 12 A A 3 A BC B 3 A AC C 3 ) f ( A AC A 12 ) )
96 unknown-name|MODULES ( AB ( 2 ) BC ( 2 ) AC ( 2 ) ) FLOWS ( none ( A AC A 12 A AB AB A 3 A BC B 3 A AC C 3 ) f ( A AC A 12 ) )
93 unknown-name|MODULES ( AB ( 2 ) BC ( 2 ) AC ( 2 ) ) FLOWS ( none ( A AC A 12 A x A 3 A BC B 3 A AC C 3 ) f ( A AC A 12 ) )
93 token|MODULES ( AB ( 2 ) BC ( 2 ) AC ( 2 ) ) FLOWS ( none ( A AC A 12 A ( A 3 A BC B 3 A AC C 3 ) f ( A AC A 12 ) )
93 token|MODULES ( AB ( 2 ) BC ( 2 ) AC ( 2 ) ) FLOWS ( none ( A AC A 12 A ) A 3 A BC B 3 A AC C 3 ) f ( A AC A 12 ) )
93 unknown-name|MODULES ( AB ( 2 ) BC ( 2 ) AC ( 2 ) ) FLOWS ( none ( A AC A 12 A 0 A 3 A BC B 3 A AC C 3 ) f ( A AC A 12 ) )
96 unknown-name|MODULES ( AB ( 2 ) BC ( 2 ) AC ( 2 ) ) FLOWS ( none ( A AC A 12 A AB 3 A BC B 3 A AC C 3 ) f ( A AC A 12 ) )
98 number-not|MODULES ( AB ( 2 ) BC ( 2 ) AC ( 2 ) ) FLOWS ( none ( A AC A 12 A AB A A 3 A BC B 3 A AC C 3 ) f ( A AC A 12 ) )
96 unknown-name|MODULES ( AB ( 2 ) BC ( 2 ) AC ( 2 ) ) FLOWS ( none ( A AC A 12 A AB x 3 A BC B 3 A AC C 3 ) f ( A AC A 12 ) )
96 token|MODULES ( AB ( 2 ) BC ( 2 ) AC ( 2 ) ) FLOWS ( none ( A AC A 12 A AB ( 3 A BC B 3 A AC C 3 ) f ( A AC A 12 ) )
96 token|MODULES ( AB ( 2 ) BC ( 2 ) AC ( 2 ) ) FLOWS ( none ( A AC A 12 A AB ) 3 A BC B 3 A AC C 3 ) f ( A AC A 12 ) )
96 unknown-name|MODULES ( AB ( 2 ) BC ( 2 ) AC ( 2 ) ) FLOWS ( none ( A AC A 12 A AB 0 3 A BC B 3 A AC C 3 ) f ( A AC A 12 ) )
98 number-not|MODULES ( AB ( 2 ) BC ( 2 ) AC ( 2 ) ) FLOWS ( none ( A AC A 12 A AB A A BC B 3 A AC C 3 ) f ( A AC A 12 ) )
100 unknown-name|MODULES ( AB ( 2 ) BC ( 2 ) AC ( 2 ) ) FLOWS ( none ( A AC A 12 A AB A 3 3 A BC B 3 A AC C 3 ) f ( A AC A 12 ) )
98 number-not|MODULES ( AB ( 2 ) BC ( 2 ) AC ( 2 ) ) FLOWS ( none ( A AC A 12 A AB A x A BC B 3 A AC C 3 ) f ( A AC A 12 ) )
98 token|MODULES ( AB ( 2 ) BC ( 2 ) AC ( 2 ) ) FLOWS ( none ( A AC A 12 A AB A ( A BC B 3 A AC C 3 ) f ( A AC A 12 ) )
98 token|MODULES ( AB ( 2 ) BC ( 2 ) AC ( 2 ) ) FLOWS ( none ( A AC A 12 A AB A ) A BC B 3 A AC C 3 ) f ( A AC A 12 ) )
98 zero-flow|MODULES ( AB ( 2 ) BC ( 2 ) AC ( 2 ) ) FLOWS ( none ( A AC A 12 A AB A 0 A BC B 3 A AC C 3 ) f ( A AC A 12 ) )
100 unknown-name|MODULES ( AB ( 2 ) BC ( 2 ) AC ( 2 ) ) FLOWS ( none ( A AC A 12 A AB A 3 BC B 3 A AC C 3 ) f ( A AC A 12 ) )
102 unknown-name|MODULES ( AB ( 2 ) BC ( 2 ) AC ( 2 ) ) FLOWS ( none ( A AC A 12 A AB A 3 A A BC B 3 A AC C 3 ) f ( A AC A 12 ) )
100 unknown-name|MODULES ( AB ( 2 ) BC ( 2 ) AC ( 2 ) ) FLOWS ( none ( A AC A 12 A AB A 3 x BC B 3 A AC C 3 ) f ( A AC A 12 ) )
100 token|MODULES ( AB ( 2 ) BC ( 2 ) AC ( 2 ) ) FLOWS ( none ( A AC A 12 A AB A 3 ( BC B 3 A AC C 3 ) f ( A AC A 12 ) )
102 unknown-name|MODULES ( AB ( 2 ) BC ( 2 ) AC ( 2 ) ) FLOWS ( none ( A AC A 12 A AB A 3 ) BC B 3 A AC C 3 ) f ( A AC A 12 ) )
100 unknown-name|MODULES ( AB ( 2 ) BC ( 2 ) AC ( 2 ) ) FLOWS ( none ( A AC A 12 A AB A 3 0 BC B 3 A AC C 3 ) f ( A AC A 12 ) )
102 unknown-name|MODULES ( AB ( 2 ) BC ( 2 ) AC ( 2 ) ) FLOWS ( none ( A AC A 12 A AB A 3 A B 3 A AC C 3 ) f ( A AC A 12 ) )
105 unknown-name|MODULES ( AB ( 2 ) BC ( 2 ) AC ( 2 ) ) FLOWS ( none ( A AC A 12 A AB A 3 A BC BC B 3 A AC C 3 ) f ( A AC A 12 ) )
102 unknown-name|MODULES ( AB ( 2 ) BC ( 2 ) AC ( 2 ) ) FLOWS ( none ( A AC A 12 A AB A 3 A x B 3 A AC C 3 ) f ( A AC A 12 ) )
102 token|MODULES ( AB ( 2 ) BC ( 2 ) AC ( 2 ) ) FLOWS ( none ( A AC A 12 A AB A 3 A ( B 3 A AC C 3 ) f ( A AC A 12 ) )
102 token|MODULES ( AB ( 2 ) BC ( 2 ) AC ( 2 ) ) FLOWS ( none ( A AC A 12 A AB A 3 A ) B 3 A AC C 3 ) f ( A AC A 12 ) )
102 unknown-name|MODULES ( AB ( 2 ) BC ( 2 ) AC ( 2 ) ) FLOWS ( none ( A AC A 12 A AB A 3 A 0 B 3 A AC C 3 ) f ( A AC A 12 ) )
105 unknown-name|MODULES ( AB ( 2 ) BC ( 2 ) AC ( 2 ) ) FLOWS ( none ( A AC A 12 A AB A 3 A BC 3 A AC C 3 ) f ( A AC A 12 ) )
107 number-not|MODULES ( AB ( 2 ) BC ( 2 ) AC ( 2 ) ) FLOWS ( none ( A AC A 12 A AB A 3 A BC B B 3 A AC C 3 ) f ( A AC A 12 ) )
105 unknown-name|MODULES ( AB ( 2 ) BC ( 2 ) AC ( 2 ) ) FLOWS ( none ( A AC A 12 A AB A 3 A BC x 3 A AC C 3 ) f ( A AC A 12 ) )
105 token|MODULES ( AB ( 2 ) BC ( 2 ) AC ( 2 ) ) FLOWS ( none ( A AC A 12 A AB A 3 A BC ( 3 A AC C 3 ) f ( A AC A 12 ) )
105 token|MODULES ( AB ( 2 ) BC ( 2 ) AC ( 2 ) ) FLOWS ( none ( A AC A 12 A AB A 3 A BC ) 3 A AC C 3 ) f ( A AC A 12 ) )
105 unknown-name|MODULES ( AB ( 2 ) BC ( 2 ) AC ( 2 ) ) FLOWS ( none ( A AC A 12 A AB A 3 A BC 0 3 A AC C 3 ) f ( A AC A 12 ) )
107 number-not|MODULES ( AB ( 2 ) BC ( 2 ) AC ( 2 ) ) FLOWS ( none ( A AC A 12 A AB A 3 A BC B A AC C 3 ) f ( A AC A 12 ) )
109 unknown-name|MODULES ( AB ( 2 ) BC ( 2 ) AC ( 2 ) ) FLOWS ( none ( A AC A 12 A AB A 3 A BC B 3 3 A AC C 3 ) f ( A AC A 12 ) )
107 number-not|MODULES ( AB ( 2 ) BC ( 2 ) AC ( 2 ) ) FLOWS ( none ( A AC A 12 A AB A 3 A BC B x A AC C 3 ) f ( A AC A 12 ) )
107 token|MODULES ( AB ( 2 ) BC ( 2 ) AC ( 2 ) ) FLOWS ( none ( A AC A 12 A AB A 3 A BC B ( A AC C 3 ) f ( A AC A 12 ) )
107 token|MODULES ( AB ( 2 ) BC ( 2 ) AC ( 2 ) ) FLOWS ( none ( A AC A 12 A AB A 3 A BC B ) A AC C 3 ) f ( A AC A 12 ) )
107 zero-flow|MODULES ( AB ( 2 ) BC ( 2 ) AC ( 2 ) ) FLOWS ( none ( A AC A 12 A AB A 3 A BC B 0 A AC C 3 ) f ( A AC A 12 ) )
109 unknown-name|MODULES ( AB ( 2 ) BC ( 2 ) AC ( 2 ) ) FLOWS ( none ( A AC A 12 A AB A 3 A BC B 3 AC C 3 ) f ( A AC A 12 ) )
111 unknown-name|MODULES ( AB ( 2 ) BC ( 2 ) AC ( 2 ) ) FLOWS ( none ( A AC A 12 A AB A 3 A BC B 3 A A AC C 3 ) f ( A AC A 12 ) )
109 unknown-name|MODULES ( AB ( 2 ) BC ( 2 ) AC ( 2 ) ) FLOWS ( none ( A AC A 12 A AB A 3 A BC B 3 x AC C 3 ) f ( A AC A 12 ) )
109 token|MODULES ( AB ( 2 ) BC ( 2 ) AC ( 2 ) ) FLOWS ( none ( A AC A 12 A AB A 3 A BC B 3 ( AC C 3 ) f ( A AC A 12 ) )
111 unknown-name|MODULES ( AB ( 2 ) BC ( 2 ) AC ( 2 ) ) FLOWS ( none ( A AC A 12 A AB A 3 A BC B 3 ) AC C 3 ) f ( A AC A 12 ) )
109 unknown-name|MODULES ( AB ( 2 ) BC ( 2 ) AC ( 2 ) ) FLOWS ( none ( A AC A 12 A AB A 3 A BC B 3 0 AC C 3 ) f ( A AC A 12 ) )
111 unknown-name|MODULES ( AB ( 2 ) BC ( 2 ) AC ( 2 ) ) FLOWS ( none ( A AC A 12 A AB A 3 A BC B 3 A C 3 ) f ( A AC A 12 ) )
114 unknown-name|MODULES ( AB ( 2 ) BC ( 2 ) AC ( 2 ) ) FLOWS ( none ( A AC A 12 A AB A 3 A BC B 3 A AC AC C 3 ) f ( A AC A 12 ) )
111 unknown-name|MODULES ( AB ( 2 ) BC ( 2 ) AC ( 2 ) ) FLOWS ( none ( A AC A 12 A AB A 3 A BC B 3 A x C 3 ) f ( A AC A 12 ) )
111 token|MODULES ( AB ( 2 ) BC ( 2 ) AC ( 2 ) ) FLOWS ( none ( A AC A 12 A AB A 3 A BC B 3 A ( C 3 ) f ( A AC A 12 ) )
111 token|MODULES ( AB ( 2 ) BC ( 2 ) AC ( 2 ) ) FLOWS ( none ( A AC A 12 A AB A 3 A BC B 3 A ) C 3 ) f ( A AC A 12 ) )
111 unknown-name|MODULES ( AB ( 2 ) BC ( 2 ) AC ( 2 ) ) FLOWS ( none ( A AC A 12 A AB A 3 A BC B 3 A 0 C 3 ) f ( A AC A 12 ) )
114 unknown-name|MODULES ( AB ( 2 ) BC ( 2 ) AC ( 2 ) ) FLOWS ( none ( A AC A 12 A AB A 3 A BC B 3 A AC 3 ) f ( A AC A 12 ) )
116 number-not|MODULES ( AB ( 2 ) BC ( 2 ) AC ( 2 ) ) FLOWS ( none ( A AC A 12 A AB A 3 A BC B 3 A AC C C 3 ) f ( A AC A 12 ) )
114 unknown-name|MODULES ( AB ( 2 ) BC ( 2 ) AC ( 2 ) ) FLOWS ( none ( A AC A 12 A AB A 3 A BC B 3 A AC x 3 ) f ( A AC A 12 ) )
114 token|MODULES ( AB ( 2 ) BC ( 2 ) AC ( 2 ) ) FLOWS ( none ( A AC A 12 A AB A 3 A BC B 3 A AC ( 3 ) f ( A AC A 12 ) )
114 token|MODULES ( AB ( 2 ) BC ( 2 ) AC ( 2 ) ) FLOWS ( none ( A AC A 12 A AB A 3 A BC B 3 A AC ) 3 ) f ( A AC A 12 ) )
114 unknown-name|MODULES ( AB ( 2 ) BC ( 2 ) AC ( 2 ) ) FLOWS ( none ( A AC A 12 A AB A 3 A BC B 3 A AC 0 3 ) f ( A AC A 12 ) )
116 token|MODULES ( AB ( 2 ) BC ( 2 ) AC ( 2 ) ) FLOWS ( none ( A AC A 12 A AB A 3 A BC B 3 A AC C ) f ( A AC A 12 ) )
118 unknown-name|MODULES ( AB ( 2 ) BC ( 2 ) AC ( 2 ) ) FLOWS ( none ( A AC A 12 A AB A 3 A BC B 3 A AC C 3 3 ) f ( A AC A 12 ) )
116 number-not|MODULES ( AB ( 2 ) BC ( 2 ) AC ( 2 ) ) FLOWS ( none ( A AC A 12 A AB A 3 A BC B 3 A AC C x ) f ( A AC A 12 ) )
116 token|MODULES ( AB ( 2 ) BC ( 2 ) AC ( 2 ) ) FLOWS ( none ( A AC A 12 A AB A 3 A BC B 3 A AC C ( ) f ( A AC A 12 ) )
116 token|MODULES ( AB ( 2 ) BC ( 2 ) AC ( 2 ) ) FLOWS ( none ( A AC A 12 A AB A 3 A BC B 3 A AC C ) ) f ( A AC A 12 ) )
116 zero-flow|MODULES ( AB ( 2 ) BC ( 2 ) AC ( 2 ) ) FLOWS ( none ( A AC A 12 A AB A 3 A BC B 3 A AC C 0 ) f ( A AC A 12 ) )
118 unknown-name|MODULES ( AB ( 2 ) BC ( 2 ) AC ( 2 ) ) FLOWS ( none ( A AC A 12 A AB A 3 A BC B 3 A AC C 3 f ( A AC A 12 ) )
120 limit|MODULES ( AB ( 2 ) BC ( 2 ) AC ( 2 ) ) FLOWS ( none ( A AC A 12 A AB A 3 A BC B 3 A AC C 3 ) ) f ( A AC A 12 ) )
118 unknown-name|MODULES ( AB ( 2 ) BC ( 2 ) AC ( 2 ) ) FLOWS ( none ( A AC A 12 A AB A 3 A BC B 3 A AC C 3 x f ( A AC A 12 ) )
118 token|MODULES ( AB ( 2 ) BC ( 2 ) AC ( 2 ) ) FLOWS ( none ( A AC A 12 A AB A 3 A BC B 3 A AC C 3 ( f ( A AC A 12 ) )
118 unknown-name|MODULES ( AB ( 2 ) BC ( 2 ) AC ( 2 ) ) FLOWS ( none ( A AC A 12 A AB A 3 A BC B 3 A AC C 3 0 f ( A AC A 12 ) )
120 token|MODULES ( AB ( 2 ) BC ( 2 ) AC ( 2 ) ) FLOWS ( none ( A AC A 12 A AB A 3 A BC B 3 A AC C 3 ) ( A AC A 12 ) )
122 token|MODULES ( AB ( 2 ) BC ( 2 ) AC ( 2 ) ) FLOWS ( none ( A AC A 12 A AB A 3 A BC B 3 A AC C 3 ) f f ( A AC A 12 ) )
120 unknown-name|MODULES ( AB ( 2 ) BC ( 2 ) AC ( 2 ) ) FLOWS ( none ( A AC A 12 A AB A 3 A BC B 3 A AC C 3 ) x ( A AC A 12 ) )
120 token|MODULES ( AB ( 2 ) BC ( 2 ) AC ( 2 ) ) FLOWS ( none ( A AC A 12 A AB A 3 A BC B 3 A AC C 3 ) ( ( A AC A 12 ) )
120 limit|MODULES ( AB ( 2 ) BC ( 2 ) AC ( 2 ) ) FLOWS ( none ( A AC A 12 A AB A 3 A BC B 3 A AC C 3 ) ) ( A AC A 12 ) )
120 unknown-name|MODULES ( AB ( 2 ) BC ( 2 ) AC ( 2 ) ) FLOWS ( none ( A AC A 12 A AB A 3 A BC B 3 A AC C 3 ) 0 ( A AC A 12 ) )
122 token|MODULES ( AB ( 2 ) BC ( 2 ) AC ( 2 ) ) FLOWS ( none ( A AC A 12 A AB A 3 A BC B 3 A AC C 3 ) f A AC A 12 ) )
124 token|MODULES ( AB ( 2 ) BC ( 2 ) AC ( 2 ) ) FLOWS ( none ( A AC A 12 A AB A 3 A BC B 3 A AC C 3 ) f ( ( A AC A 12 ) )
122 token|MODULES ( AB ( 2 ) BC ( 2 ) AC ( 2 ) ) FLOWS ( none ( A AC A 12 A AB A 3 A BC B 3 A AC C 3 ) f x A AC A 12 ) )
122 token|MODULES ( AB ( 2 ) BC ( 2 ) AC ( 2 ) ) FLOWS ( none ( A AC A 12 A AB A 3 A BC B 3 A AC C 3 ) f ) A AC A 12 ) )
122 token|MODULES ( AB ( 2 ) BC ( 2 ) AC ( 2 ) ) FLOWS ( none ( A AC A 12 A AB A 3 A BC B 3 A AC C 3 ) f 0 A AC A 12 ) )
124 unknown-name|MODULES ( AB ( 2 ) BC ( 2 ) AC ( 2 ) ) FLOWS ( none ( A AC A 12 A AB A 3 A BC B 3 A AC C 3 ) f ( AC A 12 ) )
126 unknown-name|MODULES ( AB ( 2 ) BC ( 2 ) AC ( 2 ) ) FLOWS ( none ( A AC A 12 A AB A 3 A BC B 3 A AC C 3 ) f ( A A AC A 12 ) )
124 unknown-name|MODULES ( AB ( 2 ) BC ( 2 ) AC ( 2 ) ) FLOWS ( none ( A AC A 12 A AB A 3 A BC B 3 A AC C 3 ) f ( x AC A 12 ) )
124 token|MODULES ( AB ( 2 ) BC ( 2 ) AC ( 2 ) ) FLOWS ( none ( A AC A 12 A AB A 3 A BC B 3 A AC C 3 ) f ( ( AC A 12 ) )
126 unknown-name|MODULES ( AB ( 2 ) BC ( 2 ) AC ( 2 ) ) FLOWS ( none ( A AC A 12 A AB A 3 A BC B 3 A AC C 3 ) f ( ) AC A 12 ) )
124 unknown-name|MODULES ( AB ( 2 ) BC ( 2 ) AC ( 2 ) ) FLOWS ( none ( A AC A 12 A AB A 3 A BC B 3 A AC C 3 ) f ( 0 AC A 12 ) )
126 unknown-name|MODULES ( AB ( 2 ) BC ( 2 ) AC ( 2 ) ) FLOWS ( none ( A AC A 12 A AB A 3 A BC B 3 A AC C 3 ) f ( A A 12 ) )
129 unknown-name|MODULES ( AB ( 2 ) BC ( 2 ) AC ( 2 ) ) FLOWS ( none ( A AC A 12 A AB A 3 A BC B 3 A AC C 3 ) f ( A AC AC A 12 ) )
126 unknown-name|MODULES ( AB ( 2 ) BC ( 2 ) AC ( 2 ) ) FLOWS ( none ( A AC A 12 A AB A 3 A BC B 3 A AC C 3 ) f ( A x A 12 ) )
126 token|MODULES ( AB ( 2 ) BC ( 2 ) AC ( 2 ) ) FLOWS ( none ( A AC A 12 A AB A 3 A BC B 3 A AC C 3 ) f ( A ( A 12 ) )
126 token|MODULES ( AB ( 2 ) BC ( 2 ) AC ( 2 ) ) FLOWS ( none ( A AC A 12 A AB A 3 A BC B 3 A AC C 3 ) f ( A ) A 12 ) )
126 unknown-name|MODULES ( AB ( 2 ) BC ( 2 ) AC ( 2 ) ) FLOWS ( none ( A AC A 12 A AB A 3 A BC B 3 A AC C 3 ) f ( A 0 A 12 ) )
129 unknown-name|MODULES ( AB ( 2 ) BC ( 2 ) AC ( 2 ) ) FLOWS ( none ( A AC A 12 A AB A 3 A BC B 3 A AC C 3 ) f ( A AC 12 ) )
131 number-not|MODULES ( AB ( 2 ) BC ( 2 ) AC ( 2 ) ) FLOWS ( none ( A AC A 12 A AB A 3 A BC B 3 A AC C 3 ) f ( A AC A A 12 ) )
129 unknown-name|MODULES ( AB ( 2 ) BC ( 2 ) AC ( 2 ) ) FLOWS ( none ( A AC A 12 A AB A 3 A BC B 3 A AC C 3 ) f ( A AC x 12 ) )
129 token|MODULES ( AB ( 2 ) BC ( 2 ) AC ( 2 ) ) FLOWS ( none ( A AC A 12 A AB A 3 A BC B 3 A AC C 3 ) f ( A AC ( 12 ) )
129 token|MODULES ( AB ( 2 ) BC ( 2 ) AC ( 2 ) ) FLOWS ( none ( A AC A 12 A AB A 3 A BC B 3 A AC C 3 ) f ( A AC ) 12 ) )
129 unknown-name|MODULES ( AB ( 2 ) BC ( 2 ) AC ( 2 ) ) FLOWS ( none ( A AC A 12 A AB A 3 A BC B 3 A AC C 3 ) f ( A AC 0 12 ) )
131 token|MODULES ( AB ( 2 ) BC ( 2 ) AC ( 2 ) ) FLOWS ( none ( A AC A 12 A AB A 3 A BC B 3 A AC C 3 ) f ( A AC A ) )
134 unknown-name|MODULES ( AB ( 2 ) BC ( 2 ) AC ( 2 ) ) FLOWS ( none ( A AC A 12 A AB A 3 A BC B 3 A AC C 3 ) f ( A AC A 12 12 ) )
131 number-not|MODULES ( AB ( 2 ) BC ( 2 ) AC ( 2 ) ) FLOWS ( none ( A AC A 12 A AB A 3 A BC B 3 A AC C 3 ) f ( A AC A x ) )
131 token|MODULES ( AB ( 2 ) BC ( 2 ) AC ( 2 ) ) FLOWS ( none ( A AC A 12 A AB A 3 A BC B 3 A AC C 3 ) f ( A AC A ( ) )
131 token|MODULES ( AB ( 2 ) BC ( 2 ) AC ( 2 ) ) FLOWS ( none ( A AC A 12 A AB A 3 A BC B 3 A AC C 3 ) f ( A AC A ) ) )
131 zero-flow|MODULES ( AB ( 2 ) BC ( 2 ) AC ( 2 ) ) FLOWS ( none ( A AC A 12 A AB A 3 A BC B 3 A AC C 3 ) f ( A AC A 0 ) )
135 ended|MODULES ( AB ( 2 ) BC ( 2 ) AC ( 2 ) ) FLOWS ( none ( A AC A 12 A AB A 3 A BC B 3 A AC C 3 ) f ( A AC A 12 )
138 section|MODULES ( AB ( 2 ) BC ( 2 ) AC ( 2 ) ) FLOWS ( none ( A AC A 12 A AB A 3 A BC B 3 A AC C 3 ) f ( A AC A 12 ) ) )
134 unknown-name|MODULES ( AB ( 2 ) BC ( 2 ) AC ( 2 ) ) FLOWS ( none ( A AC A 12 A AB A 3 A BC B 3 A AC C 3 ) f ( A AC A 12 x )
134 token|MODULES ( AB ( 2 ) BC ( 2 ) AC ( 2 ) ) FLOWS ( none ( A AC A 12 A AB A 3 A BC B 3 A AC C 3 ) f ( A AC A 12 ( )
134 unknown-name|MODULES ( AB ( 2 ) BC ( 2 ) AC ( 2 ) ) FLOWS ( none ( A AC A 12 A AB A 3 A BC B 3 A AC C 3 ) f ( A AC A 12 0 )
135 ended|MODULES ( AB ( 2 ) BC ( 2 ) AC ( 2 ) ) FLOWS ( none ( A AC A 12 A AB A 3 A BC B 3 A AC C 3 ) f ( A AC A 12 )
138 section|MODULES ( AB ( 2 ) BC ( 2 ) AC ( 2 ) ) FLOWS ( none ( A AC A 12 A AB A 3 A BC B 3 A AC C 3 ) f ( A AC A 12 ) ) )
136 unknown-name|MODULES ( AB ( 2 ) BC ( 2 ) AC ( 2 ) ) FLOWS ( none ( A AC A 12 A AB A 3 A BC B 3 A AC C 3 ) f ( A AC A 12 ) x
136 token|MODULES ( AB ( 2 ) BC ( 2 ) AC ( 2 ) ) FLOWS ( none ( A AC A 12 A AB A 3 A BC B 3 A AC C 3 ) f ( A AC A 12 ) (
136 unknown-name|MODULES ( AB ( 2 ) BC ( 2 ) AC ( 2 ) ) FLOWS ( none ( A AC A 12 A AB A 3 A BC B 3 A AC C 3 ) f ( A AC A 12 ) 0
27 ended|
34 ended|MODULES
36 ended|MODULES (
39 ended|MODULES ( AB
41 ended|MODULES ( AB (
43 ended|MODULES ( AB ( 2
45 ended|MODULES ( AB ( 2 )
48 ended|MODULES ( AB ( 2 ) BC
50 ended|MODULES ( AB ( 2 ) BC (
52 ended|MODULES ( AB ( 2 ) BC ( 2
54 ended|MODULES ( AB ( 2 ) BC ( 2 )
57 ended|MODULES ( AB ( 2 ) BC ( 2 ) AC
59 ended|MODULES ( AB ( 2 ) BC ( 2 ) AC (
61 ended|MODULES ( AB ( 2 ) BC ( 2 ) AC ( 2
63 ended|MODULES ( AB ( 2 ) BC ( 2 ) AC ( 2 )
65 ended|MODULES ( AB ( 2 ) BC ( 2 ) AC ( 2 ) )
71 ended|MODULES ( AB ( 2 ) BC ( 2 ) AC ( 2 ) ) FLOWS
73 ended|MODULES ( AB ( 2 ) BC ( 2 ) AC ( 2 ) ) FLOWS (
78 ended|MODULES ( AB ( 2 ) BC ( 2 ) AC ( 2 ) ) FLOWS ( none
80 ended|MODULES ( AB ( 2 ) BC ( 2 ) AC ( 2 ) ) FLOWS ( none (
82 ended|MODULES ( AB ( 2 ) BC ( 2 ) AC ( 2 ) ) FLOWS ( none ( A
85 ended|MODULES ( AB ( 2 ) BC ( 2 ) AC ( 2 ) ) FLOWS ( none ( A AC
87 ended|MODULES ( AB ( 2 ) BC ( 2 ) AC ( 2 ) ) FLOWS ( none ( A AC A
90 ended|MODULES ( AB ( 2 ) BC ( 2 ) AC ( 2 ) ) FLOWS ( none ( A AC A 12
92 ended|MODULES ( AB ( 2 ) BC ( 2 ) AC ( 2 ) ) FLOWS ( none ( A AC A 12 A
95 ended|MODULES ( AB ( 2 ) BC ( 2 ) AC ( 2 ) ) FLOWS ( none ( A AC A 12 A AB
97 ended|MODULES ( AB ( 2 ) BC ( 2 ) AC ( 2 ) ) FLOWS ( none ( A AC A 12 A AB A
99 ended|MODULES ( AB ( 2 ) BC ( 2 ) AC ( 2 ) ) FLOWS ( none ( A AC A 12 A AB A 3
101 ended|MODULES ( AB ( 2 ) BC ( 2 ) AC ( 2 ) ) FLOWS ( none ( A AC A 12 A AB A 3 A
104 ended|MODULES ( AB ( 2 ) BC ( 2 ) AC ( 2 ) ) FLOWS ( none ( A AC A 12 A AB A 3 A BC
106 ended|MODULES ( AB ( 2 ) BC ( 2 ) AC ( 2 ) ) FLOWS ( none ( A AC A 12 A AB A 3 A BC B
108 ended|MODULES ( AB ( 2 ) BC ( 2 ) AC ( 2 ) ) FLOWS ( none ( A AC A 12 A AB A 3 A BC B 3
110 ended|MODULES ( AB ( 2 ) BC ( 2 ) AC ( 2 ) ) FLOWS ( none ( A AC A 12 A AB A 3 A BC B 3 A
113 ended|MODULES ( AB ( 2 ) BC ( 2 ) AC ( 2 ) ) FLOWS ( none ( A AC A 12 A AB A 3 A BC B 3 A AC
115 ended|MODULES ( AB ( 2 ) BC ( 2 ) AC ( 2 ) ) FLOWS ( none ( A AC A 12 A AB A 3 A BC B 3 A AC C
117 ended|MODULES ( AB ( 2 ) BC ( 2 ) AC ( 2 ) ) FLOWS ( none ( A AC A 12 A AB A 3 A BC B 3 A AC C 3
119 ended|MODULES ( AB ( 2 ) BC ( 2 ) AC ( 2 ) ) FLOWS ( none ( A AC A 12 A AB A 3 A BC B 3 A AC C 3 )
121 ended|MODULES ( AB ( 2 ) BC ( 2 ) AC ( 2 ) ) FLOWS ( none ( A AC A 12 A AB A 3 A BC B 3 A AC C 3 ) f
123 ended|MODULES ( AB ( 2 ) BC ( 2 ) AC ( 2 ) ) FLOWS ( none ( A AC A 12 A AB A 3 A BC B 3 A AC C 3 ) f (
125 ended|MODULES ( AB ( 2 ) BC ( 2 ) AC ( 2 ) ) FLOWS ( none ( A AC A 12 A AB A 3 A BC B 3 A AC C 3 ) f ( A
128 ended|MODULES ( AB ( 2 ) BC ( 2 ) AC ( 2 ) ) FLOWS ( none ( A AC A 12 A AB A 3 A BC B 3 A AC C 3 ) f ( A AC
130 ended|MODULES ( AB ( 2 ) BC ( 2 ) AC ( 2 ) ) FLOWS ( none ( A AC A 12 A AB A 3 A BC B 3 A AC C 3 ) f ( A AC A
133 ended|MODULES ( AB ( 2 ) BC ( 2 ) AC ( 2 ) ) FLOWS ( none ( A AC A 12 A AB A 3 A BC B 3 A AC C 3 ) f ( A AC A 12
135 ended|MODULES ( AB ( 2 ) BC ( 2 ) AC ( 2 ) ) FLOWS ( none ( A AC A 12 A AB A 3 A BC B 3 A AC C 3 ) f ( A AC A 12 )
";

#[test]
fn names_counts_and_flows_have_limits(rt: HostRuntime) {
    assert_eq!(rt;
        first_difference(rt.alloc(), Format::Flows, b"", OTHER_HEADER),
        None
    );
    assert_eq!(rt;
        first_difference(rt.alloc(), Format::Flows, HEADER, LIMITS),
        None
    );
}

#[test]
fn damaged_flows_are_refused_at_their_first_fault(rt: HostRuntime) {
    assert_eq!(rt;
        first_difference(rt.alloc(), Format::Flows, HEADER, DAMAGED),
        None
    );
}
