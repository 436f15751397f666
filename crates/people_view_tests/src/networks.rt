use crate::runs::Row;

/// Parts of the network, what replaces them, and the messages: its first line.
pub(crate) const FIRST_LINES: [Row; 9] = [
    (
        b"?SNDlib native format; type: network; version: 1.0",
        b"?SNDlib native format; type: network; version: 2.0",
        b"net:1:1: this is no network
    ?SNDlib native format; type: network; version: 2.0
    ^
  here stands `?SNDlib`
  the first line of a network is: ?SNDlib native format; type: network; version: 1.0
  the first line begins so, but ends otherwise: is it of another version?
refused network header at 0
",
    ),
    (
        b"?SNDlib native format; type: network; version: 1.0",
        b"?SNDlib native format; type: model; version: 1.0",
        b"net:1:1: this is no network
    ?SNDlib native format; type: model; version: 1.0
    ^
  here stands `?SNDlib`
  the first line of a network is: ?SNDlib native format; type: network; version: 1.0
  the file seems to be a model
refused network header at 0
",
    ),
    (
        b"?SNDlib native format; type: network; version: 1.0",
        b"?planner report; version: 1",
        b"net:1:1: this is no network
    ?planner report; version: 1
    ^
  here stands `?planner`
  the first line of a network is: ?SNDlib native format; type: network; version: 1.0
  the file seems to be a report
refused network header at 0
",
    ),
    (
        b"?SNDlib native format; type: network; version: 1.0",
        b"?planner failures; version: 1",
        b"net:1:1: this is no network
    ?planner failures; version: 1
    ^
  here stands `?planner`
  the first line of a network is: ?SNDlib native format; type: network; version: 1.0
  the file seems to be a failure list
refused network header at 0
",
    ),
    (
        b"?SNDlib native format; type: network; version: 1.0",
        b"?planner script; version: 1",
        b"net:1:1: this is no network
    ?planner script; version: 1
    ^
  here stands `?planner`
  the first line of a network is: ?SNDlib native format; type: network; version: 1.0
  the file seems to be a script
refused network header at 0
",
    ),
    (
        b"?SNDlib native format; type: network; version: 1.0",
        b"?planner flows; version: 1",
        b"net:1:1: this is no network
    ?planner flows; version: 1
    ^
  here stands `?planner`
  the first line of a network is: ?SNDlib native format; type: network; version: 1.0
  the file seems to be a file of flows
refused network header at 0
",
    ),
    (
        b"?SNDlib native format; type: network; version: 1.0",
        b"<?xml version=\"1.0\"?>",
        b"net:1:1: this is no network
    <?xml version=\"1.0\"?>
    ^
  here stands `<?xml`
  the first line of a network is: ?SNDlib native format; type: network; version: 1.0
  the file seems to be XML: a network is read in SNDlib's native format
refused network header at 0
",
    ),
    (
        b"?SNDlib native format; type: network; version: 1.0",
        b"# a comment first",
        b"net:1:1: this is no network
    # a comment first
    ^
  the first line of a network is: ?SNDlib native format; type: network; version: 1.0
refused network header at 0
",
    ),
    (
        b"?SNDlib native format; type: network; version: 1.0\n",
        b"",
        b"net:1:1: this is no network
    NODES ( Aachen Berlin Celle )
    ^
  here stands `NODES`
  the first line of a network is: ?SNDlib native format; type: network; version: 1.0
refused network header at 0
",
    ),
];

/// Parts of the network, what replaces them, and the messages: sections, cut files, and words and parentheses.
pub(crate) const SECTIONS: [Row; 14] = [
    (
        b"NODES ( Aachen Berlin Celle )\n",
        b"",
        b"net:2:1: another section is expected here, or its parenthesis, or the end of the file
    LINKS (
    ^
  here stands `LINKS`
  the sections are NODES, LINKS and DEMANDS, in this order and each in parentheses; META may stand before them, and ADMISSIBLE_PATHS after them
refused network section at 51
",
    ),
    (
        b"LINKS (
  AB ( Aachen Berlin ) 0 0 0 0 ( 10.00 5.00 )
  BC ( Berlin Celle ) 0 0 0 0 ( 10.00 5.00 )
  West ( Aachen Celle ) 0 0 0 0 ( 10.00 5.00 )
)
",
        b"",
        b"net:3:1: another section is expected here, or its parenthesis, or the end of the file
    DEMANDS (
    ^
  here stands `DEMANDS`
  the sections are NODES, LINKS and DEMANDS, in this order and each in parentheses; META may stand before them, and ADMISSIBLE_PATHS after them
refused network section at 81
",
    ),
    (
        b"DEMANDS (
  D1 ( Aachen Celle ) 1 12.00 UNLIMITED
)
",
        b"",
        b"net:8:1: the file ends too early\n    \n    ^\n  the file ends here\n  is it cut off, or does a parenthesis stay open?\nrefused network ended at 229\n",
    ),
    (
        b"NODES ( Aachen Berlin Celle )\nLINKS (",
        b"LINKS (
)
NODES ( Aachen Berlin Celle )
X (",
        b"net:2:1: another section is expected here, or its parenthesis, or the end of the file
    LINKS (
    ^
  here stands `LINKS`
  the sections are NODES, LINKS and DEMANDS, in this order and each in parentheses; META may stand before them, and ADMISSIBLE_PATHS after them
refused network section at 51
",
    ),
    (
        b"NODES ( Aachen Berlin Celle )",
        b"NODES ( Aachen Berlin Celle )\nDEMANDS ( )",
        b"net:3:1: another section is expected here, or its parenthesis, or the end of the file
    DEMANDS ( )
    ^
  here stands `DEMANDS`
  the sections are NODES, LINKS and DEMANDS, in this order and each in parentheses; META may stand before them, and ADMISSIBLE_PATHS after them
refused network section at 81
",
    ),
    (
        b"  D1 ( Aachen Celle ) 1 12.00 UNLIMITED\n)\n",
        b"  D1 ( Aachen Celle ) 1 12.00 UNLIMITED
)
COSTS ( )
",
        b"net:11:1: another section is expected here, or its parenthesis, or the end of the file
    COSTS ( )
    ^
  here stands `COSTS`
  the sections are NODES, LINKS and DEMANDS, in this order and each in parentheses; META may stand before them, and ADMISSIBLE_PATHS after them
refused network section at 281
",
    ),
    (
        b"NODES ( Aachen Berlin Celle )",
        b"NODES Aachen Berlin Celle )",
        b"net:2:7: another section is expected here, or its parenthesis, or the end of the file
    NODES Aachen Berlin Celle )
          ^
  here stands `Aachen`
  the sections are NODES, LINKS and DEMANDS, in this order and each in parentheses; META may stand before them, and ADMISSIBLE_PATHS after them
refused network section at 57
",
    ),
    (
        b"DEMANDS (",
        b"demands (",
        b"net:8:1: another section is expected here, or its parenthesis, or the end of the file
    demands (
    ^
  here stands `demands`
  the sections are NODES, LINKS and DEMANDS, in this order and each in parentheses; META may stand before them, and ADMISSIBLE_PATHS after them
refused network section at 229
",
    ),
    (
        b"0 0 0 0 ( 10.00 5.00 )
)
DEMANDS (
  D1 ( Aachen Celle ) 1 12.00 UNLIMITED
)
",
        b"0 0 0",
        b"net:6:30: the file ends too early
      West ( Aachen Celle ) 0 0 0
                                 ^
  the file ends here
  is it cut off, or does a parenthesis stay open?
refused network ended at 209
",
    ),
    (
        b" UNLIMITED\n)\n",
        b" UNLIMITED\n",
        b"net:10:1: the file ends too early\n    \n    ^\n  the file ends here\n  is it cut off, or does a parenthesis stay open?\nrefused network ended at 279\n",
    ),
    (
        b"NODES ( Aachen Berlin Celle )",
        b"META ( ( a )\nNODES ( Aachen Berlin Celle )",
        b"net:12:1: the file ends too early\n    \n    ^\n  the file ends here\n  is it cut off, or does a parenthesis stay open?\nrefused network ended at 294\n",
    ),
    (
        b"AB ( Aachen Berlin ) 0 0 0 0 (",
        b"AB ( Aachen Berlin ) 0 0 0 ( (",
        b"net:4:30: another word or parenthesis is expected here
      AB ( Aachen Berlin ) 0 0 0 ( ( 10.00 5.00 )
                                 ^
  here stands `(`
  a link is: NAME ( NODE NODE ) number number number number ( capacity cost .. ); a demand is: NAME ( NODE NODE ) unit value UNLIMITED
refused network token at 118
",
    ),
    (
        b"AB ( Aachen",
        b"AB Aachen",
        b"net:4:6: another word or parenthesis is expected here
      AB Aachen Berlin ) 0 0 0 0 ( 10.00 5.00 )
         ^
  here stands `Aachen`
  a link is: NAME ( NODE NODE ) number number number number ( capacity cost .. ); a demand is: NAME ( NODE NODE ) unit value UNLIMITED
refused network token at 94
",
    ),
    (
        b"AB ( Aachen Berlin )",
        b"AB ( Aachen )",
        b"net:4:15: another word or parenthesis is expected here
      AB ( Aachen ) 0 0 0 0 ( 10.00 5.00 )
                  ^
  here stands `)`
  a link is: NAME ( NODE NODE ) number number number number ( capacity cost .. ); a demand is: NAME ( NODE NODE ) unit value UNLIMITED
refused network token at 103
",
    ),
];

/// Parts of the network, what replaces them, and the messages: numbers.
pub(crate) const NUMBERS: [Row; 10] = [
    (
        b"1 12.00",
        b"1 12,00",
        b"net:9:25: this is no number
      D1 ( Aachen Celle ) 1 12,00 UNLIMITED
                            ^
  here stands `12,00`
  a number is digits, or digits, a point and digits; it has no sign, no exponent and no comma, and a path length is digits alone, or UNLIMITED
refused network number-not at 263
",
    ),
    (
        b"1 12.00",
        b"1 1.2e1",
        b"net:9:25: this is no number
      D1 ( Aachen Celle ) 1 1.2e1 UNLIMITED
                            ^
  here stands `1.2e1`
  a number is digits, or digits, a point and digits; it has no sign, no exponent and no comma, and a path length is digits alone, or UNLIMITED
refused network number-not at 263
",
    ),
    (
        b"1 12.00",
        b"1 -12.00",
        b"net:9:25: this is no number
      D1 ( Aachen Celle ) 1 -12.00 UNLIMITED
                            ^
  here stands `-12.00`
  a number is digits, or digits, a point and digits; it has no sign, no exponent and no comma, and a path length is digits alone, or UNLIMITED
refused network number-not at 263
",
    ),
    (
        b"1 12.00",
        b"1 .5",
        b"net:9:25: this is no number
      D1 ( Aachen Celle ) 1 .5 UNLIMITED
                            ^
  here stands `.5`
  a number is digits, or digits, a point and digits; it has no sign, no exponent and no comma, and a path length is digits alone, or UNLIMITED
refused network number-not at 263
",
    ),
    (
        b"1 12.00",
        b"1 12.",
        b"net:9:25: this is no number
      D1 ( Aachen Celle ) 1 12. UNLIMITED
                            ^
  here stands `12.`
  a number is digits, or digits, a point and digits; it has no sign, no exponent and no comma, and a path length is digits alone, or UNLIMITED
refused network number-not at 263
",
    ),
    (
        b"1 12.00 UNLIMITED",
        b"1 12.00 2.5",
        b"net:9:31: this is no number
      D1 ( Aachen Celle ) 1 12.00 2.5
                                  ^
  here stands `2.5`
  a number is digits, or digits, a point and digits; it has no sign, no exponent and no comma, and a path length is digits alone, or UNLIMITED
refused network number-not at 269
",
    ),
    (
        b"1 12.00",
        b"1.5 12.00",
        b"net:9:23: this number has too many places
      D1 ( Aachen Celle ) 1.5 12.00 UNLIMITED
                          ^
  here stands `1.5`
  past the sixth place after the point there are only zeros, and a routing unit is a whole number
refused network number-fine at 261
",
    ),
    (
        b"1 12.00",
        b"1 0.0000001",
        b"net:9:25: this number has too many places
      D1 ( Aachen Celle ) 1 0.0000001 UNLIMITED
                            ^
  here stands `0.0000001`
  past the sixth place after the point there are only zeros, and a routing unit is a whole number
refused network number-fine at 263
",
    ),
    (
        b"1 12.00",
        b"1 1099511627.776",
        b"net:9:25: this number is too large
      D1 ( Aachen Celle ) 1 1099511627.776 UNLIMITED
                            ^
  here stands `1099511627.776`
  an amount, and a demand's unit times its value, is below 1099511627.776, or below 1099511.627776 in a file with a finer number than thousandths
refused network number-large at 263
",
    ),
    (
        b"1 12.00",
        b"1000000 2000000",
        b"net:9:31: this number is too large
      D1 ( Aachen Celle ) 1000000 2000000 UNLIMITED
                                  ^
  here stands `2000000`
  an amount, and a demand's unit times its value, is below 1099511627.776, or below 1099511.627776 in a file with a finer number than thousandths
refused network number-large at 269
",
    ),
];

/// Parts of the network, what replaces them, and the messages: names, ends and limits.
pub(crate) const NAMES: [Row; 14] = [
    (
        b"AB ( Aachen Berlin )",
        b"AB ( Aachen Berlni )",
        b"net:4:15: no node, link or demand of the kind that is due here has this name
      AB ( Aachen Berlni ) 0 0 0 0 ( 10.00 5.00 )
                  ^
  here stands `Berlni`
  a link or a demand ends at nodes of the list, and an admissible path is one of links for a demand; upper and lower case differ
  did you mean `Berlin`?
refused network unknown-name at 103
",
    ),
    (
        b"AB ( Aachen Berlin )",
        b"AB ( aachen Berlin )",
        b"net:4:8: no node, link or demand of the kind that is due here has this name
      AB ( aachen Berlin ) 0 0 0 0 ( 10.00 5.00 )
           ^
  here stands `aachen`
  a link or a demand ends at nodes of the list, and an admissible path is one of links for a demand; upper and lower case differ
  did you mean `Aachen`?
refused network unknown-name at 96
",
    ),
    (
        b"D1 ( Aachen Celle )",
        b"D1 ( Aachen Dortmund )",
        b"net:9:15: no node, link or demand of the kind that is due here has this name
      D1 ( Aachen Dortmund ) 1 12.00 UNLIMITED
                  ^
  here stands `Dortmund`
  a link or a demand ends at nodes of the list, and an admissible path is one of links for a demand; upper and lower case differ
refused network unknown-name at 253
",
    ),
    (
        b"NODES ( Aachen Berlin Celle )",
        b"NODES ( Aachen Berlin Aachen )",
        b"net:2:23: this name stands twice
    NODES ( Aachen Berlin Aachen )
                          ^
  here stands `Aachen`
  each node, each link and each demand has a name of its own
refused network double-name at 73
",
    ),
    (
        b"  BC (",
        b"  AB (",
        b"net:5:3: this name stands twice
      AB ( Berlin Celle ) 0 0 0 0 ( 10.00 5.00 )
      ^
  here stands `AB`
  each node, each link and each demand has a name of its own
refused network double-name at 137
",
    ),
    (
        b"  D1 ( Aachen Celle ) 1 12.00 UNLIMITED",
        b"  D1 ( Aachen Celle ) 1 12.00 UNLIMITED\n  D1 ( Aachen Celle ) 1 12.00 UNLIMITED",
        b"net:10:3: this name stands twice
      D1 ( Aachen Celle ) 1 12.00 UNLIMITED
      ^
  here stands `D1`
  each node, each link and each demand has a name of its own
refused network double-name at 281
",
    ),
    (
        b"AB ( Aachen Berlin )",
        b"AB ( Aachen Aachen )",
        b"net:4:15: this link joins a node to itself
      AB ( Aachen Aachen ) 0 0 0 0 ( 10.00 5.00 )
                  ^
  here stands `Aachen`
  the ends of a link are two nodes
refused network self-link at 103
",
    ),
    (
        b"D1 ( Aachen Celle )",
        b"D1 ( Celle Celle )",
        b"net:9:14: this demand goes from a node to itself
      D1 ( Celle Celle ) 1 12.00 UNLIMITED
                 ^
  here stands `Celle`
  the ends of a demand are two nodes
refused network self-demand at 252
",
    ),
    (
        b"AB ( Aachen Berlin ) 0 0 0 0 ( 10.00 5.00 )",
        b"AB ( Aachen Berlin ) 0 0 0 0 ( 0.000 5.00 )",
        b"net:4:34: this module has no capacity
      AB ( Aachen Berlin ) 0 0 0 0 ( 0.000 5.00 )
                                     ^
  here stands `0.000`
  the capacity of a module is above 0
refused network zero-module at 122
",
    ),
    (
        b"AB ( Aachen Berlin ) 0 0 0 0 ( 10.00 5.00 )",
        b"AB ( Aachen Berlin ) 5 0 0 0 ( )",
        b"net:4:34: this link has capacity in place and no module
      AB ( Aachen Berlin ) 5 0 0 0 ( )
                                     ^
  here stands `)`
  a link is planned only with a module; give it one, or leave the link out
refused network fixed-link at 122
",
    ),
    (
        b"AB ( Aachen Berlin ) 0 0 0 0 ( 10.00 5.00 )",
        b"AB ( Aachen Berlin ) 0 0 0 0 (
1 1 2 1 3 1 4 1
1 1 2 1 3 1 4 1
1 1 2 1 3 1 4 1
1 1 2 1 3 1 4 1
1 1 )",
        b"net:9:1: this module is one too many
    1 1 )
    ^
  here stands `1`
  a link has at most 16 modules
refused network limit-modules at 186
",
    ),
    (
        b"NODES ( Aachen Berlin Celle )",
        b"NODES ( Aachen Berlin Celle 10 11 12 13 14 15 16 17 18 19 20 21 22 23 24 25 26 27 28 29 30 31 32 33 34 35 36 37 38 39 40 41 42 43 44 45 46 47 48 49 50 51 52 53 54 55 56 57 58 59 60 61 62 63 64 65 66 67 68 69
70 71 72 73 74 75 76 77 78 79 80 81 82 83 84 85 86 87 88 89 90 91 92 93 94 95 96 97 98 99 100 101 102 103 104 105 106 107 108 109 110 111 112 113 114 115 116 117 118 119 120 121 122 123 124 125 126 127 128 129
130 131 132 133 134
135
)",
        b"net:5:1: this node is one too many
    135
    ^
  here stands `135`
  a network has at most 128 nodes
refused network limit-nodes at 489
",
    ),
    (
        b"NODES ( Aachen Berlin Celle )",
        b"NODES ( xxxxxxxxxxxxxxxxxxxxxxxxxxxxxxxxxxxxxxxxxxxxxxxxxxxxxxxxxxxxxxxxxxxxxxxxxxxxxxxxxxxxxxxxxxxxxxxxxxxxxxxxxxxxxxxxxxxxxxxxxxxxxxxxxxxxxxxxxxxxxxxxxxxxxxxxxxxxxxxxxxxxxxxxxxxxxxxxxxxxxxxxxxxxxxxxxxxxxxxxxxxxxxxxxxxxxxxxxxxxxxxxxxxxxxxxxxxxxxxxxxxxxxxxxxxxxxxx )",
        b"net:2:9: this name is too long
    NODES ( xxxxxxxxxxxxxxxxxxxxxxxxxxxxxxxxxxxxxxxxxxxxxxxxxxxxxxxxxxxx
            ^
  here stands `xxxxxxxxxxxxxxxxxxxxxxxxxxxxxxxxxxxxxxxx..`
  a name has at most 255 bytes
refused network limit-name at 59
",
    ),
    (
        b"  D1 ( Aachen Celle ) 1 12.00 UNLIMITED\n",
        b"  T0 ( Aachen Celle ) 1 1099511627.775 UNLIMITED
  T1 ( Aachen Celle ) 1 1099511627.775 UNLIMITED
  T2 ( Aachen Celle ) 1 1099511627.775 UNLIMITED
  T3 ( Aachen Celle ) 1 1099511627.775 UNLIMITED
  T4 ( Aachen Celle ) 1 1099511627.775 UNLIMITED
  T5 ( Aachen Celle ) 1 1099511627.775 UNLIMITED
  T6 ( Aachen Celle ) 1 1099511627.775 UNLIMITED
  T7 ( Aachen Celle ) 1 1099511627.775 UNLIMITED
  T8 ( Aachen Celle ) 1 1099511627.775 UNLIMITED
  T9 ( Aachen Celle ) 1 1099511627.775 UNLIMITED
  T10 ( Aachen Celle ) 1 1099511627.775 UNLIMITED
  T11 ( Aachen Celle ) 1 1099511627.775 UNLIMITED
  T12 ( Aachen Celle ) 1 1099511627.775 UNLIMITED
  T13 ( Aachen Celle ) 1 1099511627.775 UNLIMITED
  T14 ( Aachen Celle ) 1 1099511627.775 UNLIMITED
  T15 ( Aachen Celle ) 1 1099511627.775 UNLIMITED
  T16 ( Aachen Celle ) 1 0.016 UNLIMITED
",
        b"net:25:26: with this demand all needs together are too large
      T16 ( Aachen Celle ) 1 0.016 UNLIMITED
                             ^
  here stands `0.016`
  they sum to less than 17592186044.416, or than 17592186.044416 in a file with a finer number than thousandths
refused network limit-total at 1054
",
    ),
];

/// A whole file, and its message.
pub(crate) type WholeRow = (&'static [u8], &'static [u8]);

/// Whole files in place of the network, with their messages.
pub(crate) const WHOLE: [WholeRow; 5] = [
    (
        b"",
        b"net:1:1: this is no network\n    \n    ^\n  the file ends here\n  the first line of a network is: ?SNDlib native format; type: network; version: 1.0\nrefused network header at 0\n",
    ),
    (
        b"\xef\xbb\xbf?SNDlib native format; type: network; version: 1.0\n",
        b"net:1:1: this is no network
    \xef\xbb\xbf?SNDlib native format; type: network; version: 1.0
    ^
  here stands `\xef\xbb\xbf?SNDlib`
  the first line of a network is: ?SNDlib native format; type: network; version: 1.0
  the file begins with a byte order mark: save it as UTF-8 without one
refused network header at 0
",
    ),
    (
        b"\xff\xfe?\x00S\x00",
        b"net:1:1: this is no network\n    \xff\xfe? S \n    ^\n  here stands `\\xff\\xfe?\\x00S\\x00`\n  the first line of a network is: ?SNDlib native format; type: network; version: 1.0\n  the file seems to be UTF-16: save it as UTF-8\nrefused network header at 0\n",
    ),
    (
        b"\x1f\x8b\x08\x00",
        b"net:1:1: this is no network\n     \x8b  \n    ^\n  here stands `\\x1f\\x8b\\x08\\x00`\n  the first line of a network is: ?SNDlib native format; type: network; version: 1.0\n  the file seems to be packed by gzip: unpack it first\nrefused network header at 0\n",
    ),
    (
        b"PK\x03\x04",
        b"net:1:1: this is no network\n    PK  \n    ^\n  here stands `PK\\x03\\x04`\n  the first line of a network is: ?SNDlib native format; type: network; version: 1.0\n  the file seems to be packed by zip: unpack it first\nrefused network header at 0\n",
    ),
];
