use crate::runs::Row;

/// Parts of the failure list, what replaces them, and the messages.
pub(crate) const LISTS: [Row; 11] = [
    (
        b"?planner failures; version: 1",
        b"?planner failures; version: 2",
        b"list:1:1: this is no failure list
    ?planner failures; version: 2
    ^
  here stands `?planner`
  the first line of a failure list is: ?planner failures; version: 1
  the first line begins so, but ends otherwise: is it of another version?
refused failures header at 0
",
    ),
    (
        b"?planner failures; version: 1",
        b"?planner report; version: 1",
        b"list:1:1: this is no failure list
    ?planner report; version: 1
    ^
  here stands `?planner`
  the first line of a failure list is: ?planner failures; version: 1
  the file seems to be a report
refused failures header at 0
",
    ),
    (
        b"FAILURES (",
        b"STATES (",
        b"list:2:1: FAILURES and its parenthesis, or ALL_SINGLE_LINKS, is expected here, or the end of the file after them
    STATES (
    ^
  here stands `STATES`
  a failure list is: FAILURES ( NAME ( LINK .. ) .. ), or ALL_SINGLE_LINKS
refused failures section at 30
",
    ),
    (
        b"  far ( West )\n)\n",
        b"  far ( West )
)
ALL_SINGLE_LINKS
",
        b"list:6:1: FAILURES and its parenthesis, or ALL_SINGLE_LINKS, is expected here, or the end of the file after them
    ALL_SINGLE_LINKS
    ^
  here stands `ALL_SINGLE_LINKS`
  a failure list is: FAILURES ( NAME ( LINK .. ) .. ), or ALL_SINGLE_LINKS
refused failures section at 75
",
    ),
    (
        b"far ( West )",
        b"far ( )",
        b"list:4:9: a failure is a name, and in parentheses at least one link
      far ( )
            ^
  here stands `)`
  as in: duct ( AB BC )
refused failures token at 66
",
    ),
    (
        b"far ( West )",
        b"far West",
        b"list:4:7: a failure is a name, and in parentheses at least one link
      far West
          ^
  here stands `West`
  as in: duct ( AB BC )
refused failures token at 64
",
    ),
    (
        b"far ( West )\n)\n",
        b"far ( West",
        b"list:4:13: the file ends too early
      far ( West
                ^
  the file ends here
  is it cut off, or does a parenthesis stay open?
refused failures ended at 70
",
    ),
    (
        b"far ( West )",
        b"far ( Wset )",
        b"list:4:9: no link of the network has this name
      far ( Wset )
            ^
  here stands `Wset`
  upper and lower case differ; is the list of another network?
refused failures unknown-link at 66
",
    ),
    (
        b"far ( West )",
        b"far ( west )",
        b"list:4:9: no link of the network has this name
      far ( west )
            ^
  here stands `west`
  upper and lower case differ; is the list of another network?
  did you mean `West`?
refused failures unknown-link at 66
",
    ),
    (
        b"  far (",
        b"  duct (",
        b"list:4:3: an earlier failure has this name
      duct ( West )
      ^
  here stands `duct`
  each failure has a name of its own
refused failures double-state at 60
",
    ),
    (
        b"  far (",
        b"  yyyyyyyyyyyyyyyyyyyyyyyyyyyyyyyyyyyyyyyyyyyyyyyyyyyyyyyyyyyyyyyyyyyyyyyyyyyyyyyyyyyyyyyyyyyyyyyyyyyyyyyyyyyyyyyyyyyyyyyyyyyyyyyyyyyyyyyyyyyyyyyyyyyyyyyyyyyyyyyyyyyyyyyyyyyyyyyyyyyyyyyyyyyyyyyyyyyyyyyyyyyyyyyyyyyyyyyyyyyyyyyyyyyyyyyyyyyyyyyyyyyyyyyyyyyyyyyy (",
        b"list:4:3: this name is too long
      yyyyyyyyyyyyyyyyyyyyyyyyyyyyyyyyyyyyyyyyyyyyyyyyyyyyyyyyyyyy
      ^
  here stands `yyyyyyyyyyyyyyyyyyyyyyyyyyyyyyyyyyyyyyyy..`
  a name has at most 255 bytes
refused failures limit-name at 60
",
    ),
];
