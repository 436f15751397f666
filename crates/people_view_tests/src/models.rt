use crate::runs::Row;

/// Parts of the model, what replaces them, and the messages.
pub(crate) const MODELS: [Row; 11] = [
    (
        b"?SNDlib native format; type: model; version: 1.0",
        b"?SNDlib native format; type: network; version: 1.0",
        b"model:1:1: this is no model
    ?SNDlib native format; type: network; version: 1.0
    ^
  here stands `?SNDlib`
  the first line of a model is: ?SNDlib native format; type: model; version: 1.0
  the file seems to be a network
refused model header at 0
",
    ),
    (
        b"\nLINK_MODEL",
        b"\nLINK_MODLE",
        b"model:3:1: this is no key of a model
    LINK_MODLE = UNDIRECTED
    ^
  here stands `LINK_MODLE`
  the keys are DEMAND_MODEL, LINK_MODEL, LINK_CAPACITY_MODEL, FIXED_CHARGE_MODEL, ROUTING_MODEL, ADMISSIBLE_PATH_MODEL, HOP_LIMIT_MODEL and SURVIVABILITY_MODEL
  did you mean `LINK_MODEL`?
refused model key at 75
",
    ),
    (
        b"\nLINK_MODEL",
        b"\nOBJECTIVE_MODEL",
        b"model:3:1: this is no key of a model
    OBJECTIVE_MODEL = UNDIRECTED
    ^
  here stands `OBJECTIVE_MODEL`
  the keys are DEMAND_MODEL, LINK_MODEL, LINK_CAPACITY_MODEL, FIXED_CHARGE_MODEL, ROUTING_MODEL, ADMISSIBLE_PATH_MODEL, HOP_LIMIT_MODEL and SURVIVABILITY_MODEL
refused model key at 75
",
    ),
    (
        b"\nLINK_MODEL",
        b"\nDEMAND_MODEL",
        b"model:3:1: this key stands twice
    DEMAND_MODEL = UNDIRECTED
    ^
  here stands `DEMAND_MODEL`
  each key is given once
refused model double-key at 75
",
    ),
    (
        b"ROUTING_MODEL =",
        b"ROUTING_MODEL :",
        b"model:6:15: an aspect is a key, an equals sign and a value
    ROUTING_MODEL : CONTINUOUS
                  ^
  here stands `:`
  with spaces between them, and without parentheses
refused model token at 178
",
    ),
    (
        b"SURVIVABILITY_MODEL = UNRESTRICTED_FLOW_RECONFIGURATION\n",
        b"SURVIVABILITY_MODEL =",
        b"model:9:22: the file ends within an aspect
    SURVIVABILITY_MODEL =
                         ^
  the file ends here
  is it cut off?
refused model ended at 267
",
    ),
    (
        b"\nDEMAND_MODEL = UNDIRECTED\n",
        b"\nDEMAND_MODEL = DIRECTED\n",
        b"model:2:16: this value can't be planned with
    DEMAND_MODEL = DIRECTED
                   ^
  here stands `DIRECTED`
  its value is UNDIRECTED
refused model unsupported-DEMAND_MODEL at 64
",
    ),
    (
        b"\nDEMAND_MODEL = UNDIRECTED\n",
        b"\n",
        b"model:9:1: the file ends, and a key is missing\n    \n    ^\n  the file ends here\n  add: DEMAND_MODEL = UNDIRECTED\nrefused model missing-DEMAND_MODEL at 276\n",
    ),
    (
        b"\nLINK_MODEL = UNDIRECTED\n",
        b"\nLINK_MODEL = BIDIRECTED\n",
        b"model:3:14: this value can't be planned with
    LINK_MODEL = BIDIRECTED
                 ^
  here stands `BIDIRECTED`
  its value is UNDIRECTED
refused model unsupported-LINK_MODEL at 88
",
    ),
    (
        b"\nLINK_MODEL = UNDIRECTED\n",
        b"\n",
        b"model:9:1: the file ends, and a key is missing\n    \n    ^\n  the file ends here\n  add: LINK_MODEL = UNDIRECTED\nrefused model missing-LINK_MODEL at 278\n",
    ),
    (
        b"\nLINK_CAPACITY_MODEL = MODULAR_CAPACITIES\n",
        b"\nLINK_CAPACITY_MODEL = LINEAR_CAPACITIES\n",
        b"model:4:23: this value can't be planned with
    LINK_CAPACITY_MODEL = LINEAR_CAPACITIES
                          ^
  here stands `LINEAR_CAPACITIES`
  its value is MODULAR_CAPACITIES
refused model unsupported-LINK_CAPACITY_MODEL at 121
",
    ),
];

/// Parts of the model, what replaces them, and the messages: further aspects.
pub(crate) const OTHER_MODELS: [Row; 11] = [
    (
        b"\nLINK_CAPACITY_MODEL = MODULAR_CAPACITIES\n",
        b"\n",
        b"model:9:1: the file ends, and a key is missing\n    \n    ^\n  the file ends here\n  add: LINK_CAPACITY_MODEL = MODULAR_CAPACITIES\nrefused model missing-LINK_CAPACITY_MODEL at 261\n",
    ),
    (
        b"\nFIXED_CHARGE_MODEL = NO\n",
        b"\nFIXED_CHARGE_MODEL = yes\n",
        b"model:5:22: this value can't be planned with
    FIXED_CHARGE_MODEL = yes
                         ^
  here stands `yes`
  its value is NO or YES
refused model unsupported-FIXED_CHARGE_MODEL at 161
",
    ),
    (
        b"\nFIXED_CHARGE_MODEL = NO\n",
        b"\n",
        b"model:9:1: the file ends, and a key is missing\n    \n    ^\n  the file ends here\n  add: FIXED_CHARGE_MODEL = NO, or YES\nrefused model missing-FIXED_CHARGE_MODEL at 278\n",
    ),
    (
        b"\nROUTING_MODEL = CONTINUOUS\n",
        b"\nROUTING_MODEL = INTEGER\n",
        b"model:6:17: this value can't be planned with
    ROUTING_MODEL = INTEGER
                    ^
  here stands `INTEGER`
  its value is CONTINUOUS
refused model unsupported-ROUTING_MODEL at 180
",
    ),
    (
        b"\nROUTING_MODEL = CONTINUOUS\n",
        b"\n",
        b"model:9:1: the file ends, and a key is missing\n    \n    ^\n  the file ends here\n  add: ROUTING_MODEL = CONTINUOUS\nrefused model missing-ROUTING_MODEL at 275\n",
    ),
    (
        b"\nADMISSIBLE_PATH_MODEL = ALL_PATHS\n",
        b"\nADMISSIBLE_PATH_MODEL = EXPLICIT_LIST\n",
        b"model:7:25: this value can't be planned with
    ADMISSIBLE_PATH_MODEL = EXPLICIT_LIST
                            ^
  here stands `EXPLICIT_LIST`
  its value is ALL_PATHS
refused model unsupported-ADMISSIBLE_PATH_MODEL at 215
",
    ),
    (
        b"\nADMISSIBLE_PATH_MODEL = ALL_PATHS\n",
        b"\n",
        b"model:9:1: the file ends, and a key is missing\n    \n    ^\n  the file ends here\n  add: ADMISSIBLE_PATH_MODEL = ALL_PATHS\nrefused model missing-ADMISSIBLE_PATH_MODEL at 268\n",
    ),
    (
        b"\nHOP_LIMIT_MODEL = NO\n",
        b"\nHOP_LIMIT_MODEL = INDIVIDUAL\n",
        b"model:8:19: this value can't be planned with
    HOP_LIMIT_MODEL = INDIVIDUAL
                      ^
  here stands `INDIVIDUAL`
  its value is NO
refused model unsupported-HOP_LIMIT_MODEL at 243
",
    ),
    (
        b"\nHOP_LIMIT_MODEL = NO\n",
        b"\n",
        b"model:9:1: the file ends, and a key is missing\n    \n    ^\n  the file ends here\n  add: HOP_LIMIT_MODEL = NO\nrefused model missing-HOP_LIMIT_MODEL at 281\n",
    ),
    (
        b"\nSURVIVABILITY_MODEL = UNRESTRICTED_FLOW_RECONFIGURATION\n",
        b"\nSURVIVABILITY_MODEL = ONE_PLUS_ONE\n",
        b"model:9:23: this value can't be planned with
    SURVIVABILITY_MODEL = ONE_PLUS_ONE
                          ^
  here stands `ONE_PLUS_ONE`
  its value is NO_SURVIVABILITY or UNRESTRICTED_FLOW_RECONFIGURATION
refused model unsupported-SURVIVABILITY_MODEL at 268
",
    ),
    (
        b"\nSURVIVABILITY_MODEL = UNRESTRICTED_FLOW_RECONFIGURATION\n",
        b"\n",
        b"model:9:1: the file ends, and a key is missing\n    \n    ^\n  the file ends here\n  add: SURVIVABILITY_MODEL = NO_SURVIVABILITY, or UNRESTRICTED_FLOW_RECONFIGURATION\nrefused model missing-SURVIVABILITY_MODEL at 246\n",
    ),
];
