//! The options of the commands: a row for each, by which `clap` reads it, its help is written and `clockbed` uses it.
//!
//! The most threads of a pulse, of a sweep and of loaders are here as numbers, so that the rows wait for no bench.
//! `clockbed` proves that they are the libraries' limits.

use crate::rows::{DefaultText, FlagOption, NumberOption, RangeText, TextOption};
use clock_nodes::{LEAST_MODULUS, MAX_MODULUS};
use node_env::{MAX_MEMORY, MAX_NODES, MEMORY_UNIT};
use parameters::MAX_SWEEP_KEY;

// ---- what most rows share

const COUNT: NumberOption<&str, u32> = NumberOption {
    name: "",
    value: "COUNT",
    what: "",
    least: 1,
    most: u32::MAX,
    default: 1,
    range_text: RangeText::Ends,
    default_text: DefaultText::Number,
    needs: "",
};

const FLAG: FlagOption = FlagOption {
    name: "",
    help: "",
    needs: "",
    excludes: &[],
};

const LIST: TextOption = TextOption {
    name: "",
    value: "LIST",
    help: "",
    needs: "",
    excludes: &[],
    may_begin_with_dash: false,
};

// ---- shapes and rules

/// `--nodes`
pub const NODES: NumberOption<&str, u32> = NumberOption {
    name: "nodes",
    what: "Number of nodes",
    most: MAX_NODES,
    default: 4,
    ..COUNT
};

/// `--memory` of a shape
pub const MEMORY: NumberOption<&str, u32> = NumberOption {
    name: "memory",
    value: "BYTES",
    what: "Node memory in bytes",
    least: MEMORY_UNIT,
    most: MAX_MEMORY,
    default: 16,
    range_text: RangeText::Multiples,
    ..COUNT
};

/// `--faults`
pub const FAULTS: NumberOption<&str, u32> = NumberOption {
    name: "faults",
    what: "Faults that the clock allows",
    least: 0,
    most: MAX_NODES - 1,
    default: 1,
    ..COUNT
};

/// `--modulus`
pub const MODULUS: NumberOption<&str, u32> = NumberOption {
    name: "modulus",
    what: "Modulus of the clock",
    least: LEAST_MODULUS,
    most: MAX_MODULUS,
    default: 8,
    ..COUNT
};

// ---- images and rules as texts

/// `--text`
pub const TEXT: FlagOption = FlagOption {
    name: "text",
    help: "Read an assembler text in place of an image",
    ..FLAG
};

/// `--list`
pub const LISTING: FlagOption = FlagOption {
    name: "list",
    help: "Print slot and bytes of each instruction beside its line",
    ..FLAG
};

/// `--list` of `compile`
pub const RULE_LISTING: FlagOption = FlagOption {
    help: "Print slot and bytes of each instruction below the line of the rule that made it",
    ..LISTING
};

/// `--c` of `compile`
pub const RULE_IN_C: FlagOption = FlagOption {
    name: "c",
    help: "Print the rule as a C function over examples/c/rule.h",
    excludes: &["list"],
    ..FLAG
};

/// `--clock` of `dis`
pub const CLOCK: FlagOption = FlagOption {
    name: "clock",
    help: "Print the built-in clock in place of an image",
    ..FLAG
};

/// `--node` of `dis`
pub const NODE: TextOption = TextOption {
    name: "node",
    value: "PULSE:NODE",
    help: "Read a scenario, and print the program that this node runs in this pulse",
    excludes: &["clock"],
    ..LIST
};

/// `--explain` of `verify`
pub const EXPLAIN: FlagOption = FlagOption {
    name: "explain",
    help: "Print what is known at each slot, and why a rule is broken",
    ..FLAG
};

/// `--all` of `verify`
pub const ALL: FlagOption = FlagOption {
    name: "all",
    help: "Print all that is known at each slot; needs --explain",
    needs: "explain",
    ..FLAG
};

// ---- exec

/// `--fuel`
pub const FUEL: NumberOption<&str, u64> = NumberOption {
    name: "fuel",
    value: "STEPS",
    what: "Most steps of the run",
    least: 0,
    most: 1_000_000_000,
    default: 1_000_000,
    range_text: RangeText::Ends,
    default_text: DefaultText::Number,
    needs: "",
};

/// `--id`
pub const ID: NumberOption<&str, u32> = NumberOption {
    name: "id",
    value: "NODE",
    what: "Number of the node that runs the program",
    least: 0,
    most: MAX_NODES - 1,
    default: 0,
    ..COUNT
};

/// `--mail` of `exec`
pub const INBOX: TextOption = TextOption {
    name: "mail",
    help: "Message from each node, - for none, as 5,-,3,- [default: none]",
    may_begin_with_dash: true,
    ..LIST
};

/// `--coin`
pub const COIN: NumberOption<&str, u32> = NumberOption {
    name: "coin",
    value: "BIT",
    what: "Coin",
    least: 0,
    most: 1,
    default: 0,
    ..COUNT
};

/// `--contents`
pub const CONTENTS: TextOption = TextOption {
    name: "contents",
    value: "HEX",
    help: "First bytes of the memory in hexadecimal; the others are 0",
    ..LIST
};

/// `--show`
pub const SHOW: FlagOption = FlagOption {
    name: "show",
    help: "Print the memory and the messages sent, too",
    ..FLAG
};

/// `--trace` of `exec`
pub const STEPS: FlagOption = FlagOption {
    name: "trace",
    help: "Print each step of the run",
    ..FLAG
};

// ---- run, sweep and stress

/// `--workers` of `run`
pub const WORKERS: NumberOption<&str, u32> = NumberOption {
    name: "workers",
    what: "Threads of a pulse, if they pay",
    most: 8,
    default: 2,
    ..COUNT
};

/// `--check`
pub const CHECK: FlagOption = FlagOption {
    name: "check",
    help: "End with status 3 if a pulse violates agreement, or a property of --claims",
    ..FLAG
};

/// `--json` of `run`
pub const JSON: FlagOption = FlagOption {
    name: "json",
    help: "Print a line of JSON for each pulse, with its whole state",
    ..FLAG
};

/// `--from`
pub const FROM: NumberOption<&str, u32> = NumberOption {
    name: "from",
    value: "PULSE",
    what: "First pulse of the JSON lines",
    range_text: RangeText::Least,
    needs: "json",
    ..COUNT
};

/// `--until`
pub const UNTIL: NumberOption<&str, u32> = NumberOption {
    name: "until",
    what: "Last pulse of the JSON lines",
    default: u32::MAX,
    range_text: RangeText::Words("--from.."),
    default_text: DefaultText::Words("the scenario's"),
    ..FROM
};

/// `--claims` of `run`
pub const PROPERTIES_FILE: TextOption = TextOption {
    help: "File of properties: print for each pulse and for the run whether they hold",
    excludes: &["trace", "from", "until"],
    ..CLAIMS_FILE
};

/// `--claims` of `sweep`
pub const SWEPT_PROPERTIES: TextOption = TextOption {
    help: "File of properties: count for each seed the pulses that violate them",
    ..CLAIMS_FILE
};

/// `--claims` of `explore`
pub const EXPLORED_PROPERTIES: TextOption = TextOption {
    help: "File of properties: prove each for all runs, or print a counterexample",
    excludes: &["ask", "odds", "reach", "graph"],
    ..CLAIMS_FILE
};

/// `--trace` of `run`
pub const TRACE: TextOption = TextOption {
    name: "trace",
    value: "PULSE:NODE",
    help: "Print in place of the report what this node runs in this pulse, step by step",
    excludes: &["json", "check", "workers", "from", "until"],
    ..LIST
};

/// `--keys`
pub const KEYS: NumberOption<&str, u64> = NumberOption {
    name: "keys",
    value: "FIRST..LAST",
    what: "Seeds of the coins, both ends included",
    least: 0,
    most: MAX_SWEEP_KEY,
    default: 0,
    range_text: RangeText::Ends,
    default_text: DefaultText::Required,
    needs: "",
};

/// `--workers` of `sweep`
pub const SWEEPERS: NumberOption<&str, u32> = NumberOption {
    name: "workers",
    what: "Threads that run whole scenarios",
    most: 64,
    default_text: DefaultText::Words("the processors"),
    ..COUNT
};

/// `--loaders`
pub const LOADERS: NumberOption<&str, u32> = NumberOption {
    name: "loaders",
    what: "Threads that load programs",
    most: 8,
    default: 2,
    ..COUNT
};

/// `--loads`
pub const LOADS: NumberOption<&str, u32> = NumberOption {
    name: "loads",
    what: "Loads of each loader",
    most: 100,
    default: 8,
    ..COUNT
};

/// `--pulses`
pub const PULSES: NumberOption<&str, u32> = NumberOption {
    name: "pulses",
    what: "Pulses",
    most: 1_000,
    default: 8,
    ..COUNT
};

/// `--workers` of `stress`
pub const STRESS_WORKERS: NumberOption<&str, u32> = NumberOption {
    what: "Threads of a pulse",
    ..WORKERS
};

// ---- explore

/// `--ask`
pub const ASK: TextOption = TextOption {
    name: "ask",
    value: "QUESTION",
    help: "What is asked: agreement, stabilisation or both [default: both]",
    ..LIST
};

/// `--mail` of `explore`
pub const MAIL: TextOption = TextOption {
    name: "mail",
    help: "Messages of Byzantine nodes, beside none: all, or as 0..7,9 [default: all for the built-in clock, otherwise 0 to the modulus]",
    ..LIST
};

/// `--start`
pub const START: TextOption = TextOption {
    name: "start",
    value: "zero|any|every",
    help: "Initial states: zeroed memories and no messages, those of --bytes, --cells or --images, or every state [default: zero]",
    ..LIST
};

/// `--bytes`
pub const BYTES: TextOption = TextOption {
    name: "bytes",
    help: "What each of the first eight bytes of a memory may be at --start any, as 0,254..255",
    ..LIST
};

/// `--cells`
pub const CELLS: TextOption = TextOption {
    name: "cells",
    help: "What named bytes of a memory may be at --start any, as 0=0..7,4=0,1; the others are zero",
    ..LIST
};

/// `--images`
pub const IMAGES: TextOption = TextOption {
    name: "images",
    help: "What a memory may be at --start any, each in hexadecimal, as 0500000001000000,0600000001000000, or @FILE",
    ..LIST
};

/// `--said`
pub const SAID: TextOption = TextOption {
    name: "said",
    help: "Messages of nodes with programs at --start any, beside none, as 0..7,9 [default: as --mail]",
    ..LIST
};

/// `--states`
pub const STATES: NumberOption<&str, u32> = NumberOption {
    name: "states",
    what: "Most states to explore",
    most: 1_000_000_000,
    default: 1_000_000,
    ..COUNT
};

/// `--depth`
pub const DEPTH: NumberOption<&str, u32> = NumberOption {
    name: "depth",
    what: "Last pulse to explore",
    most: STATES.most,
    default: STATES.most,
    default_text: DefaultText::Words("all"),
    ..COUNT
};

/// `--memory` of `explore`
pub const MEBIBYTES: NumberOption<&str, u32> = NumberOption {
    name: "memory",
    value: "MIB",
    what: "Most mebibytes to use",
    most: 1_048_576,
    default: 1_024,
    ..COUNT
};

/// `--odds`
pub const ODDS: NumberOption<&str, u32> = NumberOption {
    name: "odds",
    value: "COUNT|FIRST..LAST",
    what: "Bound odds of stabilisation; FIRST..LAST: as CSV",
    most: 100_000,
    default_text: DefaultText::Words("not asked"),
    ..COUNT
};

/// `--reach`
pub const REACH: TextOption = TextOption {
    name: "reach",
    value: "PARTS/WHOLE",
    help: "Find the least number of pulses with such odds, as 99/100; needs --odds",
    needs: "odds",
    ..LIST
};

/// `--graph`
pub const GRAPH: TextOption = TextOption {
    name: "graph",
    value: "dot|tra|lab",
    help: "Print the state space: dot for Graphviz, tra and lab (transitions and labels) for PRISM",
    ..LIST
};

/// `--json` of `explore`
pub const JSON_ANSWER: FlagOption = FlagOption {
    help: "Print the answer as a line of JSON, with --claims as several",
    ..JSON
};

// ---- claims for all sizes

/// `--rule`
pub const RULE_FILE: TextOption = TextOption {
    name: "rule",
    value: "RULE",
    help: "File of the rule that the claims are about",
    may_begin_with_dash: true,
    ..LIST
};

/// `--claims`
pub const CLAIMS_FILE: TextOption = TextOption {
    name: "claims",
    value: "CLAIMS",
    help: "File of the claims, steps and properties",
    may_begin_with_dash: true,
    ..LIST
};
