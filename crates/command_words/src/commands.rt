//! The commands, each with its options in the order of its help.

use crate::options::{
    ALL, ASK, BYTES, CELLS, CHECK, CLAIMS_FILE, CLOCK, COIN, CONTENTS, DEPTH, EXPLAIN,
    EXPLORED_PROPERTIES, FAULTS, FROM, FUEL, GRAPH, ID, IMAGES, INBOX, JSON, JSON_ANSWER, KEYS,
    LISTING, LOADERS, LOADS, MAIL, MEBIBYTES, MEMORY, MODULUS, NODE, NODES, ODDS, PROPERTIES_FILE,
    PULSES, REACH, RULE_FILE, RULE_IN_C, RULE_LISTING, SAID, SHOW, START, STATES, STEPS,
    STRESS_WORKERS, SWEEPERS, SWEPT_PROPERTIES, TEXT, TRACE, UNTIL, WORKERS,
};
use crate::rows::OptionRow::{Flag, Long, LongSpan, Number, Span, Text};
use crate::rows::{CommandRow, NumberOption, OptionRow};

/// The commands, in the order of the help.
pub(crate) const COMMANDS: [CommandRow; 10] = [
    CommandRow {
        name: "exec",
        about: "Run the program of an image",
        after: "Example: clockbed exec --memory 8 --show examples/seven.bpf\nPage: docs/COMMANDS.md",
        options: &EXEC,
        reads_file: true,
    },
    CommandRow {
        name: "asm",
        about: "Print the image of an assembler text",
        after: "Example: clockbed asm examples/seven.s > seven.bpf\nPage: docs/ASSEMBLER.md",
        options: &ASM,
        reads_file: true,
    },
    CommandRow {
        name: "compile",
        about: "Print the image of a rule",
        after: "Example: clockbed compile examples/rules/clock.rule > clock.bpf\nPage: docs/RULES.md",
        options: &COMPILE,
        reads_file: true,
    },
    CommandRow {
        name: "dis",
        about: "Print an image as assembler text",
        after: "Example: clockbed dis examples/seven.bpf\nPage: docs/ASSEMBLER.md",
        options: &DIS,
        reads_file: true,
    },
    CommandRow {
        name: "verify",
        about: "Accept or reject the program of an image",
        after: "Example: clockbed verify --memory 8 examples/seven.bpf\nPage: docs/VERIFIER.md",
        options: &VERIFY,
        reads_file: true,
    },
    CommandRow {
        name: "run",
        about: "Print the report of a scenario",
        after: "Example: clockbed run --check examples/four_clocks.toml\nPage: docs/SCENARIOS.md",
        options: &RUN,
        reads_file: true,
    },
    CommandRow {
        name: "stress",
        about: "Let many threads work on one bench, and check its history",
        after: "Example: clockbed stress --loaders 4 --pulses 100\nPage: docs/THREADS.md",
        options: &STRESS,
        reads_file: false,
    },
    CommandRow {
        name: "sweep",
        about: "Run a scenario with each seed, and print CSV",
        after: "Example: clockbed sweep --keys 1..100 examples/chacha.toml\nPage: docs/LUCK.md",
        options: &SWEEP,
        reads_file: true,
    },
    CommandRow {
        name: "explore",
        about: "Search all runs of a small bench for a violation of agreement",
        after: "Example: clockbed explore examples/explore/four_nodes.toml\nPage: docs/EXPLORE.md",
        options: &EXPLORE,
        reads_file: true,
    },
    CommandRow {
        name: "prove",
        about: "Prove claims about a rule for all sizes by certificates",
        after: "Example: clockbed prove --rule examples/rules/clock.rule --claims examples/claims/clock.claims examples/certificates/clock.txt\nPage: docs/ALL_SIZES.md",
        options: &PROVE,
        reads_file: true,
    },
];

const EXEC: [OptionRow; 10] = [
    Number(NODES),
    Number(MEMORY),
    Flag(TEXT),
    Long(FUEL),
    Number(ID),
    Text(INBOX),
    Number(COIN),
    Text(CONTENTS),
    Flag(SHOW),
    Flag(STEPS),
];

const ASM: [OptionRow; 1] = [Flag(LISTING)];

const COMPILE: [OptionRow; 6] = [
    Number(NODES),
    Number(MEMORY),
    Number(FAULTS),
    Number(MODULUS),
    Flag(RULE_LISTING),
    Flag(RULE_IN_C),
];

const DIS: [OptionRow; 6] = [
    Flag(LISTING),
    Flag(CLOCK),
    Number(CLOCK_NODES),
    Number(CLOCK_FAULTS),
    Number(CLOCK_MODULUS),
    Text(NODE),
];

const CLOCK_NODES: NumberOption<&str, u32> = NumberOption {
    needs: "clock",
    ..NODES
};

const CLOCK_FAULTS: NumberOption<&str, u32> = NumberOption {
    needs: "clock",
    ..FAULTS
};

const CLOCK_MODULUS: NumberOption<&str, u32> = NumberOption {
    needs: "clock",
    ..MODULUS
};

const VERIFY: [OptionRow; 5] = [
    Number(NODES),
    Number(MEMORY),
    Flag(TEXT),
    Flag(EXPLAIN),
    Flag(ALL),
];

const RUN: [OptionRow; 7] = [
    Number(WORKERS),
    Flag(CHECK),
    Flag(JSON),
    Number(FROM),
    Number(UNTIL),
    Text(TRACE),
    Text(PROPERTIES_FILE),
];

const STRESS: [OptionRow; 4] = [
    Number(LOADERS),
    Number(LOADS),
    Number(PULSES),
    Number(STRESS_WORKERS),
];

const SWEEP: [OptionRow; 3] = [LongSpan(KEYS), Number(SWEEPERS), Text(SWEPT_PROPERTIES)];

const EXPLORE: [OptionRow; 15] = [
    Text(ASK),
    Text(MAIL),
    Text(START),
    Text(BYTES),
    Text(CELLS),
    Text(IMAGES),
    Text(SAID),
    Number(STATES),
    Number(DEPTH),
    Number(MEBIBYTES),
    Span(ODDS),
    Text(REACH),
    Text(GRAPH),
    Flag(JSON_ANSWER),
    Text(EXPLORED_PROPERTIES),
];

const PROVE: [OptionRow; 2] = [Text(RULE_FILE), Text(CLAIMS_FILE)];
