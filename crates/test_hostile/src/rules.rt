//! The rules from which those of the tests differ.

use regroup_lines::{Invalid, Parsing, Reading, Rules, Span};

/// Lines of at most 99 bytes, each with one number and maybe spaces around it. The first one at fault ends all.
pub const RULES: Rules = Rules {
    span: Span::Trimmed,
    affixes: None,
    reading: Reading {
        parsing: Parsing::Strict,
        scale: None,
    },
    header_lines: 0,
    passes_empty: false,
    invalid: Invalid::Abort,
    rejects: false,
    line_end: b'\n',
    max_line_len: 99,
    flushes: false,
};
