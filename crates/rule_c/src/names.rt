//! The names that a rule makes, and how C writes them.

use std::alloc::{AllocError, Global};

/// Names in small letters that C, its compilers or the function itself use.
const TAKEN: [&str; 57] = [
    "alignas",
    "alignof",
    "asm",
    "auto",
    "bool",
    "break",
    "case",
    "char",
    "const",
    "constexpr",
    "continue",
    "default",
    "do",
    "double",
    "enum",
    "extern",
    "false",
    "float",
    "goto",
    "i386",
    "inline",
    "insert_number",
    "int",
    "linux",
    "long",
    "memory",
    "modulo",
    "nullptr",
    "number_at",
    "quotient",
    "register",
    "restrict",
    "return",
    "send_all",
    "send_to",
    "short",
    "signed",
    "sizeof",
    "static",
    "static_assert",
    "struct",
    "switch",
    "thread_local",
    "true",
    "typedef",
    "typeof",
    "typeof_unqual",
    "u32",
    "u64",
    "u8",
    "union",
    "unix",
    "unnamed",
    "unsigned",
    "void",
    "volatile",
    "while",
];

/// The front of a name that the rule doesn't make, or that C can't have.
pub(crate) const OWN: &str = "x_";

/// The names that a rule makes, as C writes them.
#[derive(Drop)]
pub(crate) struct Names {
    /// The words of the memory by their places, the clock first.
    pub(crate) words: Vec<String>,
    /// The names after `let`, `for`, `count`, `least` and `sorted`, in the order of the text.
    pub(crate) made: Vec<String>,
}

/// What the next word of a text is, beside a word that makes no name.
#[derive(Clone, Copy)]
enum Expected {
    Nothing,
    Made,
    Words,
    /// The name after `least`, if this is a word of a term.
    AfterLeast,
    /// The colon after this name: without it, `least` is a name.
    LeastColon,
    /// The bracket before the place of `sorted`.
    SortedPlace,
    /// The rest of that place, in this many brackets.
    InPlace(usize),
}

fn is_letter(letter: char) -> bool {
    matches!(letter, 'a'..='z' | 'A'..='Z' | '0'..='9' | '_')
}

/// Returns true if C can have this name for a number: no macro, keyword or name of a header is like it.
fn is_free(name: &str) -> bool {
    let is_small = name
        .bytes()
        .all(|byte| matches!(byte, b'a'..=b'z' | b'0'..=b'9' | b'_'));
    let begins_own = name.starts_with('_') || name.starts_with(OWN);
    is_small && !begins_own && !TAKEN.iter().any(|taken| *taken == name)
}

/// Returns the name as C has it.
fn name_in_c(alloc: Global, name: &str) -> Result<String, AllocError> {
    if is_free(name) {
        String::from_str(alloc, name)
    } else {
        format!(in alloc; "{OWN}{name}")
    }
}

/// Returns what a line says but for its comment.
pub(crate) fn code_of(line: &str) -> &str {
    match line.split_once('#') {
        Some((code, _comment)) => code,
        None => line,
    }
}

/// Returns the words and numbers of a line and the characters of its signs, with blanks between them.
fn words_of(alloc: Global, line: &str) -> Result<String, AllocError> {
    let mut words = String::new(alloc);
    for letter in code_of(line).chars() {
        if is_letter(letter) {
            words.push(letter)?;
        } else {
            words.push(' ')?;
            words.push(letter)?;
            words.push(' ')?;
        }
    }
    Ok(words)
}

/// Returns what comes after a word that makes no name.
fn expected_after(word: &str) -> Expected {
    match word {
        "let" | "for" | "count" => Expected::Made,
        "state" => Expected::Words,
        "least" => Expected::AfterLeast,
        "sorted" => Expected::SortedPlace,
        _ => Expected::Nothing,
    }
}

/// Adds a word if it is a name that is made. Returns what comes after it.
fn add_word(
    alloc: Global,
    names: &mut Names,
    expected: Expected,
    word: &str,
) -> Result<Expected, AllocError> {
    match expected {
        Expected::Made => {
            names.made.push(name_in_c(alloc, word)?)?;
            Ok(Expected::Nothing)
        }
        Expected::Words => {
            if is_word(word) {
                names.words.push(name_in_c(alloc, word)?)?;
            }
            Ok(Expected::Words)
        }
        Expected::AfterLeast => add_after_least(alloc, names, word),
        Expected::LeastColon => {
            if word == ":" {
                return Ok(Expected::Nothing);
            }
            let _no_name = names.made.pop();
            Ok(expected_after(word))
        }
        Expected::SortedPlace => Ok(Expected::InPlace(1)),
        Expected::InPlace(depth) => Ok(in_place(depth, word)),
        Expected::Nothing => Ok(expected_after(word)),
    }
}

/// Returns what comes after a word or sign of the place of `sorted`. A place makes no name: it is a constant.
fn in_place(depth: usize, word: &str) -> Expected {
    match word {
        "[" => Expected::InPlace(depth.saturating_add(1)),
        "]" if depth <= 1 => Expected::Made,
        "]" => Expected::InPlace(depth.saturating_sub(1)),
        _ => Expected::InPlace(depth),
    }
}

fn is_word(word: &str) -> bool {
    word.chars().all(is_letter)
}

/// Adds a word after `least`, if a colon can follow it there. Returns what comes after it.
fn add_after_least(alloc: Global, names: &mut Names, word: &str) -> Result<Expected, AllocError> {
    match expected_after(word) {
        Expected::Nothing | Expected::AfterLeast if is_word(word) && word != "else" => {
            names.made.push(name_in_c(alloc, word)?)?;
            Ok(Expected::LeastColon)
        }
        next => Ok(next),
    }
}

/// Returns what comes after the end of a line: a name or its colon may be on the next one.
fn past_line(expected: Expected) -> Expected {
    match expected {
        Expected::Words => Expected::Nothing,
        Expected::Nothing
        | Expected::Made
        | Expected::AfterLeast
        | Expected::LeastColon
        | Expected::SortedPlace
        | Expected::InPlace(_) => expected,
    }
}

/// Returns the names that the text of a rule makes.
pub(crate) fn names_in(alloc: Global, text: &str) -> Result<Names, AllocError> {
    let mut names = Names {
        words: Vec::new(alloc),
        made: Vec::new(alloc),
    };
    names.words.push(String::from_str(alloc, "clock")?)?;
    let mut expected = Expected::Nothing;
    for line in text.lines() {
        let words = words_of(alloc, line)?;
        for word in words.as_str().split_whitespace() {
            expected = add_word(alloc, &mut names, expected, word)?;
        }
        expected = past_line(expected);
    }
    Ok(names)
}
