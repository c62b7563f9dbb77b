//! Certificates as words, for each step `step LINE begins N F M free COUNT NUMBER .. sent NUMBER words COUNT NUMBER ..
//! uses COUNT USE .. PLAN`.

use certified_steps::{Plan, Proof};
use linear_certificates::{ReadError, read_certificate};
use std::alloc::{AllocError, AllocFailed, Global};
use std::str;
use std::str::SplitWhitespace;
use step_beginnings::Beginning;
use step_searches::{Tested, Use};

/// How deep a plan may be.
const MAX_DEPTH: u32 = 500;

/// A node's memory has a multiple of this many words.
const UNIT_WORDS: usize = 2;

/// Why a text isn't read as certificates, with the number of the word at which reading stopped, from 1.
#[derive(Clone, Copy, Debug, PartialEq, Eq)]
pub enum CertificateError {
    /// The text isn't UTF-8.
    NotText,
    /// The text ends within a certificate.
    End,
    /// Another word has to be here.
    Word { number: usize },
    /// A certificate is too deep.
    TooDeep { number: usize },
}

/// Why there are no certificates.
#[derive(Clone, Copy)]
pub(crate) enum NoCertificates {
    Memory,
    Error(CertificateError),
}

/// The proof of the step in a line of the claims, and a state that begins the step.
#[derive(Drop)]
pub(crate) struct StepProof {
    pub(crate) line: usize,
    pub(crate) beginning: Beginning,
    pub(crate) proof: Proof,
}

/// Why words aren't read.
#[derive(Clone, Copy)]
enum Unread {
    Memory,
    End,
    Word,
    TooDeep,
}

impl From<AllocError> for Unread {
    fn from(_e: AllocError) -> Unread {
        Unread::Memory
    }
}

impl<T: Drop> From<AllocFailed<T>> for Unread {
    fn from(_e: AllocFailed<T>) -> Unread {
        Unread::Memory
    }
}

impl From<ReadError> for Unread {
    fn from(e: ReadError) -> Unread {
        match e {
            ReadError::Memory => Unread::Memory,
            ReadError::End => Unread::End,
            ReadError::Word => Unread::Word,
            ReadError::TooDeep => Unread::TooDeep,
        }
    }
}

/// Reads the certificates of a text, in their order.
pub(crate) fn read_certificates(
    alloc: Global,
    text: &[u8],
) -> Result<Vec<StepProof>, NoCertificates> {
    let Ok(text) = str::from_utf8(text) else {
        return Err(NoCertificates::Error(CertificateError::NotText));
    };
    let mut words = text.split_whitespace();
    let read = step_proofs(alloc, &mut words, text.len());
    let number = count_of(text.split_whitespace()).saturating_sub(count_of(words));
    let error = match read {
        Ok(proofs) => return Ok(proofs),
        Err(Unread::Memory) => return Err(NoCertificates::Memory),
        Err(Unread::End) => CertificateError::End,
        Err(Unread::Word) => CertificateError::Word { number },
        Err(Unread::TooDeep) => CertificateError::TooDeep { number },
    };
    Err(NoCertificates::Error(error))
}

/// Returns how many words there are.
fn count_of(words: SplitWhitespace<'_>) -> usize {
    let mut count = 0usize;
    for _ in words {
        count = count.saturating_add(1);
    }
    count
}

/// Reads at most so many certificates.
fn step_proofs<'a>(
    alloc: Global,
    words: &mut SplitWhitespace<'a>,
    most: usize,
) -> Result<Vec<StepProof>, Unread> {
    let mut proofs = Vec::new(alloc);
    for _ in 0..most {
        match words.next() {
            None => break,
            Some("step") => {
                let line = number(words)?;
                let beginning = beginning(alloc, words)?;
                let proof = proof(alloc, words)?;
                proofs.push(StepProof {
                    line,
                    beginning,
                    proof,
                })?;
            }
            Some(_) => return Err(Unread::Word),
        }
    }
    Ok(proofs)
}

/// Returns the next word.
fn word<'a>(words: &mut SplitWhitespace<'a>) -> Result<&'a str, Unread> {
    match words.next() {
        Some(word) => Ok(word),
        None => Err(Unread::End),
    }
}

/// Returns the next word as a number.
fn number<'a>(words: &mut SplitWhitespace<'a>) -> Result<usize, Unread> {
    match word(words)?.parse::<usize>() {
        Ok(number) => Ok(number),
        Err(_) => Err(Unread::Word),
    }
}

/// Reads a word that has to be here.
fn expect<'a>(words: &mut SplitWhitespace<'a>, wanted: &str) -> Result<(), Unread> {
    if word(words)? == wanted {
        Ok(())
    } else {
        Err(Unread::Word)
    }
}

/// Returns the next word as a number of 32 bits.
fn small_number<'a>(words: &mut SplitWhitespace<'a>) -> Result<u32, Unread> {
    match word(words)?.parse::<u32>() {
        Ok(number) => Ok(number),
        Err(_) => Err(Unread::Word),
    }
}

/// Reads a count, and as many numbers.
fn small_numbers<'a>(alloc: Global, words: &mut SplitWhitespace<'a>) -> Result<Vec<u32>, Unread> {
    let count = number(words)?;
    let mut numbers = Vec::new(alloc);
    for _ in 0..count {
        numbers.push(small_number(words)?)?;
    }
    Ok(numbers)
}

/// Returns the memory of these words.
fn memory_of(alloc: Global, words: &[u32]) -> Result<Vec<u8>, Unread> {
    let mut memory = Vec::new(alloc);
    for word in words {
        memory.extend_from_slice(&word.to_le_bytes())?;
    }
    if words.len() % UNIT_WORDS != 0 {
        memory.extend_from_slice(&[0u8; 4])?;
    }
    Ok(memory)
}

/// Reads a state that begins a step: its sizes, the numbers of the free names, the number that a node sent, its words.
fn beginning<'a>(alloc: Global, words: &mut SplitWhitespace<'a>) -> Result<Beginning, Unread> {
    expect(words, "begins")?;
    let nodes = small_number(words)?;
    let faults = small_number(words)?;
    let modulus = small_number(words)?;
    expect(words, "free")?;
    let free = small_numbers(alloc, words)?;
    expect(words, "sent")?;
    let sent = small_number(words)?;
    expect(words, "words")?;
    let state = small_numbers(alloc, words)?;
    let memory = memory_of(alloc, &state)?;
    Ok(Beginning {
        nodes,
        faults,
        modulus,
        free,
        sent,
        memory,
    })
}

/// Reads the laws that are used, and the plan.
fn proof<'a>(alloc: Global, words: &mut SplitWhitespace<'a>) -> Result<Proof, Unread> {
    expect(words, "uses")?;
    let count = number(words)?;
    let mut uses = Vec::new(alloc);
    for _ in 0..count {
        let law = law(words)?;
        uses.push(law)?;
    }
    let plan = plan_within(alloc, words, MAX_DEPTH)?;
    Ok(Proof { uses, plan })
}

/// Reads a use of a law: `one TESTED` or `two TESTED TESTED`.
fn law<'a>(words: &mut SplitWhitespace<'a>) -> Result<Use, Unread> {
    match word(words)? {
        "one" => Ok(Use::One(tested(words)?)),
        "two" => {
            let first = tested(words)?;
            let second = tested(words)?;
            Ok(Use::Two(first, second))
        }
        _ => Err(Unread::Word),
    }
}

/// Reads an answer of the test of a count: `p` or `q`, which of the node's counts, and `yes` or `no`.
fn tested<'a>(words: &mut SplitWhitespace<'a>) -> Result<Tested, Unread> {
    let is_second = match word(words)? {
        "p" => false,
        "q" => true,
        _ => return Err(Unread::Word),
    };
    let count = number(words)?;
    let answer = match word(words)? {
        "yes" => true,
        "no" => false,
        _ => return Err(Unread::Word),
    };
    Ok(Tested {
        is_second,
        count,
        answer,
    })
}

/// Reads a plan of a depth at most: `follow PLAN PLAN` or `refute CERTIFICATE`.
fn plan_within<'a>(
    alloc: Global,
    words: &mut SplitWhitespace<'a>,
    depth: u32,
) -> Result<Plan, Unread> {
    if depth == 0 {
        return Err(Unread::TooDeep);
    }
    match word(words)? {
        "refute" => Ok(Plan::Refute(read_certificate(alloc, words)?)),
        "follow" => {
            let first = plan_within(alloc, words, depth - 1)?;
            let second = plan_within(alloc, words, depth - 1)?;
            Ok(Plan::Follow(Box::new(alloc, first)?, Box::new(alloc, second)?))
        }
        _ => Err(Unread::Word),
    }
}
