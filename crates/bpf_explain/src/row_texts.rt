//! The rows of a program: each instruction with what is known where it occurs.

ghost use Rattle.std.specs.Prelude.{◌≡◌, ◌++◌, ◌+◌, ◌≤◌, IfOk, List, OnOk, length, slice_get, string_bytes};
ghost use Rattle.bpf_insn.specs.Programs.{insn_at};
ghost use Rattle.bpf_verify.specs.Findings.{AreFindings, table_in};
ghost use Rattle.bpf_explain.specs.declared.fact.Fact.{Fact as FactOf};
ghost use Rattle.bpf_explain.specs.Facts.{fact_list};
ghost use Rattle.bpf_explain.specs.Known.{facts_at};
ghost use Rattle.bpf_explain.specs.Rows as texts;

use crate::fact::add_remark;
use crate::facts::{add_facts, add_unreached};
use bpf_asm::CanonicalLine;
use bpf_insn::{Insn, Program};
use bpf_verify::{Findings, Verdict};
use node_env::Shape;
use parameters::Detail;
use std::alloc::{AllocError, Global};
use std::fmt::Write;

/// What is told of a slot, each fact after a comma.
fn told_at(
    alloc: Global,
    findings: &Findings,
    detail: Detail,
    shape: Shape,
    slot: u32,
    insn: &Insn,
) -> Result<String, AllocError>
    ensures { IfOk result (λ told. string_bytes told
        ≡ fact_list (facts_at detail shape insn.now (table_in findings.now slot))) }
{
    let mut told = String::new(alloc);
    match findings.known_at(slot) {
        Some(known) => add_facts(&mut told, detail, shape, insn, known)?,
        None => add_unreached(&mut told)?,
    }
    Ok(told)
}

/// Adds the line of an instruction, if there is one.
fn add_line(text: &mut String, line: Option<usize>) -> Result<(), AllocError>
    ensures { OnOk result (string_bytes text.new ≡ string_bytes text.old ++ texts.line_part line) }
{
    match line {
        None => Ok(()),
        Some(line) => write!(text, "line {line} "),
    }
}

fn add_row(
    text: &mut String,
    line: Option<usize>,
    slot: u32,
    insn: Insn,
    told: &str,
) -> Result<(), AllocError>
    ensures { (facts : List FactOf) → told.now ≡ fact_list facts → OnOk result (string_bytes text.new
        ≡ string_bytes text.old ++ texts.row_text line slot insn facts) }
{
    add_line(text, line)?;
    write!(text, "slot {slot} {}", CanonicalLine { insn })?;
    add_remark(text, told)?;
    text.push_str("\n")
}

/// Adds the row of a slot where an instruction begins.
fn add_row_at(
    alloc: Global,
    text: &mut String,
    program: &Program,
    shape: Shape,
    findings: &Findings,
    detail: Detail,
    slot: u32,
    line: Option<usize>,
) -> Result<(), AllocError>
    ensures { OnOk result (string_bytes text.new ≡ string_bytes text.old
        ++ texts.slot_row shape (table_in findings.now) detail line slot (insn_at program.now slot)) }
{
    match program.insn_at(slot) {
        None => Ok(()),
        Some(insn) => {
            let told = told_at(alloc, findings, detail, shape, slot, &insn)?;
            add_row(text, line, slot, insn, told.as_str())
        }
    }
}

fn line_at(lines: &[usize], place: usize) -> Option<usize>
    ensures { result ≡ slice_get lines.now place }
{
    if place < lines.len() {
        Some(lines[place])
    } else {
        None
    }
}

/// How many instructions begin up to a slot, where this many begin before it.
fn count_to(program: &Program, slot: u32, before: usize) -> usize
    requires { before ≤ slot }
    ensures { result ≡ before + length (texts.insn_listed (insn_at program.now slot)) }
{
    match program.insn_at(slot) {
        None => before,
        Some(_insn) => before + 1,
    }
}

fn rows_before(
    alloc: Global,
    program: &Program,
    shape: Shape,
    findings: &Findings,
    detail: Detail,
    lines: &[usize],
    end: u32,
) -> Result<String, AllocError>
    ensures { IfOk result (λ text. string_bytes text
        ≡ texts.rows_before program.now shape (table_in findings.now) detail lines.now end) }
{
    let mut text = String::new(alloc);
    let mut count = 0;
    for slot in 0..end {
        let line = line_at(lines, count);
        add_row_at(
            alloc, &mut text, program, shape, findings, detail, slot, line,
        )?;
        count = count_to(program, slot, count);
    }
    Ok(text)
}

/// The end of the slots that are told.
fn rows_end(program: &Program, shape: Shape, findings: &Findings) -> u32
    requires { AreFindings program.now shape findings.now }
    ensures { result ≡ texts.rows_end program.now findings.now.verdict }
{
    let count = program.slot_count();
    match findings.verdict() {
        Verdict::Accepted { .. } => count,
        Verdict::Refused { slot, .. } => slot + 1,
    }
}

/// Returns the rows of the findings on a program: each instruction up to the refused one, or to the last, with what is
/// known there. The lines are those of the instructions in their order; one that is missing isn't told.
pub fn rows(
    alloc: Global,
    program: &Program,
    shape: Shape,
    findings: &Findings,
    detail: Detail,
    lines: &[usize],
) -> Result<String, AllocError>
    requires { AreFindings program.now shape findings.now }
    ensures { IfOk result (λ text. string_bytes text
        ≡ texts.rows_text program.now shape findings.now detail lines.now) }
{
    let end = rows_end(program, shape, findings);
    rows_before(alloc, program, shape, findings, detail, lines, end)
}
