//! Statements of a rule in C, and the whole function.

use crate::assignments::add_assignment;
use crate::page::{Indent, Page, source_of};
use crate::terms::{Place, Scope, add_made, add_receiver_first, add_term, within};
use rule_syntax::{Sizes, Statement, Term};
use std::alloc::{AllocError, Global};

/// The names around a statement, and in how many blocks it is.
#[derive(Clone, Copy)]
struct Block<'a> {
    scope: Scope<'a>,
    depth: usize,
    /// Whether an `else` is before its `if`.
    is_otherwise: bool,
}

impl<'a> Block<'a> {
    /// Returns the block that a statement of this one opens.
    fn inside(self) -> Block<'a> {
        Block {
            scope: self.scope,
            depth: self.depth.saturating_add(1),
            is_otherwise: false,
        }
    }

    /// Returns this block after `else`.
    fn otherwise(self) -> Block<'a> {
        Block {
            scope: self.scope,
            depth: self.depth,
            is_otherwise: true,
        }
    }
}

fn is_nothing(statement: &Statement) -> bool {
    matches!(statement, Statement::Nothing)
}

fn is_branch(statement: &Statement) -> bool {
    matches!(statement, Statement::If(_, _, _))
}

/// Adds a line.
fn add_line(page: &mut Page<'_>, depth: usize, text: &str) -> Result<(), AllocError> {
    let indent = Indent(depth);
    write!(page.text, "{indent}{text}\n")
}

/// Adds the variable of a let, of the name at a place.
fn add_let(
    alloc: Global,
    page: &mut Page<'_>,
    number: &Term,
    name: usize,
    block: Block<'_>,
) -> Result<(), AllocError> {
    let indent = Indent(block.depth);
    write!(page.text, "{indent}u32 ")?;
    add_made(page, Some(&name))?;
    page.add(" = ")?;
    add_term(alloc, page, number, block.scope, Place::Whole)?;
    page.add(";\n")
}

/// Adds the line that begins a branch.
fn add_test(
    alloc: Global,
    page: &mut Page<'_>,
    test: &Term,
    block: Block<'_>,
) -> Result<(), AllocError> {
    page.add_comment(block.depth)?;
    let indent = Indent(block.depth);
    let front = if block.is_otherwise {
        "else if ("
    } else {
        "if ("
    };
    write!(page.text, "{indent}{front}")?;
    add_term(alloc, page, test, block.scope, Place::Condition)?;
    page.add(") {\n")
}

/// Adds the line that begins a loop over all nodes. Returns the place of its name.
fn add_loop(page: &mut Page<'_>, block: Block<'_>) -> Result<usize, AllocError> {
    page.add_comment(block.depth)?;
    let name = page.take_made();
    let indent = Indent(block.depth);
    write!(page.text, "{indent}EACH_NODE(")?;
    add_made(page, Some(&name))?;
    page.add(") {\n")?;
    Ok(name)
}

/// Adds a call that sends to all nodes.
fn add_send_all(
    alloc: Global,
    page: &mut Page<'_>,
    number: &Term,
    block: Block<'_>,
) -> Result<(), AllocError> {
    page.add_comment(block.depth)?;
    let indent = Indent(block.depth);
    write!(page.text, "{indent}send_all(")?;
    add_term(alloc, page, number, block.scope, Place::Whole)?;
    page.add(");\n")
}

/// Adds a call that sends to one node.
fn add_send_to(
    alloc: Global,
    page: &mut Page<'_>,
    number: &Term,
    receiver: &Term,
    block: Block<'_>,
) -> Result<(), AllocError> {
    page.add_comment(block.depth)?;
    let indent = Indent(block.depth);
    write!(page.text, "{indent}send_to(")?;
    add_receiver_first(alloc, page, number, receiver, block.scope)?;
    page.add(");\n")
}

/// Adds a statement.
fn add_statement(
    alloc: Global,
    page: &mut Page<'_>,
    statement: &Statement,
    block: Block<'_>,
) -> Result<(), AllocError> {
    match statement {
        Statement::Nothing => Ok(()),
        Statement::Then(a, b) => {
            add_statement(alloc, page, a, block)?;
            add_statement(alloc, page, b, block)
        }
        Statement::Let(number, rest) => {
            page.add_comment(block.depth)?;
            let name = page.take_made();
            add_let(alloc, page, number, name, block)?;
            let lets = within(alloc, block.scope.lets, name)?;
            let scope = Scope {
                lets: &lets,
                loops: block.scope.loops,
            };
            add_statement(alloc, page, rest, Block { scope, ..block })
        }
        Statement::Assign(assignment) => {
            page.add_comment(block.depth)?;
            add_assignment(alloc, page, assignment, block.scope, block.depth)
        }
        Statement::If(test, a, b) => {
            add_test(alloc, page, test, block)?;
            add_statement(alloc, page, a, block.inside())?;
            add_line(page, block.depth, "}")?;
            if is_nothing(b) {
                return Ok(());
            }
            if is_branch(b) {
                return add_statement(alloc, page, b, block.otherwise());
            }
            add_line(page, block.depth, "else {")?;
            add_statement(alloc, page, b, block.inside())?;
            add_line(page, block.depth, "}")
        }
        Statement::For(body) => {
            let name = add_loop(page, block)?;
            let loops = within(alloc, block.scope.loops, name)?;
            let scope = Scope {
                lets: block.scope.lets,
                loops: &loops,
            };
            add_statement(
                alloc,
                page,
                body,
                Block {
                    scope,
                    ..block.inside()
                },
            )?;
            add_line(page, block.depth, "}")
        }
        Statement::SendAll(number) => add_send_all(alloc, page, number, block),
        Statement::SendTo(number, receiver) => add_send_to(alloc, page, number, receiver, block),
    }
}

/// Adds the sizes, and the begin of the function.
fn add_front(page: &mut Page<'_>, sizes: Sizes) -> Result<(), AllocError> {
    let Sizes {
        nodes,
        faults,
        modulus,
        memory,
    } = sizes;
    page.add(
        "/* A rule in C: docs/RULE_IN_C.md of clockbed. Each comment is a line of the rule. */\n",
    )?;
    write!(
        page.text,
        "#define NODES {nodes}u\n#define FAULTS {faults}u\n"
    )?;
    write!(
        page.text,
        "#define MODULUS {modulus}u\n#define MEMORY {memory}u\n"
    )?;
    page.add("#include \"rule.h\"\n\nu64 pulse(u32 *memory, u32 me) {\n")?;
    let source = page.source;
    for (place, word) in source.names.words.iter().enumerate() {
        write!(page.text, "  u32 {word} = memory[{place}];\n")?;
    }
    Ok(())
}

/// Adds the end of the function.
fn add_end(page: &mut Page<'_>) -> Result<(), AllocError> {
    let source = page.source;
    for (place, word) in source.names.words.iter().enumerate() {
        write!(page.text, "  memory[{place}] = {word};\n")?;
    }
    page.add("  return 0;\n}\n")
}

/// Returns a C function over `examples/c/rule.h` that does what the rule does in a pulse (docs/RULE_IN_C.md). `text` is
/// the text of the rule, and `lines` has the line of each statement. That the function computes what the rule means is
/// tested, not proved. Fails only if memory runs out.
pub fn rule_in_c(
    alloc: Global,
    text: &[u8],
    lines: &[usize],
    rule: &Statement,
    sizes: Sizes,
) -> Result<String, AllocError> {
    let text = String::from_utf8_lossy(alloc, text)?;
    let source = source_of(alloc, text.as_str())?;
    let mut page = Page {
        text: String::new(alloc),
        source: &source,
        statement_lines: lines,
        statements: 0,
        made: 0,
        line: 0,
    };
    add_front(&mut page, sizes)?;
    let block = Block {
        scope: Scope {
            lets: &[],
            loops: &[],
        },
        depth: 1,
        is_otherwise: false,
    };
    add_statement(alloc, &mut page, rule, block)?;
    add_end(&mut page)?;
    Ok(page.text)
}
