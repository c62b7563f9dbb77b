//! What a bench keeps, node by node.
ghost use Rattle.std.specs.Prelude.{◌≡◌, ◌<◌, IfOk, length};
ghost use Rattle.serde_json.specs.View.{view};
ghost use Rattle.bench_core.specs.State.{node_at, mail_from};
ghost use Rattle.json_values.specs.Values.{list_data};
ghost use Rattle.run_lines.specs.Data.{memory_data, ran_data, sent_data};

use bench_core::Bench;
use json_values::number_or_null;
use node_env::Mail;
use serde_json::Value;
use std::alloc::{AllocError, Global};

/// Returns how many nodes a bench has.
fn node_count(bench: &Bench) -> u32
    ensures shape { result ≡ bench.now.setup.shape.nodes }
    ensures nodes { result ≡ length bench.now.state.nodes }
{
    let _history = bench.history(); // brings its replay
    bench.shape().nodes()
}

/// Returns what a node ran in the closed pulse.
fn ran_in(alloc: Global, bench: &Bench, node: u32) -> Result<Value, AllocError>
    requires { node < bench.now.setup.shape.nodes }
    ensures { IfOk result (λ v. view v ≡ ran_data (node_at bench.now.state.nodes node)) }
{
    if bench.ran_clock(node) {
        Value::try_from_str(alloc, "clock")
    } else if bench.is_loaded(node) {
        Value::try_from_str(alloc, "other")
    } else {
        Ok(Value::Null)
    }
}

/// Returns what each node ran.
pub(crate) fn ran(alloc: Global, bench: &Bench) -> Result<Value, AllocError>
    ensures { IfOk result (λ v. view v ≡ list_data ran_data bench.now.state.nodes) }
{
    let mut values = Vec::new(alloc);
    for node in 0..node_count(bench) {
        values.push(ran_in(alloc, bench, node)?)?;
    }
    Ok(Value::Array(values))
}

/// Returns a node's memory, in hex.
fn memory_in(alloc: Global, bench: &Bench, node: u32) -> Result<Value, AllocError>
    requires { node < bench.now.setup.shape.nodes }
    ensures { IfOk result (λ v. view v ≡ memory_data (node_at bench.now.state.nodes node)) }
{
    Ok(Value::String(hex::encode(alloc, bench.memory(node))?))
}

/// Returns the memory of each node.
pub(crate) fn memories(alloc: Global, bench: &Bench) -> Result<Value, AllocError>
    ensures { IfOk result (λ v. view v ≡ list_data memory_data bench.now.state.nodes) }
{
    let mut values = Vec::new(alloc);
    for node in 0..node_count(bench) {
        values.push(memory_in(alloc, bench, node)?)?;
    }
    Ok(Value::Array(values))
}

/// Returns what a node sent, by receiver.
fn sent_by(alloc: Global, mail: &Mail, sender: u32) -> Result<Value, AllocError>
    requires { sender < length mail.now }
    ensures { IfOk result (λ v. view v ≡ sent_data (length mail.now) (mail_from mail.now sender)) }
{
    let mut values = Vec::new(alloc);
    for receiver in 0..mail.nodes() {
        values.push(number_or_null(mail.slot(sender, receiver)))?;
    }
    Ok(Value::Array(values))
}

/// Returns what each node sent.
pub(crate) fn sent(alloc: Global, mail: &Mail) -> Result<Value, AllocError>
    ensures { IfOk result (λ v. view v ≡ list_data (sent_data (length mail.now)) mail.now) }
{
    let mut values = Vec::new(alloc);
    for sender in 0..mail.nodes() {
        values.push(sent_by(alloc, mail, sender)?)?;
    }
    Ok(Value::Array(values))
}
