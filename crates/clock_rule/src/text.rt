//! The rule of the built-in clock as a text.
ghost use Rattle.std.specs.Prelude.{◌≡◌, IfOk, IfErr};
ghost use Rattle.rule_text.specs.Rules.{rule_form};
ghost use Rattle.clock_rule.specs.Clock.{clock_rule};

use rule_text::{ReadRuleError, Rule, read_rule};
use std::alloc::Global;

/// The rule of docs/CLOCK.md ("The rule") in the language of docs/RULES.md: the text of examples/rules/clock.rule.
pub const CLOCK_RULE: &[u8] =
    b"# The clock of docs/CLOCK.md: a number below M and a mark, for every number of nodes.
state mark

let v = clock if clock < M else 0
let support = count j: mail[j] == v

if support < n - f:  clock, mark = 0, 0
elif v != 0:         clock, mark = (v + 1) % M, 1
elif mark != 0:      clock, mark = 1, 1
else:                clock, mark = coin, coin
send clock
";

/// Reads the rule of the built-in clock from its text.
pub fn read_clock_rule(alloc: Global) -> Result<Rule, ReadRuleError>
    ensures rule { IfOk result (λ rule. rule_form rule ≡ clock_rule) }
    ensures error { IfErr result (λ e. e ≡ ReadRuleError.Memory) }
{
    read_rule(alloc, CLOCK_RULE)
}
