//! Steps that a proof shows.
ghost use Rattle.std.specs.Prelude.{◌≡◌, ℕ, ◌+◌, IfOk, IsTrue};
ghost use Rattle.rule_steps.specs.Steps as steps;
ghost use Rattle.rule_formulas.specs.Numbers.{Implies};
ghost use Rattle.step_searches.specs.Claims.{claim_of};
ghost use Rattle.step_searches.specs.Searches as searches;
ghost use Rattle.rule_paths.specs.Relations.{Numbers, AllOf, RelationHolds};
ghost use Rattle.rule_paths.specs.Stores.{NodeCount, FaultBound, ClockModulus};
ghost use Rattle.rule_paths.specs.Paths.{has_32_bits};

use crate::errors::Unproved;
use crate::instances::{Counts, beyond_node, first_of, is_correct, is_node, met_alone, second_of};
use crate::proofs::Proof;
use crate::search::{Goal, MAX_DEPTH, Place, Rest, Task, walk};
use linear_certificates::{Formula, Known};
use rule_formulas::{MAX_VARIABLES, Number, Store, Sum, always, at_most, both, equal, is_number};
use rule_syntax::Statement;
use std::alloc::Global;
use step_searches::{Coins, Step, a_search_proves_a_step, always_sends, cover_rule, cover_step};

/// Returns the formula that the free names aren't negative.
fn names_are_numbers(alloc: Global, n: u32) -> Result<Formula, Unproved>
    ensures { IfOk result (λ f. Implies (searches.names_are_numbers n) f) }
{
    if n == 0 {
        return Ok(always(alloc)?);
    }
    let before = names_are_numbers(alloc, n - 1)?;
    let name = name_of(n - 1)?;
    let last = at_most(
        alloc,
        Sum::Only(Number::Constant(0)),
        Sum::Only(Number::Variable(name)),
    )?;
    Ok(both(alloc, before, last)?)
}

/// Returns the variable of a free name.
fn name_of(k: u32) -> Result<u32, Unproved>
    ensures { IfOk result (λ n. n ≡ 3 + k) }
{
    if k < MAX_VARIABLES {
        Ok(3 + k)
    } else {
        Err(Unproved::TooMany)
    }
}

/// Returns the variable of the coin of the node at k.
fn coin_of(k: u32) -> Result<u32, Unproved>
    ensures { IfOk result (λ n. n ≡ k + 1) }
{
    if k < MAX_VARIABLES {
        Ok(k + 1)
    } else {
        Err(Unproved::TooMany)
    }
}

/// Returns the formula of the coin of the node at k.
fn coin_is(alloc: Global, coins: Coins, k: u32) -> Result<Formula, Unproved>
    ensures { IfOk result (λ f. Implies (searches.coin_is coins k) f) }
{
    match coins {
        Coins::Any => Ok(always(alloc)?),
        Coins::Fixed(c) => {
            let coin = coin_of(k)?;
            let fixed = Number::Constant(u64::from(c));
            Ok(equal(alloc, Sum::Only(Number::Variable(coin)), Sum::Only(fixed))?)
        }
        Coins::Named(j) => {
            let coin = coin_of(k)?;
            let name = name_of(j)?;
            Ok(equal(
                alloc,
                Sum::Only(Number::Variable(coin)),
                Sum::Only(Number::Variable(name)),
            )?)
        }
    }
}

/// Returns the formula of the sizes.
fn sizes_are_numbers(alloc: Global) -> Result<Formula, Unproved>
    ensures { IfOk result (λ f. Implies (AllOf (has_32_bits NodeCount) (AllOf (has_32_bits FaultBound) (has_32_bits ClockModulus))) f) }
{
    let nodes = is_number(alloc, Number::Variable(0))?;
    let faults = is_number(alloc, Number::Variable(1))?;
    let modulus = is_number(alloc, Number::Variable(2))?;
    let rest = both(alloc, faults, modulus)?;
    Ok(both(alloc, nodes, rest)?)
}

/// Returns the formula that two nodes begin the step.
fn begun(alloc: Global, step: &Step) -> Result<Formula, Unproved>
    ensures { IfOk result (λ f. Implies (searches.begun step.now) f) }
{
    let p = first_of(step)?;
    let q = second_of(step)?;
    let sizes = sizes_are_numbers(alloc)?;
    let names = names_are_numbers(alloc, step.names)?;
    let first = is_node(alloc, step.words, p)?;
    let second = is_node(alloc, step.words, q)?;
    let nodes = both(alloc, first, second)?;
    let first_coin = coin_is(alloc, step.coins, p)?;
    let second_coin = coin_is(alloc, step.coins, q)?;
    let coins = both(alloc, first_coin, second_coin)?;
    let own = met_alone(alloc, step, p)?;
    let correct = is_correct(alloc, step, q)?;
    let met = both(alloc, own, correct)?;
    let flips = both(alloc, coins, met)?;
    let states = both(alloc, nodes, flips)?;
    let named = both(alloc, names, states)?;
    Ok(both(alloc, sizes, named)?)
}

/// Returns true if a proof shows that no two nodes begin the step, take two paths and leave it.
fn finds_nothing(
    alloc: Global,
    rule: &Statement,
    step: &Step,
    proof: &Proof,
) -> Result<bool, Unproved>
    ensures { IfOk result (λ yes. IsTrue yes → (v : Numbers) → RelationHolds v (searches.begun step.now) →
        RelationHolds v (searches.both_paths rule.now step.now proof.now.uses.items) → ⊥) }
{
    let facts = begun(alloc, step)?;
    let start = first_of(step)?;
    let second = second_of(step)?;
    let next = beyond_node(second, step.words)?;
    let task = Task {
        rule,
        step,
        uses: &proof.uses,
    };
    let store = Store::Start(start);
    let counts = Counts::Nothing;
    let place = Place {
        store: &store,
        sent: None,
        counts: &counts,
        next,
    };
    let behind = Rest::Second;
    let all = Rest::Then(rule, 0, &behind);
    let nothing = Known::Nothing;
    let known = Known::Fact(&facts, &nothing);
    let goal = Goal {
        known: &known,
        plan: &proof.plan,
        depth: MAX_DEPTH,
    };
    walk(alloc, &task, &place, &all, &goal)
}

/// Returns true if a proof shows that a step of a rule holds at all sizes. A false says nothing of the step.
pub fn step_holds(
    alloc: Global,
    rule: &Statement,
    step: &Step,
    proof: &Proof,
) -> Result<bool, Unproved>
    ensures { IfOk result (λ yes. IsTrue yes → (free : ℕ → ℕ) → steps.Holds rule.now (claim_of step.now free)) }
{
    a_search_proves_a_step();
    cover_rule(rule, step.words)?;
    cover_step(step)?;
    if !always_sends(rule) {
        return Err(Unproved::Silent);
    }
    finds_nothing(alloc, rule, step, proof)
}
