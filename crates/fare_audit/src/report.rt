//! What an audit reports.
ghost use Rattle.std.specs.Prelude.{◌≡◌, ◌<◌, true, length, Contains, IfOk, List};
ghost use Rattle.plain_laws.specs.Plain.{picks_below};
ghost use Rattle.fare_audit.specs.Reports.{ArePairsInOrder, are_unused};

use crate::found::Found;
use crate::pairs::put_in_order;
use feed_rows::{Feed, Pair};
use std::alloc::{AllocError, Global};
use std::marker::Model;
use transit_base::RuleId;

/// Gaps and idle rules. Contracts see both lists.
pub struct AuditReport {
    gaps: Vec<Pair>,
    idle: Vec<RuleId>,
}

// Written out, so that what holds one needn't look into it to let go of it.
impl Drop for AuditReport {
    fn drop(self) {
        let AuditReport { gaps: _, idle: _ } = self;
    }
}

impl Model for AuditReport {
    ghost use Rattle.fare_audit.specs.Reports.{Gaps};

    ghost Value = { Gaps };

    ghost view = { λ s. record { gaps = s.gaps.items; idle = s.idle.items } };
}

impl AuditReport {
    /// The pairs of boarding and alighting stop of rides without an option, each once, in file order of the boarding stop
    /// and then of the alighting stop.
    pub fn gaps(&self) -> &[Pair]
        ensures { result.now ≡ self.now.gaps }
    {
        &self.gaps
    }

    /// The leg rules that no ride selects, in file order.
    pub fn idle(&self) -> &[RuleId]
        ensures { result.now ≡ self.now.idle }
    {
        &self.idle
    }

    /// The report of what was found.
    pub fn of(alloc: Global, found: &Found) -> Result<AuditReport, AllocError>
        ensures gaps { IfOk result (λ report. ArePairsInOrder found.now.gaps.items report.gaps) }
        ensures idle { IfOk result (λ report. report.idle ≡ are_unused found.now.used.items) }
    {
        Ok(AuditReport {
            gaps: in_order(alloc, &found.gaps)?,
            idle: unused(alloc, &found.used)?,
        })
    }
}

/// The pairs in order, each once.
fn in_order(alloc: Global, pairs: &[Pair]) -> Result<Vec<Pair>, AllocError>
    ensures { IfOk result (λ sorted. ArePairsInOrder pairs.now sorted.items) }
{
    let mut sorted = Vec::from_slice(alloc, pairs)?;
    put_in_order(&mut sorted);
    Ok(sorted)
}

/// The rules that aren't marked.
///
/// # Errors
/// Want of memory; so counts that there would be more than 2^32 rules.
fn unused(alloc: Global, used: &[bool]) -> Result<Vec<RuleId>, AllocError>
    ensures { IfOk result (λ rules. rules.items ≡ are_unused used.now) }
{
    let mut rules = Vec::new(alloc);
    for number in 0..used.len() {
        if !used[number] {
            rules.push(rule_at(number)?)?;
        }
    }
    Ok(rules)
}

/// The rule with this number.
fn rule_at(number: usize) -> Result<RuleId, AllocError>
    ensures { IfOk result (λ rule. rule.0 ≡ number) }
{
    match u32::try_from(number) {
        Ok(rule) => Ok(RuleId(rule)),
        Err(_) => Err(AllocError),
    }
}
