//! How many cells each rule decided.

ghost use Rattle.std.specs.Prelude.{◌≡◌, ◌<◌, ◌++◌, [], ◌∷◌, ℕ, List, Option, OnOk, get_or, length};
ghost use Rattle.rules_text.specs.RulesInMemory.{placed_rules_read};
ghost use Rattle.cmd_rules.specs.CountText.{count_line, counts_by, rule_count};
ghost use Rattle.cmd_rules.specs.inner.Counted.{AreCounts, count_at};
ghost use Rattle.rules_text.specs.RulesRead.{line_read};

use crate::begins::add_decider;
use rules_cells::RuleLine;
use rules_text::{PlacedRules, RulePlace};
use std::alloc::{AllocError, Global};
use text_words::{add_number, add_text};

/// How many cells each rule decided.
#[derive(Drop)]
pub(crate) struct Counts {
    /// The count of each line of rules, up to the last that decided a cell.
    pub rules: Vec<u64>,
    /// The count of `otherwise`.
    pub otherwise: u64,
}

/// Appends counts of 0 until there is one with index `place`.
fn reach(counts: &mut Vec<u64>, place: usize) -> Result<(), AllocError>
    ensures within { OnOk result (place < length counts.new.items) }
    ensures same { OnOk result ((at : ℕ) → get_or counts.new.items at 0 ≡ get_or counts.old.items at 0) }
{
    while counts.len() <= place {
        counts.push(0)?;
    }
    Ok(())
}

/// Appends the line about a rule, or about `otherwise`.
#[tactic(auto, using(std::proofs::lemmas::List::append_assoc))]
fn add_count(
    answers: &mut Vec<u8>,
    counts: &Counts,
    begins: &[RulePlace],
    place: Option<usize>,
) -> Result<(), AllocError>
    ensures { OnOk result (answers.new.items ≡ answers.old.items ++ count_line begins.now (count_at counts.now) place) }
{
    add_decider(answers, begins, place)?;
    add_text(answers, b" cells ")?;
    add_number(answers, counts.at(place))?;
    answers.push(b'\n')?;
    Ok(())
}

/// Appends the line about the line of rules at a place, if it is a rule.
fn add_rule_count(
    answers: &mut Vec<u8>,
    counts: &Counts,
    begins: &[RulePlace],
    place: usize,
    line: &RuleLine,
) -> Result<(), AllocError>
    ensures { OnOk result (answers.new.items ≡ answers.old.items ++ rule_count begins.now (count_at counts.now) place (line_read line.now)) }
{
    match line {
        RuleLine::Rule { .. } => add_count(answers, counts, begins, Some(place)),
        RuleLine::Block { .. } => Ok(()),
        RuleLine::End => Ok(()),
    }
}

impl Counts {
    /// Counts of no cell.
    pub fn new(alloc: Global) -> Counts
        ensures { AreCounts [] result }
    {
        Counts {
            rules: Vec::new(alloc),
            otherwise: 0,
        }
    }

    /// The count of the rule at a place, or of `otherwise`.
    fn at(&self, place: Option<usize>) -> u64
        ensures { result ≡ count_at self.now place }
    {
        match place {
            None => self.otherwise,
            Some(place) => match self.rules.get(place) {
                Some(count) => *count,
                None => 0,
            },
        }
    }

    /// Counts a cell that the rule at a place decides, or `otherwise`.
    pub fn count(&mut self, place: Option<usize>) -> Result<(), AllocError>
        ensures { OnOk result ((decided : List (Option ℕ)) → AreCounts decided self.old → AreCounts (place ∷ decided) self.new) }
    {
        match place {
            None => {
                self.otherwise = self.otherwise.saturating_add(1);
            }
            Some(place) => {
                reach(&mut self.rules, place)?;
                self.rules[place] = self.rules[place].saturating_add(1);
            }
        }
        Ok(())
    }

    /// Appends a line about each rule, and one about `otherwise`.
    #[tactic(auto, using(std::proofs::lemmas::List::append_assoc))]
    pub fn add_to(
        &self,
        answers: &mut Vec<u8>,
        placed_rules: &PlacedRules,
    ) -> Result<(), AllocError>
        ensures { OnOk result (answers.new.items ≡ answers.old.items ++ counts_by (placed_rules_read placed_rules.now) (count_at self.now)) }
    {
        let mut left = placed_rules.rules.lines.as_slice();
        let mut place = 0;
        while let [line, rest @ ..] = left {
            add_rule_count(answers, self, &placed_rules.begins, place, line)?;
            place += 1;
            left = rest;
        }
        add_count(answers, self, &placed_rules.begins, None)
    }
}
