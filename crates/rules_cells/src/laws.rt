//! Laws of the definitions of rules. Each is the contract of a function that does nothing.

ghost use Rattle.rules_cells.specs.Decisions.{TheFirstRuleDecides};

/// Of the rules that aren't passed over, the first whose test holds decides a cell, and its value is the value of the rules.
pub fn the_first_rule_decides()
    ensures { TheFirstRuleDecides }
{}
