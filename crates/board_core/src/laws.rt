// What the crates above use of a board that follows a trace.
ghost use Rattle.board_core.specs.declared.origin.ModelOrigin.{ModelOrigin as Origin};
ghost use Rattle.board_core.specs.Laws.{HaveSameRules, RulesDecide, SaySame};

use nv_memory::operations_are_bounded;

/// A run on a board that follows a trace is decided by the rules, step by step: it is enough to know where it ended.
pub fn rules_decide()
    ensures { (o : Origin) → RulesDecide o }
{
    operations_are_bounded();
}

/// Origins that say the same have the same rules.
pub fn same_rules()
    ensures { (a b : Origin) → SaySame a b → HaveSameRules a b }
{}
