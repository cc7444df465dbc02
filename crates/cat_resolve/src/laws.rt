//! What the conditions on a source say of its program.

ghost use Rattle.std.specs.Prelude.{◌<◌, ◌^◌, length};
ghost use Rattle.cn_base.specs.declared.tree.Tree.{Tree};
ghost use Rattle.cat_program.specs.Checked as program;
ghost use Rattle.cat_program.specs.Checked.{Checked};
ghost use Rattle.cat_conditions.specs.Conditions.{MeetsConditions};
ghost use Rattle.cat_resolve.specs.Content.{blocks_from};
ghost use Rattle.cat_resolve.specs.Header.{IsSmall};
ghost use Rattle.cat_resolve.specs.Names.{names_of};
ghost use Rattle.cat_resolve.specs.Program.{IsProgramOf};

use cat_conditions::plain_law;
use cn_base::nests_law;

/// A source that meets all conditions is small enough for `resolve`, and its program is a checked one.
pub fn checked_law()
    ensures small { (tree : Tree) → MeetsConditions tree → IsSmall tree.items }
    ensures few_blocks { (tree : Tree) → MeetsConditions tree → length (blocks_from (names_of tree.items) 0 tree.items) < 2 ^ 32 }
    ensures checked { (tree : Tree) (p : Checked) → MeetsConditions tree → IsProgramOf tree p → program.IsChecked p }
{
    nests_law();
    plain_law();
}
