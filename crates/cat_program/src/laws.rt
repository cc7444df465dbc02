//! What the conditions on a program say of its parts.

ghost use Rattle.std.specs.Prelude.{◌≡◌, length};
ghost use Rattle.cat_program.specs.Checked.{Checked, IsChecked};
ghost use Rattle.cat_program.specs.PartLaws.{EachPart, BlocksAreTrees, OutputsAreFew};

/// Each event of a checked program has a header and a list of versions.
pub fn events_have_headers()
    ensures { (p : Checked) → IsChecked p → length p.headers ≡ length p.events }
{}

/// What a checked program keeps of each part, by its number: where a variable stands, how an event is declared, and that each task
/// and each version works.
pub fn parts_law()
    ensures { (p : Checked) → IsChecked p → EachPart p }
{}

/// Where blocks name lower ones, a block's tree is its statements, over the trees of the blocks that they name.
pub fn blocks_law()
    ensures { BlocksAreTrees }
{}

/// A list of an event puts out no more than its greatest count.
pub fn outputs_law()
    ensures { OutputsAreFew }
{}
