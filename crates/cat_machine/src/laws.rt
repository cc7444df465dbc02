//! Laws of the definitions.

ghost use Rattle.std.specs.Prelude.{◌≡◌, ℕ, [], None, Option, length};
ghost use Rattle.cat_program.specs.Body.{Body};
ghost use Rattle.cat_program.specs.Checked.{Checked, IsChecked};
ghost use Rattle.cat_program.specs.Resting.{RestsAt};
ghost use Rattle.cat_machine.specs.Code.{code_of};
ghost use Rattle.cat_machine.specs.Fits.{Fits, HasShape};
ghost use Rattle.cat_machine.specs.Held.{Held};
ghost use Rattle.cat_machine.specs.LaidOut.{CodeIsLaidOut};

/// How long each part of a program's code is, where it stands, and how many steps it has at most.
pub fn code_is_laid_out()
    ensures { CodeIsLaidOut }
{}

/// A state at a place where a list is left, or at none, with no handler and no operands, fits, as one does that was loaded
/// again after a loss.
pub fn resting_states_fit()
    ensures { (p : Checked) (h : Held) (current : Option Body) → IsChecked p → HasShape (length p.words) (length p.tasks) h → RestsAt p h.place current → h.kept ≡ None → h.stack ≡ [] → Fits p (code_of p) h }
{}
