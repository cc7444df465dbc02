use cat_eval::State;
use cat_program::Program;
use std::marker::Model;

/// So many steps of a program, from a state of its tasks.
#[derive(Drop)]
pub struct Ready {
    pub steps: u32,
    pub program: Program,
    pub state: State,
}

impl Model for Ready {
    ghost use Rattle.cat_program.specs.contracts.syntax.Expr as e;
    ghost use Rattle.std.specs.Coded.{codes};
    ghost use Rattle.cat_eval.specs.Cursor.{Fits};
    ghost use Rattle.catnap_top.specs.ReadyValue.{ReadyValue};

    ghost Value = { ReadyValue };

    ghost coded = { Prim.hlevel (codes, e.the_row.coded) };

    ghost view = { λ r. record { steps = r.steps; program = r.program; state = r.state } };

    ghost invariant = { λ r. Fits r.program r.state };
}
