use cat_program::Program;
use cn_plan::Least;
use std::marker::Model;

/// A program with the least harvest for it.
#[derive(Drop)]
pub struct Planned {
    pub program: Program,
    pub plan: Least,
}

impl Model for Planned {
    ghost use Rattle.cat_program.specs.contracts.syntax.Expr as e;
    ghost use Rattle.std.specs.Coded.{codes};
    ghost use Rattle.cn_plan.specs.Least.{SuitsLeast};
    ghost use Rattle.catnap_top.specs.PlannedValue.{PlannedValue};

    ghost Value = { PlannedValue };

    ghost coded = { Prim.hlevel (codes, e.the_row.coded) };

    ghost view = { λ p. record { program = p.program; plan = p.plan } };

    ghost invariant = { λ p. SuitsLeast p.program p.plan };
}
