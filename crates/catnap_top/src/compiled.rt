use cat_machine::Code;
use cat_program::Program;
use std::marker::Model;

/// A program with its code.
#[derive(Drop)]
pub struct Compiled {
    pub program: Program,
    pub code: Code,
}

impl Model for Compiled {
    ghost use Rattle.std.specs.Prelude.{◌≡◌};
    ghost use Rattle.cat_program.specs.contracts.syntax.Expr as e;
    ghost use Rattle.std.specs.Coded.{codes};
    ghost use Rattle.cat_machine.specs.Code.{code_of};
    ghost use Rattle.catnap_top.specs.CompiledValue.{CompiledValue};

    ghost Value = { CompiledValue };

    ghost coded = { Prim.hlevel (codes, e.the_row.coded) };

    ghost view = { λ c. record { program = c.program; code = c.code } };

    ghost invariant = { λ c. c.code ≡ code_of c.program };
}
