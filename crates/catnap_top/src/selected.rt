use cat_program::Program;
use degradation::Chosen;
use forecast_table::Forecast;
use std::marker::Model;

/// A program with the versions that were chosen for its events, for each row of a forecast.
#[derive(Drop)]
pub struct Selected {
    pub program: Program,
    /// Whether a file gave the forecast.
    pub given: bool,
    pub forecast: Forecast,
    pub chosen: Vec<Chosen>,
}

impl Model for Selected {
    ghost use Rattle.cat_program.specs.contracts.syntax.Expr as e;
    ghost use Rattle.std.specs.Coded.{codes};
    ghost use Rattle.catnap_top.specs.SelectedValue.{AreSelected, SelectedValue};

    ghost Value = { SelectedValue };

    ghost coded = { Prim.hlevel (codes, e.the_row.coded) };

    ghost view = { λ s. record { program = s.program; given = s.given; rows = s.forecast; chosen = s.chosen.items } };

    ghost invariant = { λ s. AreSelected (record { program = s.program; given = s.given; rows = s.forecast; chosen = s.chosen.items }) };
}
