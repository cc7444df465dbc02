use cn_base::NoMemory;
use feasibility::Verdict;
use forecast_choice::RowFault;

/// Why nothing was prepared. Rows of a forecast are counted from 1.
#[derive(Debug, PartialEq, Eq, Drop)]
pub enum PrepareFault {
    /// Demand and the row's supply repeat only after more than 1,000,000 ticks; with this spacing the window exceeds them.
    WindowTooLong { row: u32, spacing: u32 },
    /// With the row's supply no versions are feasible; the verdict is that on the last ones.
    Rejected { row: u32, verdict: Verdict },
    NoMemory,
}

impl From<NoMemory> for PrepareFault {
    ghost use Rattle.std.specs.Prelude.{◌≡◌};
    ghost use Rattle.cn_runtime.specs.declared.refused.PrepareFault.TheVariants as prepare;

    ghost from_gives = { λ _ e. e ≡ prepare.NoMemory };

    fn from(_: NoMemory) -> PrepareFault {
        PrepareFault::NoMemory
    }
}

impl From<RowFault> for PrepareFault {
    ghost use Rattle.std.specs.Prelude.{◌≡◌};
    ghost use Rattle.cn_runtime.specs.Planned.{fault_of};

    ghost from_gives = { λ fault e. e ≡ fault_of fault };

    fn from(fault: RowFault) -> PrepareFault {
        match fault {
            RowFault::WindowTooLong { row, spacing } => PrepareFault::WindowTooLong {
                row,
                spacing,
            },
            RowFault::Rejected { row, verdict } => PrepareFault::Rejected { row, verdict },
            RowFault::NoMemory => PrepareFault::NoMemory,
        }
    }
}
