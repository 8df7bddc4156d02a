use loom_base::{CavityNo, MAX_ROWS, NetNo, NoMemory, Which};
use loom_formula::Choice;
use loom_rows::RowsStop;

/// Why the conditions of a project aren't worked out.
#[derive(Debug, Drop)]
pub enum ActiveStop {
    /// No choice is valid.
    NoChoice,
    /// A valid choice, the least one, makes the cavity active in two nets: the lowest such cavity,
    /// then the lowest two nets.
    Clash {
        cavity: CavityNo,
        first: NetNo,
        second: NetNo,
        choice: Choice,
    },
    /// A limit is passed; the count is the limit plus one.
    Limit {
        which: Which,
        count: u64,
    },
    /// Memory ran out.
    NoMemory,
}

impl From<RowsStop> for ActiveStop {
    ghost use Rattle.std.specs.Prelude.{◌≡◌};
    ghost use Rattle.loom_active.specs.Valid.{stop_of};

    ghost from_gives = { λ refusal stop. stop ≡ stop_of refusal };

    fn from(refusal: RowsStop) -> ActiveStop {
        match refusal {
            RowsStop::TooManyRows => ActiveStop::Limit {
                which: Which::Rows,
                count: MAX_ROWS + 1,
            },
            RowsStop::NoMemory => ActiveStop::NoMemory,
        }
    }
}

impl From<NoMemory> for ActiveStop {
    ghost use Rattle.std.specs.Prelude.{◌≡◌};
    ghost use Rattle.loom_active.specs.declared.stop.ActiveStop.{ActiveStop};

    ghost from_gives = { λ _ stop. stop ≡ ActiveStop.NoMemory };

    fn from(_error: NoMemory) -> ActiveStop {
        ActiveStop::NoMemory
    }
}
