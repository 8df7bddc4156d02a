use loom_base::NoMemory;

/// Why nothing is undone or redone.
#[derive(Clone, Copy, Debug, PartialEq, Eq)]
pub enum UndoStop {
    /// There is no edit to undo, or none to redo.
    Nothing,
    /// Memory ran out.
    NoMemory,
}

impl From<NoMemory> for UndoStop {
    ghost use Rattle.std.specs.Prelude.{◌≡◌};
    ghost use Rattle.loom_undo.specs.declared.stop.UndoStop.TheVariants.{NoMemory as OutOfMemory};

    ghost from_gives = { λ _ stop. stop ≡ OutOfMemory };

    fn from(_error: NoMemory) -> UndoStop {
        UndoStop::NoMemory
    }
}
