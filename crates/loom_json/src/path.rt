ghost use Rattle.std.specs.Prelude.{◌≡◌, [], ◌∷◌, ◌++◌, IfOk};

use loom_base::NoMemory;
use std::alloc::{AllocError, AllocFailed, Global};
use std::marker::Model;

/// The path of a place in a JSON value, which contracts see as its bytes: `/key` and `/position`
/// parts, empty for the root.
#[derive(Debug, Drop)]
pub struct Path {
    text: String,
}

impl Model for Path {
    ghost use Rattle.std.specs.Prelude.{ℕ, List, string_bytes};

    ghost Value = { List ℕ };

    ghost view = { λ path. string_bytes path.text };
}

impl Path {
    pub fn root(alloc: Global) -> Path
        ensures { result ≡ [] }
    {
        Path {
            text: String::new(alloc),
        }
    }

    /// The path below a part.
    pub fn below(alloc: Global, part: &str, path: &Path) -> Result<Path, NoMemory>
        ensures { IfOk result (λ longer. longer ≡ 47 ∷ (part.now ++ path.now)) }
    {
        let mut text = String::new(alloc);
        text.push('/')?;
        text.push_str(part)?;
        text.push_str(path.as_str())?;
        Ok(Path { text })
    }

    pub fn as_str(&self) -> &str
        ensures { result.now ≡ self.now }
    {
        self.text.as_str()
    }
}

/// Why a value wasn't read by a form.
#[derive(Debug, Drop)]
pub enum ShapeStop {
    /// The first place, in reading order, that isn't of its form.
    WrongShape { path: Path },
    NoMemory,
}

impl ShapeStop {
    /// The value itself isn't of its form.
    pub fn here(alloc: Global) -> ShapeStop
        ensures { result ≡ ShapeStop.WrongShape [] }
    {
        ShapeStop::WrongShape {
            path: Path::root(alloc),
        }
    }
}

impl From<NoMemory> for ShapeStop {
    ghost use Rattle.std.specs.Prelude.{◌≡◌};
    ghost use Rattle.loom_json.specs.declared.path.ShapeStop.TheVariants as stops;

    ghost from_gives = { λ _ stop. stop ≡ stops.NoMemory };

    fn from(_error: NoMemory) -> ShapeStop {
        ShapeStop::NoMemory
    }
}

impl From<AllocError> for ShapeStop {
    ghost use Rattle.std.specs.Prelude.{◌≡◌};
    ghost use Rattle.loom_json.specs.declared.path.ShapeStop.TheVariants as stops;

    ghost from_gives = { λ _ stop. stop ≡ stops.NoMemory };

    fn from(_error: AllocError) -> ShapeStop {
        ShapeStop::NoMemory
    }
}

impl<T: Drop> From<AllocFailed<T>> for ShapeStop {
    ghost use Rattle.std.specs.Prelude.{◌≡◌};
    ghost use Rattle.loom_json.specs.declared.path.ShapeStop.TheVariants as stops;

    ghost from_gives = { λ _ stop. stop ≡ stops.NoMemory };

    fn from(_error: AllocFailed<T>) -> ShapeStop {
        ShapeStop::NoMemory
    }
}
