//! Files that are opened by their paths.
ghost use Rattle.std.specs.Prelude.{◌≡◌, ℕ, List, Option, None, Some, IfOk, IfSome};
ghost use Rattle.program_runs.specs.Programs.{Opening, Opens, opening, is_ok};

use std::fs::File;
use std::io::{Read, Result};

/// What opens files to be read.
pub trait OpenFiles {
    type File: Read + Drop;

    // The bytes of the file at each path, where they are known.
    ghost bytes_at: { Self → List ℕ → Option (List ℕ) } = { λ _ _. None };

    // What was opened so far, in order, where that is known.
    ghost openings: { Self → Option (List Opening) } = { λ _. None };

    /// Opens the file at a path.
    fn open(&mut self, path: &str) -> Result<Self::File>
        ensures returned { Opens (openings self.old) (opening path.now (is_ok result))
            (openings self.new) }
        ensures bytes { IfOk result
            (λ file. IfSome (bytes_at self.old path.now)
            (λ bytes. Self.File.remaining file ≡ Some bytes)) }
        ensures kept { bytes_at self.new ≡ bytes_at self.old };
}

/// The files of the system.
#[derive(Drop)]
pub struct SystemFiles<'a> {
    rt: &'a HostRuntime,
}

impl<'a> SystemFiles<'a> {
    pub fn new(rt: &'a HostRuntime) -> Self {
        SystemFiles { rt }
    }
}

impl OpenFiles for SystemFiles<'_> {
    type File = File;

    fn open(&mut self, path: &str) -> Result<File> {
        File::open(self.rt, path)
    }
}
