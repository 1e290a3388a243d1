//! Sources of files, which return the bytes of a file by its name, and readers that remember failures.
#![tactic(auto)]

pub mod input;
pub mod marked_reader;

ghost use Rattle.sources.specs.Files.{File, ReadGives};
ghost use Rattle.std.specs.Prelude.{◌≡◌, Bool, IfSome, List, None, Option, Some, is_ok, ℕ};

use std::alloc::Global;
use thiserror::Error;

/// The maximum number of bytes of a file (docs/METHOD.md, Limits).
pub const FILE_CAP: usize = 67_108_864;

/// The reason why a file cannot be read.
#[derive(Clone, Copy, Debug, PartialEq, Eq, Error)]
pub enum ReadFault {
    /// There is no such file, or reading it failed.
    #[error("the file cannot be read")]
    Failed,
    /// The file has more than `FILE_CAP` bytes.
    #[error("the file is too long")]
    TooLong,
    /// Memory ran out.
    #[error("memory")]
    OutOfMemory,
}

/// A source of files.
pub trait Sources {
    // The file of this name, if it is known.
    ghost file: { Self → List ℕ → Option File } = { λ _ _. None };

    // States that the file of a name was requested, whether it could be read, and the source before and after the
    // request. An implementation need not define it. Code that is generic over sources can obtain it only from a call
    // of `read`, even for a disk.
    ghost reads: { Self → List ℕ → Bool → Self → Type 0 } = { λ _ _ _ _. Unit {0} };

    /// Returns the bytes of the file with this name, or the reason why it cannot be read.
    fn read(&mut self, alloc: Global, name: &str) -> Result<Vec<u8>, ReadFault>
        ensures known { IfSome (file self.old name.now) (λ f. ReadGives (λ v. v.items) f result) }
        ensures same { (n : List ℕ) → file self.new n ≡ file self.old n }
        ensures noted { reads self.old name.now (is_ok result) self.new };
}
