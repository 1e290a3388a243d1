//! The names of streams, so that each stream is read only once.
ghost use Rattle.span_tables.specs.Names.{is_among};
ghost use Rattle.std.specs.Fs.{IsFile, file_type};
ghost use Rattle.std.specs.Prelude.{[], ◌∷◌, ◌≡◌, ◌++◌, IfErr, List, OnOk, map, not, string_bytes, ℕ};

use sources::ReadFault;
use std::alloc::Global;
use std::fs::Metadata;
use std::marker::Model;

/// The names of the streams that were read. A stream, such as a pipe, can be read only once, so none is read a second
/// time.
#[derive(Drop)]
pub struct Streams {
    names: Vec<String>,
}

impl Model for Streams {
    ghost Value = { List (List ℕ) };

    ghost view = { λ s. map string_bytes s.names.items };
}

// Whether a name is one of these.
fn has_name(names: &[String], name: &str) -> bool
    ensures { result ≡ is_among (map string_bytes names.now) name.now }
{
    for other in names {
        if name == other.as_str() {
            return true;
        }
    }
    false
}

impl Streams {
    /// Returns an empty list of streams.
    pub fn new(alloc: Global) -> Streams
        ensures { result ≡ [] }
    {
        Streams {
            names: Vec::new(alloc),
        }
    }

    /// Returns whether the file of a name may be read, that is, whether it is not a stream that was read.
    pub fn may_read(&self, name: &str) -> bool
        ensures { result ≡ not (is_among self.now name.now) }
    {
        !has_name(&self.names, name)
    }

    /// Keeps the name of a stream that is about to be read.
    pub fn keep(&mut self, alloc: Global, name: &str) -> Result<(), ReadFault>
        ensures kept { OnOk result (self.new ≡ self.old ++ name.now ∷ []) }
        ensures same { IfErr result (λ _. self.new ≡ self.old) }
        ensures memory { IfErr result (λ e. e ≡ ReadFault.OutOfMemory) }
    {
        let name = String::from_str(alloc, name).map_err(|_| ReadFault::OutOfMemory)?;
        self.names.push(name).map_err(|_| ReadFault::OutOfMemory)
    }

    /// Keeps a name that is about to be read, if it is the name of a stream and not of a regular file.
    pub fn keep_unless_file(
        &mut self,
        alloc: Global,
        name: &str,
        metadata: &Metadata,
    ) -> Result<(), ReadFault>
        ensures file { IsFile (file_type metadata.now) → self.new ≡ self.old }
        ensures stream { (IsFile (file_type metadata.now) → ⊥) → OnOk result (self.new ≡ self.old ++ name.now ∷ []) }
        ensures same { IfErr result (λ _. self.new ≡ self.old) }
        ensures memory { IfErr result (λ e. e ≡ ReadFault.OutOfMemory) }
    {
        if metadata.is_file() {
            return Ok(());
        }
        self.keep(alloc, name)
    }
}
