//! Files of the operating system.
ghost use Rattle.span_cli.specs.Disk.{IsOpened};
ghost use Rattle.sources.specs.declared.TheConstants.{FILE_CAP};
ghost use Rattle.span_tables.specs.Names.{is_among};
ghost use Rattle.std.specs.Prelude.{[], ◌∷◌, ◌≡◌, ◌≢◌, ◌<◌, ◌≤◌, ◌⊎◌, ◌++◌, Err, IfErr, IfOk, IfSome, length, true, vec_len};

use crate::reading::read_file;
use crate::streams::Streams;
use sources::{ReadFault, Sources};
use std::alloc::Global;
use std::fs::{Metadata, OpenFile};
use std::io;
use std::io::Read;
use std::rt::Files;

/// Something that opens files by name, such as each runtime with [`Files`].
pub trait OpenByName {
    ghost use Rattle.std.specs.Prelude.{IfOk, List, ℕ};
    ghost use Rattle.std.specs.declared.fs.attrs.Metadata.{Metadata};

    /// An open file.
    type File: Read + Drop;

    // The file of a name was opened, and has this metadata. Code that is generic over this trait knows it only from a
    // call of `open_by_name`.
    ghost opens: { Self → List ℕ → Self.File → Metadata → Type 0 } = { λ _ _ _ _. Unit {0} };

    /// Opens the file of a name for reading, and returns it with its metadata.
    fn open_by_name(&self, name: &str) -> io::Result<(Self::File, Metadata)>
        ensures { IfOk result (λ opened. opens self.now name.now opened.0 opened.1) };
}

impl<R: Files> OpenByName for R {
    type File = R::File;

    fn open_by_name(&self, name: &str) -> io::Result<(R::File, Metadata)> {
        let file = std::fs::open(self, name)?;
        let metadata = file.metadata()?;
        Ok((file, metadata))
    }
}

/// The files of a runtime.
///
/// A stream, such as a pipe, can be read only once. So the names of streams that were read are kept, and none is read a
/// second time.
#[derive(Drop)]
pub struct Disk<'a, R: OpenByName> {
    rt: &'a R,
    streams: Streams,
}

impl<'a, R: OpenByName> Disk<'a, R> {
    /// Returns the files that this runtime opens by name.
    pub fn new(alloc: Global, rt: &'a R) -> Disk<'a, R>
        ensures { result.streams ≡ [] }
    {
        Disk {
            rt,
            streams: Streams::new(alloc),
        }
    }

    // Opens the file of a name, unless it is a stream that was read, and returns it with the number of bytes that its
    // metadata say. Keeps the name if they say that it is a stream.
    fn open(&mut self, alloc: Global, name: &str) -> Result<(R::File, u64), ReadFault>
        ensures once { is_among self.old.streams name.now ≡ true → result ≡ Err ReadFault.Failed }
        ensures opened { IfOk result (λ opened. IsOpened (R.opens self.old.rt.now name.now)
            self.old.streams name.now self.new.streams (λ file. file ≡ opened.0)) }
        ensures same { IfErr result (λ _. self.new.streams ≡ self.old.streams) }
        ensures fault { result ≢ Err ReadFault.TooLong }
    {
        if !self.streams.may_read(name) {
            return Err(ReadFault::Failed);
        }
        let Ok((file, metadata)) = self.rt.open_by_name(name) else {
            return Err(ReadFault::Failed);
        };
        self.streams.keep_unless_file(alloc, name, &metadata)?;
        Ok((file, metadata.len()))
    }
}

impl<'a, R: OpenByName> Sources for Disk<'a, R> {
    /// Returns the bytes of the file of a name. The name of a stream is kept when the stream is opened, even if reading
    /// it then fails. A name that was kept fails as a file that cannot be read.
    fn read(&mut self, alloc: Global, name: &str) -> Result<Vec<u8>, ReadFault>
        ensures once { is_among self.old.streams name.now ≡ true → result ≡ Err ReadFault.Failed }
        ensures kept { (self.new.streams ≡ self.old.streams) ⊎ (self.new.streams ≡ self.old.streams ++ name.now ∷ []) }
        // The bytes of the file that was opened are read as `read_file` says.
        ensures whole { IfOk result (λ bytes. IsOpened (R.opens self.old.rt.now name.now) self.old.streams name.now self.new.streams
            (λ file. IfSome (R.File.remaining file) (λ all. bytes.items ≡ all))) }
        ensures within { IfOk result (λ bytes. vec_len bytes ≤ FILE_CAP) }
        ensures too_long { result ≡ Err ReadFault.TooLong → IsOpened (R.opens self.old.rt.now name.now)
            self.old.streams name.now self.new.streams (λ file. IfSome (R.File.remaining file) (λ all. FILE_CAP < length all)) }
    {
        let (file, size) = self.open(alloc, name)?;
        read_file(alloc, file, size)
    }
}
