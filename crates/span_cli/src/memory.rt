//! Files in memory.
ghost use Rattle.std.specs.Prelude.{◌≡◌, option_map};
ghost use Rattle.span_cli.specs.near.Memory.{bytes_in};

use sources::{FILE_CAP, ReadFault, Sources};
use std::alloc::Global;

/// File names, each with the bytes of its file.
#[derive(Clone, Copy)]
pub struct InMemory<'a> {
    pub files: &'a [(&'a str, &'a [u8])],
}

fn bytes_of<'a>(files: &'a [(&'a str, &'a [u8])], name: &str) -> Option<&'a [u8]>
    ensures { option_map (λ bytes. bytes.now) result ≡ bytes_in files.entry.now name.now }
{
    for (file, bytes) in files {
        if *file == name {
            return Some(bytes);
        }
    }
    None
}

impl<'a> Sources for InMemory<'a> {
    ghost use Rattle.sources.specs.declared.TheConstants.{FILE_CAP};
    ghost use Rattle.std.specs.Prelude.{Some};
    ghost use Rattle.span_cli.specs.near.Memory.{bytes_in, capped};

    ghost file = { λ s name. Some (capped FILE_CAP (bytes_in s.files.now name)) };

    fn read(&mut self, alloc: Global, name: &str) -> Result<Vec<u8>, ReadFault> {
        let Some(bytes) = bytes_of(self.files, name) else {
            return Err(ReadFault::Failed);
        };
        if bytes.len() > FILE_CAP {
            return Err(ReadFault::TooLong);
        }
        Vec::from_slice(alloc, bytes).map_err(|_| ReadFault::OutOfMemory)
    }
}
