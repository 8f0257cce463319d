// The real files.
ghost use Rattle.std.specs.Prelude.{◌≡◌, ◌≤◌, false, None, OnOk, OnErr, IsErrOf, IfErr};
ghost use Rattle.raml_io.specs.Faults.{Rose};

use crate::shelf::{Shelf, ShelfFault};
use std::alloc::{AllocError, Global};
use std::fs::{self, File};
use std::io::{self, Write};
use std::marker::Model;
use std::rt::Files;

/// The files of the system, by their names as the system opens them.
///
/// A file that is written over is left beside its place first, with `.part` behind its name, and moved there when it is
/// whole.
///
/// Contracts see it as its count of faults.
#[derive(Drop)]
pub struct DirShelf<'a, R: Files> {
    rt: &'a R,
    faults: u64,
}

impl<'a, R: Files> Model for DirShelf<'a, R> {
    ghost use Rattle.std.specs.Prelude.{ℕ};

    ghost Value = { ℕ };

    ghost view = { λ s. s.faults };
}

impl<'a, R: Files> DirShelf<'a, R> {
    /// The files of this runtime. No write has failed yet.
    pub fn new(rt: &'a R) -> DirShelf<'a, R>
        ensures { result ≡ 0 }
    {
        DirShelf { rt, faults: 0 }
    }
}

impl<'a, R: Files> Shelf for DirShelf<'a, R> {
    ghost holds = { λ _. None };

    ghost faults = { λ s. s };

    fn leave(
        &mut self,
        alloc: Global,
        name: &str,
        bytes: &[u8],
        over: bool,
    ) -> Result<(), ShelfFault>
        ensures careful { IsErrOf result ShelfFault.Taken → over ≡ false }
        ensures failed { IsErrOf result ShelfFault.Failed → Rose self.old self.new }
        ensures later { self.old ≤ self.new }
    {
        let left = if over {
            write_over(self.rt, alloc, name, bytes)
        } else {
            write_new(self.rt, name, bytes)
        };
        if let Err(ShelfFault::Failed) = left {
            self.faults = self.faults.saturating_add(1);
        }
        left
    }
}

// Writes a file that is not there yet.
fn write_new<R: Files>(rt: &R, name: &str, bytes: &[u8]) -> Result<(), ShelfFault> {
    match File::create_new(rt, name) {
        Ok(mut file) => write_whole(rt, &mut file, name, bytes),
        Err(error) if error.kind() == io::ErrorKind::AlreadyExists => Err(ShelfFault::Taken),
        Err(_) => Err(ShelfFault::Failed),
    }
}

// Writes a file beside its place, and moves it there.
fn write_over<R: Files>(rt: &R, alloc: Global, name: &str, bytes: &[u8]) -> Result<(), ShelfFault>
    ensures { IfErr result (λ fault. fault ≡ ShelfFault.Taken → ⊥) }
{
    let mut part = String::from_str(alloc, name)?;
    part.push_str(".part")?;
    if write_new(rt, &part, bytes).is_err() {
        return Err(ShelfFault::Failed);
    }
    match fs::rename(rt, part.as_str(), name) {
        Ok(()) => Ok(()),
        Err(_) => {
            let _ = fs::remove_file(rt, part.as_str());
            Err(ShelfFault::Failed)
        }
    }
}

// Writes all of the bytes to a file that was made for them, or removes it.
fn write_whole<R: Files>(
    rt: &R,
    file: &mut R::File,
    name: &str,
    bytes: &[u8],
) -> Result<(), ShelfFault>
    ensures { IfErr result (λ fault. fault ≡ ShelfFault.Failed) }
{
    match file.write_all(bytes) {
        Ok(()) => Ok(()),
        Err(_) => {
            let _ = fs::remove_file(rt, name);
            Err(ShelfFault::Failed)
        }
    }
}
