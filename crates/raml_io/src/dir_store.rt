// The real files.
ghost use Rattle.std.specs.Prelude.{◌≡◌, ◌≤◌, None, IfOk, IfSome, OnOk, IfErr, IsErrOf, take, vec_len};
ghost use Rattle.raml_io.specs.Faults.{Rose, count_after};

use crate::store::{Store, StoreFault};
use std::alloc::Global;
use std::fs;
use std::io::Read;
use std::marker::Model;
use std::rt::Files;

/// The files of the system. Each is opened by its name as the system opens it: below the working
/// directory, unless the name leads elsewhere. A directory can't be read.
///
/// Contracts see it as its count of faults, which is the count for every name.
#[derive(Drop)]
pub struct DirStore<'a, R: Files> {
    rt: &'a R,
    faults: u64,
}

impl<'a, R: Files> Model for DirStore<'a, R> {
    ghost use Rattle.std.specs.Prelude.{ℕ};

    ghost Value = { ℕ };

    ghost view = { λ s. s.faults };
}

impl<'a, R: Files> DirStore<'a, R> {
    /// The files that this runtime opens. No read has failed yet.
    pub fn new(rt: &'a R) -> DirStore<'a, R>
        ensures { result ≡ 0 }
    {
        DirStore { rt, faults: 0 }
    }
}

impl<'a, R: Files> Store for DirStore<'a, R> {
    ghost holds = { λ _. None };

    ghost faults = { λ s name. s };

    fn read(&mut self, alloc: Global, name: &str, most: u64) -> Result<Vec<u8>, StoreFault>
        ensures short { IfOk result (λ bytes. vec_len bytes ≤ most) }
        ensures ok { OnOk result (self.new ≡ self.old) }
        ensures err { IfErr result (λ fault. self.new ≡ count_after fault self.old) }
        ensures failed { IsErrOf result StoreFault.Failed → Rose self.old self.new }
        ensures later { self.old ≤ self.new }
    {
        let answer = read_file(self.rt, alloc, name, most);
        if let Err(StoreFault::Failed) = answer {
            self.faults = self.faults.saturating_add(1);
        }
        answer
    }
}

// The first bytes of the file of that name.
fn read_file<R: Files>(rt: &R, alloc: Global, name: &str, most: u64) -> Result<Vec<u8>, StoreFault>
    ensures { IfOk result (λ bytes. vec_len bytes ≤ most) }
{
    match fs::open(rt, name) {
        Ok(mut file) => read_up_to(alloc, &mut file, most),
        Err(_) => Err(StoreFault::Failed),
    }
}

/// The first bytes that a reader gives, `most` of them or all up to its end, which is a read of no bytes.
///
/// # Errors
/// `Failed` where a read fails, and `NoMemory` where memory is wanting.
pub fn read_up_to<F: Read>(alloc: Global, file: &mut F, most: u64) -> Result<Vec<u8>, StoreFault>
    ensures short { IfOk result (λ bytes. vec_len bytes ≤ most) }
    ensures front { IfOk result (λ bytes. IfSome (F.remaining file.old) (λ left. bytes.items ≡ take most left)) }
{
    let mut bytes = Vec::new(alloc);
    let mut buffer = [0u8; 4096];
    while (bytes.len() as u64) < most {
        let left = most - bytes.len() as u64;
        let want = left.min(4096) as usize;
        match file.read(&mut buffer[..want]) {
            Ok(0) => break,
            Ok(count) => bytes.extend_from_slice(&buffer[..count])?,
            Err(_) => return Err(StoreFault::Failed),
        }
    }
    Ok(bytes)
}
