// Sources and certificates from files.
ghost use Rattle.std.specs.Prelude.{◌≤◌, length};

use crate::refusal::Refusal;
use annot_types::Certificate;
use cert_json::read;
use raml_io::{DirStore, Store};
use raml_parse::parse;
use simple_types::{Typed, check};
use std::alloc::Global;

/// The limit of a source, in bytes, and that of a certificate.
const SOURCE: u64 = 1_048_576;

const CERTIFICATE: u64 = 16_777_216;

/// The typed program of a file.
pub fn read_source(rt: &HostRuntime, name: &str) -> Result<Typed, Refusal> {
    let mut store = DirStore::new(rt);
    match store.read(rt.alloc(), name, SOURCE) {
        Ok(bytes) => typed_program(rt.alloc(), &bytes),
        Err(_) => Err(Refusal::Source),
    }
}

// The typed program that a source spells.
fn typed_program(alloc: Global, source: &[u8]) -> Result<Typed, Refusal>
    requires { length source.now ≤ 1048576 }
{
    let Ok(program) = parse(alloc, source) else {
        return Err(Refusal::Source);
    };
    match check(alloc, program) {
        Ok(typed) => Ok(typed),
        Err(_) => Err(Refusal::Source),
    }
}

/// The certificate of a file.
pub fn read_certificate(rt: &HostRuntime, name: &str) -> Result<Certificate, Refusal> {
    let mut store = DirStore::new(rt);
    match store.read(rt.alloc(), name, CERTIFICATE) {
        Ok(bytes) => certificate_in(rt.alloc(), &bytes),
        Err(_) => Err(Refusal::Certificate),
    }
}

// The certificate that is written so.
fn certificate_in(alloc: Global, bytes: &[u8]) -> Result<Certificate, Refusal> {
    match read(alloc, bytes) {
        Ok(certificate) => Ok(certificate),
        Err(_) => Err(Refusal::Certificate),
    }
}
