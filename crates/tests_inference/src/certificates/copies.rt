// Certificates are read, and written back byte for byte.
use crate::certificates::copied::{FIRST_VERSION, OF_KINDS, OF_LISTS, OF_LOOPS, OF_NUMBERS};
use cert_json::{JsonFault, read, write};
use std::alloc::Global;
use std::process::Abort;
use std::test::Fail;

// Whether the text is that of the certificate that is read from it, also once a line feed was written behind it.
fn is_copied(alloc: Global, text: &str) -> Result<bool, JsonFault> {
    let certificate = read(alloc, text.as_bytes())?;
    let mut bytes = write(alloc, &certificate)?;
    bytes.push(b'\n')?;
    let again = read(alloc, &bytes)?;
    let bytes = write(alloc, &again)?;
    Ok(bytes.as_slice() == text.as_bytes())
}

fn all_copied(rt: &impl Abort, alloc: Global, texts: &str) {
    for text in texts.lines() {
        assert_eq!(rt; is_copied(alloc, text), Ok(true), "{text}");
    }
}

#[test]
fn certificates_are_copied(rt: HostRuntime) {
    for texts in [FIRST_VERSION, OF_KINDS, OF_LISTS, OF_NUMBERS, OF_LOOPS] {
        all_copied(&rt, rt.alloc(), texts);
    }
}

// White space is accepted, keys may come in any order, and the last value of a key counts.
#[test]
fn other_texts_are_read(rt: HostRuntime) {
    let text = r#" {"version": 1, "scale": {"ticks":"0","ticks" : "7", "cells":"1"},
        "degree":2, "blocks":[ {"kind":"ticks","group":0,"calls":1} ]}
        "#;
    match read(rt.alloc(), text.as_bytes()) {
        Ok(certificate) => {
            assert_eq!(rt; certificate.degree, 2);
            assert_eq!(rt; certificate.ticks_scale, 7);
            assert_eq!(rt; certificate.cells_scale, 1);
            assert_eq!(rt; certificate.work_scale, None);
            assert_eq!(rt; certificate.blocks.len(), 1);
        }
        Err(fault) => assert_eq!(rt; Ok(()), Err(fault)),
    }
}
