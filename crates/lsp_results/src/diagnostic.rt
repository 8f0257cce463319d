// Faults of a text, as they are published.
ghost use Rattle.std.specs.Prelude.{◌≡◌, codes, false, string_bytes, IfOk, OnOk, option_map};
ghost use Rattle.serde_json.specs.Data.{string, no_members, put as with_member};
ghost use Rattle.lsp_results.specs.Places.{natural};
ghost use Rattle.serde_json.specs.View.{view, members_view};
ghost use Rattle.serde_json.specs.Written.{has_float};
ghost use Rattle.lsp_results.specs.Diagnostics.{severity_of, location_json, related_json, all_related_json, diagnostic_members, with_code};
ghost use Rattle.lsp_results.specs.Diagnostics.{code_of, diagnostic_json, diagnostics_json, published_json, emptied_json};

use crate::place::{put_span, put_text, span_value};
use lsp_documents::Document;
use lsp_language::{Diagnostic, Related, Severity};
use lsp_positions::Encoding;
use serde_json::{Map, Value, json, push, put};
use std::alloc::{AllocError, Global};

/// What is published of a version of a document.
#[tactic(auto, using(crate::proofs::Plain::published_plain))]
pub fn published_value(
    alloc: Global,
    uri: &str,
    version: i64,
    diagnostics: Value,
) -> Result<Value, AllocError>
    requires { has_float (view diagnostics) ≡ false }
    ensures value { IfOk result (λ value. view value ≡ published_json uri.now version (view diagnostics)) }
    ensures plain { IfOk result (λ value. has_float (view value) ≡ false) }
{
    json!(in alloc; {"diagnostics": diagnostics, "uri": uri, "version": version})
}

/// What is published of a document that is closed: nothing.
pub fn emptied_value(alloc: Global, uri: &str) -> Result<Value, AllocError>
    ensures value { IfOk result (λ value. view value ≡ emptied_json uri.now) }
    ensures plain { IfOk result (λ value. has_float (view value) ≡ false) }
{
    json!(in alloc; {"diagnostics": [], "uri": uri})
}

/// The diagnostics of a document.
pub fn diagnostics_value(
    alloc: Global,
    encoding: Encoding,
    document: &Document,
    uri: &str,
    diagnostics: &[Diagnostic],
) -> Result<Value, AllocError>
    ensures value { IfOk result (λ value. view value ≡ diagnostics_json encoding document.now.text uri.now diagnostics.now) }
    ensures plain { IfOk result (λ value. has_float (view value) ≡ false) }
{
    all_diagnostics_value(alloc, encoding, document, uri, diagnostics)
}

fn all_diagnostics_value(
    alloc: Global,
    encoding: Encoding,
    document: &Document,
    uri: &str,
    diagnostics: &[Diagnostic],
) -> Result<Value, AllocError>
    ensures { IfOk result (λ value. view value ≡ diagnostics_json encoding document.now.text uri.now diagnostics.now) }
{
    let mut items = Vec::new(alloc);
    for diagnostic in diagnostics {
        push(
            &mut items,
            diagnostic_value(alloc, encoding, document, uri, diagnostic)?,
        )?;
    }
    Ok(Value::Array(items))
}

fn diagnostic_value(
    alloc: Global,
    encoding: Encoding,
    document: &Document,
    uri: &str,
    diagnostic: &Diagnostic,
) -> Result<Value, AllocError>
    ensures { IfOk result (λ value. view value ≡ diagnostic_json encoding document.now.text uri.now diagnostic.now) }
{
    let mut members = Map::new(alloc);
    put_all(&mut members, alloc, encoding, document, uri, diagnostic)?;
    put_code(&mut members, alloc, &diagnostic.code)?;
    Ok(Value::Object(members))
}

// Puts all members in but the code.
fn put_all(
    members: &mut Map<String, Value>,
    alloc: Global,
    encoding: Encoding,
    document: &Document,
    uri: &str,
    diagnostic: &Diagnostic,
) -> Result<(), AllocError>
    requires { members_view members.old.entries ≡ no_members }
    ensures { OnOk result (members_view members.new.entries ≡ diagnostic_members encoding document.now.text uri.now diagnostic.now) }
{
    put_text(members, alloc, "message", diagnostic.message.as_str())?;
    put_span(members, alloc, encoding, document, diagnostic.span)?;
    put_related(members, alloc, encoding, document, uri, &diagnostic.related)?;
    put_kind(members, alloc, diagnostic.severity)
}

// Puts the code in, where there is one.
fn put_code(
    members: &mut Map<String, Value>,
    alloc: Global,
    code: &Option<String>,
) -> Result<(), AllocError>
    ensures { OnOk result (members_view members.new.entries ≡ with_code (option_map string_bytes code.now) (members_view members.old.entries)) }
{
    match code {
        Some(code) => put_text(members, alloc, "code", code.as_str()),
        None => Ok(()),
    }
}

// Puts in how much it weighs, and who says so.
fn put_kind(
    members: &mut Map<String, Value>,
    alloc: Global,
    severity: Severity,
) -> Result<(), AllocError>
    ensures { OnOk result (members_view members.new.entries ≡ with_member (codes "source") (string (codes "explain"))
        (with_member (codes "severity") (natural (severity_of severity)) (members_view members.old.entries))) }
{
    put(
        members,
        alloc,
        "severity",
        Value::from(severity_number(severity)),
    )?;
    put_text(members, alloc, "source", "explain")
}

fn severity_number(severity: Severity) -> u32
    ensures { result ≡ severity_of severity }
{
    match severity {
        Severity::Error => 1,
        Severity::Warning => 2,
        Severity::Information => 3,
        Severity::Hint => 4,
    }
}

// Puts in what it speaks of beside.
fn put_related(
    members: &mut Map<String, Value>,
    alloc: Global,
    encoding: Encoding,
    document: &Document,
    uri: &str,
    related: &[Related],
) -> Result<(), AllocError>
    ensures { OnOk result (members_view members.new.entries ≡ with_member (codes "relatedInformation")
        (all_related_json encoding document.now.text uri.now related.now) (members_view members.old.entries)) }
{
    let value = all_related_value(alloc, encoding, document, uri, related)?;
    put(members, alloc, "relatedInformation", value)
}

fn all_related_value(
    alloc: Global,
    encoding: Encoding,
    document: &Document,
    uri: &str,
    related: &[Related],
) -> Result<Value, AllocError>
    ensures { IfOk result (λ value. view value ≡ all_related_json encoding document.now.text uri.now related.now) }
{
    let mut items = Vec::new(alloc);
    for one in related {
        push(
            &mut items,
            related_value(alloc, encoding, document, uri, one)?,
        )?;
    }
    Ok(Value::Array(items))
}

fn related_value(
    alloc: Global,
    encoding: Encoding,
    document: &Document,
    uri: &str,
    related: &Related,
) -> Result<Value, AllocError>
    ensures { IfOk result (λ value. view value ≡ related_json encoding document.now.text uri.now related.now) }
{
    let range = span_value(alloc, encoding, document, related.span)?;
    let mut members = Map::new(alloc);
    put(
        &mut members,
        alloc,
        "location",
        location_value(alloc, range, uri)?,
    )?;
    put_text(&mut members, alloc, "message", related.message.as_str())?;
    Ok(Value::Object(members))
}

/// A part of a document.
pub fn location_value(alloc: Global, range: Value, uri: &str) -> Result<Value, AllocError>
    ensures { IfOk result (λ value. view value ≡ location_json (view range) uri.now) }
{
    json!(in alloc; {"range": range, "uri": uri})
}
