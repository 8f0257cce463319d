// The sizes of parameters.
ghost use Rattle.std.specs.Prelude.{◌≡◌, None, Ok, IfOk, IfErr, OnOk, string_bytes};
ghost use Rattle.std.specs.List.{list_any};
ghost use Rattle.std.specs.Str.{bytes_eq};
ghost use Rattle.raml_syntax.specs.Read.{ty_of};
ghost use Rattle.explain_sizes.specs.Read.{open_of, all_open};
ghost use Rattle.explain_sizes.specs.Read as sizes;
ghost use Rattle.explain_at.specs.Asked.{sizes_of, all_sizes, all_names, missing, unknown, asked, asked_open};
ghost use Rattle.explain_at.specs.Read.{all_given, parameters, texts, AreFilled, IsUnknown, IsSizeFault};

use crate::fault::SizeFault;
use crate::given::{Given, number_for};
use crate::named::size_names;
use crate::part::part;
use explain_sizes::{OpenSize, Size, fill_all};
use raml_syntax::{Param, Ty};
use std::alloc::{AllocError, Global};

/// The sizes of the parameters, all of which are given.
pub fn sizes_at<'a>(
    alloc: Global,
    given: &[Given<'a>],
    params: &[Param],
) -> Result<Vec<Size>, SizeFault<'a>>
    ensures sizes { IfOk result (λ filled. AreFilled (asked (all_given given.now) (parameters params.now)) (sizes.all_sizes filled.items)) }
    ensures fault { IfErr result (IsSizeFault (asked (all_given given.now) (parameters params.now))) }
{
    let names = size_names(alloc, params)?;
    check_names(&names, given)?;
    let missing = missing(alloc, &names, given)?;
    match missing.as_slice() {
        [] => Ok(fill_all(alloc, &open_sizes(alloc, given, params)?, 0)?),
        [name, ..] => Err(SizeFault::NotGiven(copy(alloc, name)?)),
    }
}

/// The sizes of the parameters, all of which are given but one, which is open.
pub fn sizes_within<'a>(
    alloc: Global,
    given: &[Given<'a>],
    params: &[Param],
) -> Result<Vec<OpenSize>, SizeFault<'a>>
    ensures sizes { IfOk result (λ sizes. asked_open (all_given given.now) (parameters params.now) ≡ Ok (all_open sizes.items)) }
    ensures fault { IfErr result (IsSizeFault (asked_open (all_given given.now) (parameters params.now))) }
{
    let names = size_names(alloc, params)?;
    check_names(&names, given)?;
    let missing = missing(alloc, &names, given)?;
    match missing.as_slice() {
        [] => Err(SizeFault::NoneOpen),
        [_name] => Ok(open_sizes(alloc, given, params)?),
        [name, other, ..] => Err(SizeFault::TwoOpen(copy(alloc, name)?, copy(alloc, other)?)),
    }
}

// The sizes of all parameters, open where none is given.
fn open_sizes<'a>(
    alloc: Global,
    given: &[Given<'a>],
    params: &[Param],
) -> Result<Vec<OpenSize>, AllocError>
    ensures { IfOk result (λ sizes. all_open sizes.items ≡ all_sizes (all_given given.now) (parameters params.now)) }
{
    let mut sizes = Vec::new(alloc);
    for param in params {
        let size = named(alloc, given, param.name.text(), &param.ty)?;
        sizes.push(Box::into_inner(size))?;
    }
    Ok(sizes)
}

// The sizes that a value of the type has by this name.
fn named<'a>(
    alloc: Global,
    given: &[Given<'a>],
    name: &str,
    ty: &Ty,
) -> Result<Box<OpenSize>, AllocError>
    ensures { IfOk result (λ size. open_of size.value ≡ sizes_of (all_given given.now) name.now (ty_of ty.now)) }
{
    match ty {
        Ty::Int | Ty::Bool => Ok(Box::new(alloc, OpenSize::Unit)?),
        Ty::Pair(first, second) => {
            let left = named(alloc, given, &part(alloc, name, ".first")?, first)?;
            let right = named(alloc, given, &part(alloc, name, ".second")?, second)?;
            Ok(Box::new(alloc, OpenSize::Pair(left, right))?)
        }
        Ty::List(element) | Ty::Tree(element) => {
            let each = named(alloc, given, &part(alloc, name, ".each")?, element)?;
            Ok(Box::new(alloc, OpenSize::List(number_for(given, name), each))?)
        }
        Ty::Opt(content) => {
            let content = named(alloc, given, &part(alloc, name, ".some")?, content)?;
            Ok(Box::new(alloc, OpenSize::Opt(content))?)
        }
    }
}

// Whether each name that is given is one of these.
fn check_names<'a>(names: &[String], given: &[Given<'a>]) -> Result<(), SizeFault<'a>>
    ensures known { OnOk result (unknown (texts names.now) (all_given given.now) ≡ None) }
    ensures unknown { IfErr result (IsUnknown (unknown (texts names.now) (all_given given.now))) }
{
    for one in given {
        if !is_among(names, one.name) {
            return Err(SizeFault::Unknown(one.name));
        }
    }
    Ok(())
}

fn is_among(names: &[String], name: &str) -> bool
    ensures { result ≡ list_any (bytes_eq name.now) (texts names.now) }
{
    for one in names {
        if name == one.as_str() {
            return true;
        }
    }
    false
}

// Those of the names for which nothing is given.
fn missing<'a>(
    alloc: Global,
    names: &[String],
    given: &[Given<'a>],
) -> Result<Vec<String>, AllocError>
    ensures { IfOk result (λ found. texts found.items ≡ missing (all_given given.now) (texts names.now)) }
{
    let mut found = Vec::new(alloc);
    for name in names {
        if number_for(given, name).is_none() {
            found.push(copy(alloc, name)?)?;
        }
    }
    Ok(found)
}

fn copy(alloc: Global, name: &str) -> Result<String, AllocError>
    ensures { IfOk result (λ copy. string_bytes copy ≡ name.now) }
{
    String::from_str(alloc, name)
}
