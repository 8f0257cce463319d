// Names of sizes.
ghost use Rattle.std.specs.Prelude.{◌≡◌, ◌++◌, IfOk, OnOk};
ghost use Rattle.raml_syntax.specs.Read.{ty_of};
ghost use Rattle.explain_at.specs.Asked.{names_of, all_names};
ghost use Rattle.explain_at.specs.Read.{parameters, texts};

use crate::part::part;
use raml_syntax::{Param, Ty};
use std::alloc::{AllocError, Global};

/// The names of all sizes of the parameters. A list or a tree has the size of its own name, and its
/// elements are named with `.each` behind it; the parts of a pair are named with `.first` and
/// `.second`, and what an option holds with `.some`.
pub fn size_names(alloc: Global, params: &[Param]) -> Result<Vec<String>, AllocError>
    ensures { IfOk result (λ names. texts names.items ≡ all_names (parameters params.now)) }
{
    let mut names = Vec::new(alloc);
    for param in params {
        append_names(alloc, &mut names, param.name.text(), &param.ty)?;
    }
    Ok(names)
}

// Appends the names of the sizes that a value of the type has by this name.
fn append_names(
    alloc: Global,
    names: &mut Vec<String>,
    name: &str,
    ty: &Ty,
) -> Result<(), AllocError>
    ensures { OnOk result (texts names.new.items ≡ texts names.old.items ++ names_of name.now (ty_of ty.now)) }
{
    match ty {
        Ty::Int | Ty::Bool => Ok(()),
        Ty::Pair(first, second) => {
            append_names(alloc, names, &part(alloc, name, ".first")?, first)?;
            append_names(alloc, names, &part(alloc, name, ".second")?, second)
        }
        Ty::List(element) | Ty::Tree(element) => {
            names.push(String::from_str(alloc, name)?)?;
            append_names(alloc, names, &part(alloc, name, ".each")?, element)
        }
        Ty::Opt(content) => append_names(alloc, names, &part(alloc, name, ".some")?, content),
    }
}
