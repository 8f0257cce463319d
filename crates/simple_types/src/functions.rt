// The functions of a program by their names.
ghost use Rattle.std.specs.Prelude.{◌≡◌, ◌≤◌, IfOk, IfErr, IfSome, IsTrue, Ok, [], length, map, is_some, not};
ghost use Rattle.std.specs.Option.{option_map, option_copied};
ghost use Rattle.std.specs.List.{All};
ghost use Rattle.raml_syntax.specs.Tree.{Text, Function, Parameter};
ghost use Rattle.raml_syntax.specs.Read.{program_of, function_of, parameter_of, ty_of};
ghost use Rattle.simple_types.specs.Table.{numbered_all};
ghost use Rattle.simple_types.specs.Numbered.{signature};

use crate::fault::TypeFault;
use crate::types::{TypeId, Types};
use indexmap::IndexMap;
use raml_syntax::{Fun, Param, Program};
use std::alloc::{AllocError, Global};

/// The types of a function's parameters in order, and of its result.
#[derive(Drop)]
pub struct Signature {
    pub params: Vec<TypeId>,
    pub result: TypeId,
    ghost few: { length params.items ≤ 8 },
}

impl Signature {
    ghost use Rattle.simple_types.specs.Scope.{sig_of};

    /// The signature of a function.
    fn new(alloc: Global, types: &mut Types, fun: &Fun) -> Result<Signature, AllocError>
        requires few { length (function_of fun.now).params ≤ 8 }
        ensures { IfOk result (λ found. (types.new.nodes.keys, sig_of found) ≡ signature types.old.nodes.keys (function_of fun.now)) }
    {
        let params = param_types(alloc, types, &fun.params)?;
        let result = types.intern(&fun.result)?;
        Ok(Signature { params, result })
    }
}

/// The types of parameters.
fn param_types(
    alloc: Global,
    types: &mut Types,
    params: &[Param],
) -> Result<Vec<TypeId>, AllocError>
    ensures ids { IfOk result
        (λ ids. (types.new.nodes.keys, ids.items)
        ≡ numbered_all types.old.nodes.keys [] (map (λ (p : Parameter). p.type) (map parameter_of params.now))) }
    ensures as_many { IfOk result (λ ids. length ids.items ≡ length params.now) }
{
    let mut ids = Vec::new(alloc);
    for param in params {
        ids.push(types.intern(&param.ty)?)?;
    }
    Ok(ids)
}

/// The signatures of a program's functions, which are found by their names.
#[derive(Drop)]
pub struct Functions<'a> {
    pub signatures: IndexMap<&'a str, Signature>,
}

impl<'a> Functions<'a> {
    ghost use Rattle.simple_types.specs.Table.{base};
    ghost use Rattle.simple_types.specs.Numbered.{signed, signatures, no_sigs};
    ghost use Rattle.simple_types.specs.Scope.{sig_of, sigs_of};
    ghost use Rattle.simple_types.specs.Read.{EndsWith};
    ghost use Rattle.simple_types.specs.Walk.{distinct, function_name};

    /// The functions of the program, where all their names differ.
    pub fn new(
        alloc: Global,
        types: &mut Types,
        program: &'a Program,
    ) -> Result<Functions<'a>, TypeFault>
        requires few { All (λ (g : Function). length g.params ≤ 8) (program_of program.now) }
        ensures signed { IfOk result
            (λ functions. (types.new.nodes.keys, sigs_of functions) ≡ signatures types.old.nodes.keys no_sigs (program_of program.now)) }
        ensures differ { IfOk result (λ functions. distinct (map function_name (program_of program.now)) ≡ Ok tt) }
        ensures fault { IfErr result (EndsWith (distinct (map function_name (program_of program.now)))) }
    {
        let mut functions = Functions {
            signatures: IndexMap::new(alloc),
        };
        for fun in &program.funs {
            let signature = Signature::new(alloc, types, fun)?;
            if !functions.add(fun.name.text(), signature)? {
                return Err(TypeFault::Twice { at: fun.at });
            }
        }
        Ok(functions)
    }

    /// Adds a signature, and tells whether its name is new. Otherwise the functions are of no use.
    fn add(&mut self, name: &'a str, signature: Signature) -> Result<bool, AllocError>
        ensures new { IfOk result (λ new. new ≡ not (is_some (sigs_of self.old name.now))) }
        ensures signed { IfOk result
            (λ new. IsTrue new → (f : Text) → sigs_of self.new f ≡ signed (sigs_of self.old) name.now (sig_of signature) f) }
    {
        match self.signatures.insert(name, signature) {
            Ok(None) => Ok(true),
            Ok(Some(_)) => Ok(false),
            Err(_) => Err(AllocError),
        }
    }

    /// The signature of the function of this name.
    pub fn find(&self, name: &str) -> Option<&Signature>
        ensures function { option_map sig_of (option_copied result) ≡ sigs_of self.now name.now }
        ensures few { IfSome result (λ signature. length signature.now.params.items ≤ 8) }
    {
        self.signatures.get(name)
    }
}
