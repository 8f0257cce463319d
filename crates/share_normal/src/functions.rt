// The normal forms of functions.
ghost use Rattle.std.specs.Prelude.{◌≡◌, ◌+◌, IfOk, OnOk, length, map};
ghost use Rattle.std.specs.List.{All};
ghost use Rattle.raml_syntax.specs.Tree.{Function};
ghost use Rattle.raml_syntax.specs.Node.{AllNodes, NumberFits};
ghost use Rattle.raml_syntax.specs.Read.{ty_of, term_of, parameter_of, function_of, program_of};
ghost use Rattle.normal_spec.specs.One as one;
ghost use Rattle.normal_spec.specs.Two as two;
ghost use Rattle.normal_spec.specs.Read.{parameters_of};
ghost use Rattle.share_normal.specs.Parts.{parts_in, normal_parts, result_of};

use crate::slots::Slot;
use crate::taken::Sharing;
use normal_operands::{Maker, name_operands};
use normal_spec::NormFun;
use raml_syntax::{Fun, FunctionNames, Param, Ty};
use std::alloc::{AllocError, Global};

impl Sharing {
    /// Parameters as new variables.
    fn bind_params(&mut self, params: &[Param]) -> Result<Vec<(u32, Ty)>, AllocError>
        ensures params { IfOk result (λ made. parameters_of made.items ≡ one.numbered (map parameter_of params.now) self.old.next) }
        ensures next { OnOk result (self.new.next ≡ length (map parameter_of params.now) + self.old.next) }
    {
        let mut made = Vec::new(self.alloc);
        for param in params {
            let variable = self.fresh()?;
            made.push((variable, param.ty.copy(self.alloc)?))?;
        }
        Ok(made)
    }
}

/// The slots of parameters, each of which stands for itself.
fn own_slots(alloc: Global, params: &[(u32, Ty)]) -> Result<Vec<Slot>, AllocError>
    ensures { IfOk result (λ slots. slots.items ≡ two.own (parameters_of params.now)) }
{
    let mut slots = Vec::new(alloc);
    for param in params {
        slots.push(Slot {
            variable: param.0,
            copy: param.0,
        })?;
    }
    Ok(slots)
}

/// The normal form of a function.
fn normal_function<'a>(
    alloc: Global,
    maker: &mut Maker,
    names: &FunctionNames<'a>,
    fun: &'a Fun,
) -> Result<NormFun, AllocError>
    ensures parts { IfOk result (λ made. parts_in made ≡ normal_parts (program_of names.now.program.now) (function_of fun.now)) }
    ensures numbers { OnOk result (AllNodes NumberFits (term_of fun.now.body)) }
{
    let mut sharing = Sharing { alloc, next: 1 };
    let params = sharing.bind_params(&fun.params)?;
    let slots = own_slots(alloc, &params)?;
    let named = name_operands(maker, names, fun)?;
    let body = sharing.share_body(&named, &slots)?;
    Ok(NormFun { params, body })
}

/// The normal forms of functions in order.
pub fn normal_functions<'a>(
    alloc: Global,
    names: &FunctionNames<'a>,
    funs: &'a [Fun],
) -> Result<Vec<NormFun>, AllocError>
    ensures parts { IfOk result (λ made. map parts_in made.items ≡
        map (normal_parts (program_of names.now.program.now)) (map function_of funs.now)) }
    ensures numbers { OnOk result (All (λ (g : Function). AllNodes NumberFits g.body) (map function_of funs.now)) }
{
    let mut maker = Maker::new(alloc);
    let mut made = Vec::new(alloc);
    for fun in funs {
        made.push(normal_function(alloc, &mut maker, names, fun)?)?;
    }
    Ok(made)
}

/// The types of the functions' results in order.
pub fn results_of(alloc: Global, funs: &[Fun]) -> Result<Vec<Ty>, AllocError>
    ensures { IfOk result (λ results. map ty_of results.items ≡ map result_of (map function_of funs.now)) }
{
    let mut results = Vec::new(alloc);
    for fun in funs {
        results.push(fun.result.copy(alloc)?)?;
    }
    Ok(results)
}
