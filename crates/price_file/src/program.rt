// Programs whose nodes stand behind their prices.
ghost use Rattle.std.specs.Prelude.{◌≡◌, ◌≤◌, ◌*◌, IfOk};
ghost use Rattle.raml_syntax.specs.Read.{program_of};
ghost use Rattle.raml_syntax.specs.Types as types;
ghost use Rattle.raml_syntax.specs.Node.{WithinLimits, program_nodes};
ghost use Rattle.simple_types.specs.Small.{IsSmall};
ghost use Rattle.price_file.specs.Applied.{applied_program};
ghost use Rattle.price_file.specs.Read.{prices_of};
ghost use Rattle.price_file.specs.Laws.{CostsPrices};

use crate::functions::apply_functions;
use crate::node::Maker;
use crate::prices::Prices;
use raml_syntax::Program;
use simple_types::{TypeFault, Typed, check};
use std::alloc::{AllocError, Global};

/// A typed program, once more as such.
fn check_typed(alloc: Global, program: Program) -> Result<Typed, AllocError>
    requires typed { types.Typed (program_of program) }
    requires small { IsSmall (program_of program) }
    ensures { IfOk result (λ made. program_of made ≡ program_of program) }
{
    match check(alloc, program) {
        Ok(made) => Ok(made),
        Err(TypeFault::NoMemory) => Err(AllocError),
        Err(_) => unreachable!(),
    }
}

/// The program in which each node that has a price stands behind it, as `tick PRICE in NODE` at the
/// place of the node: its ticks are what the program costs under the prices. A type annotation is no
/// node.
///
/// # Errors
///
/// Want of memory alone: that the program is typed is proved.
pub fn apply(alloc: Global, typed: &Typed, prices: &Prices) -> Result<Typed, AllocError>
    ensures applied { IfOk result (λ made. program_of made ≡ applied_program (prices_of prices.now) (program_of typed.now)) }
    // so at every limit and on all arguments its runs cost that, also where they are cut
    ensures costs { CostsPrices (prices_of prices.now) (program_of typed.now) }
    ensures limits { IfOk result (λ made. WithinLimits (program_of typed.now) → WithinLimits (program_of made)) }
    ensures nodes { IfOk result (λ made. program_nodes (program_of made) ≤ 2 * program_nodes (program_of typed.now)) }
{
    let maker = Maker { prices, alloc };
    let funs = apply_functions(maker, &typed.program().funs)?;
    check_typed(alloc, Program { funs })
}
