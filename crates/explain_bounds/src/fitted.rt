// What is told behind the bounds of a function.
ghost use Rattle.std.specs.Prelude.{◌≡◌, Ok, true, is_ok, IfOk, IfErr, OnOk};
ghost use Rattle.explain_at.specs.Read.{parameters, IsSizeFault};
ghost use Rattle.explain_bounds.specs.Told.{told};
ghost use Rattle.explain_bounds.specs.Read.{told_of, CanBeFitted};
ghost use Rattle.explain_bounds.specs.Written.{CanBeAsked};

use crate::asked::Asked;
use cost_free::Meter;
use explain_at::{Given, SizeFault, sizes_at, sizes_within};
use explain_sizes::{OpenSize, Size};
use raml_syntax::Param;
use std::alloc::Global;

/// What is asked, with the sizes of a function's parameters.
#[derive(Debug, Drop)]
pub(crate) enum Fitted<'a> {
    /// Nothing.
    Nothing,
    /// The value at these sizes, which were given so.
    At {
        given: &'a [Given<'a>],
        sizes: Vec<Size>,
    },
    /// Of a meter, up to which number in the open place the bound is at most `most`.
    Within {
        meter: Meter,
        most: u128,
        given: &'a [Given<'a>],
        sizes: Vec<OpenSize>,
    },
}

/// Whether the sizes that are asked for are those of these parameters.
pub fn check_sizes<'a>(
    alloc: Global,
    asked: &Asked<'a>,
    params: &[Param],
) -> Result<(), SizeFault<'a>>
    requires { CanBeAsked asked.now }
    ensures fits { OnOk result (is_ok (told asked.now (parameters params.now)) ≡ true) }
    ensures fault { IfErr result (IsSizeFault (told asked.now (parameters params.now))) }
{
    let _fitted = fit(alloc, asked, params)?;
    Ok(())
}

/// What is asked, of a function with these parameters.
pub(crate) fn fit<'a>(
    alloc: Global,
    asked: &Asked<'a>,
    params: &[Param],
) -> Result<Fitted<'a>, SizeFault<'a>>
    requires { CanBeAsked asked.now }
    ensures told { IfOk result (λ fitted. told asked.now (parameters params.now) ≡ Ok (told_of fitted)) }
    ensures most { IfOk result CanBeFitted }
    ensures fault { IfErr result (IsSizeFault (told asked.now (parameters params.now))) }
{
    match *asked {
        Asked::Nothing => Ok(Fitted::Nothing),
        Asked::At { given } => {
            let sizes = sizes_at(alloc, given, params)?;
            Ok(Fitted::At { given, sizes })
        }
        Asked::Within { meter, most, given } => {
            let sizes = sizes_within(alloc, given, params)?;
            Ok(Fitted::Within {
                meter,
                most,
                given,
                sizes,
            })
        }
    }
}
