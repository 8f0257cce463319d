// A joined target.
ghost use Rattle.std.specs.Prelude.{◌≡◌, ◌<◌, length};
ghost use Rattle.base_poly.specs.Plain.{deg};
ghost use Rattle.base_poly.specs.Read.{index_of};

use base_poly::Index;
use raml_syntax::Ty;

/// The type, a list index, its degree, and the places of the components that it is cut over.
#[derive(Drop)]
pub struct Joined<'a> {
    pub ty: &'a Ty,
    pub list: Index,
    pub degree: u32,
    pub places: Vec<usize>,
    pub ghost is_degree: { degree ≡ deg (index_of list) },
    pub ghost some: { 0 < length places.items },
}
