// Types that are lent, and their parts.
ghost use Rattle.std.specs.Prelude.{◌≡◌};
ghost use Rattle.normal_spec.specs.One as one;
ghost use Rattle.normal_operands.specs.Types.{lent, wanted};

use raml_syntax::Ty;

/// A type that is lent. Plain ones stand for themselves.
#[derive(Clone, Copy)]
pub enum TyRef<'t> {
    Int,
    Bool,
    Of(&'t Ty),
}

impl<'t> TyRef<'t> {
    /// The first part of a type of pairs; `int` of any other.
    pub fn first_part(self) -> TyRef<'t>
        ensures { lent result ≡ one.first_part (lent self.entry) }
    {
        match self {
            TyRef::Of(ty) => match ty {
                Ty::Pair(first, _) => TyRef::Of(first),
                Ty::Int | Ty::Bool | Ty::List(_) | Ty::Tree(_) | Ty::Opt(_) => TyRef::Int,
            },
            TyRef::Int | TyRef::Bool => TyRef::Int,
        }
    }

    /// The second part of a type of pairs; `int` of any other.
    pub fn second_part(self) -> TyRef<'t>
        ensures { lent result ≡ one.second_part (lent self.entry) }
    {
        match self {
            TyRef::Of(ty) => match ty {
                Ty::Pair(_, second) => TyRef::Of(second),
                Ty::Int | Ty::Bool | Ty::List(_) | Ty::Tree(_) | Ty::Opt(_) => TyRef::Int,
            },
            TyRef::Int | TyRef::Bool => TyRef::Int,
        }
    }

    /// What lists, trees or options of the type hold; `int` of any other.
    pub fn element(self) -> TyRef<'t>
        ensures { lent result ≡ one.element (lent self.entry) }
    {
        match self {
            TyRef::Of(ty) => match ty {
                Ty::List(item) => TyRef::Of(item),
                Ty::Tree(item) => TyRef::Of(item),
                Ty::Opt(item) => TyRef::Of(item),
                Ty::Int | Ty::Bool | Ty::Pair(..) => TyRef::Int,
            },
            TyRef::Int | TyRef::Bool => TyRef::Int,
        }
    }
}

/// The type that is wanted of a first part, if one is wanted of the pair.
pub fn first_of(want: Option<TyRef>) -> Option<TyRef>
    ensures { wanted result ≡ one.part_of one.first_part (wanted want.entry) }
{
    match want {
        Some(ty) => Some(ty.first_part()),
        None => None,
    }
}

/// The type that is wanted of a second part, if one is wanted of the pair.
pub fn second_of(want: Option<TyRef>) -> Option<TyRef>
    ensures { wanted result ≡ one.part_of one.second_part (wanted want.entry) }
{
    match want {
        Some(ty) => Some(ty.second_part()),
        None => None,
    }
}

/// The type that is wanted of what a list, a tree or an option holds, if one is wanted of the whole.
pub fn element_of(want: Option<TyRef>) -> Option<TyRef>
    ensures { wanted result ≡ one.part_of one.element (wanted want.entry) }
{
    match want {
        Some(ty) => Some(ty.element()),
        None => None,
    }
}
