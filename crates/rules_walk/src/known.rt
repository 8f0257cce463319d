// What a walk knows beside its plan.
ghost use Rattle.std.specs.Prelude.{◌≡◌, map};
ghost use Rattle.rules_walk.specs.Read.{sides_of, sides_at};

/// The entries of a signature.
#[derive(Drop)]
pub struct Sides<T> {
    pub args: Vec<T>,
    pub result: Vec<T>,
}

/// The numbers of a signature of an earlier block, at its budget.
#[derive(Drop)]
pub struct Signature {
    pub budget: usize,
    pub args: Vec<u128>,
    pub result: Vec<u128>,
}

/// The signature of a function.
#[derive(Drop)]
pub struct Signed {
    pub function: usize,
    pub signature: Signature,
}

/// What a walk knows: the scale of the prices, the present block's budget, the signatures of its group
/// in order, those of each earlier block without cost, and with each meter those of all functions.
#[derive(Drop)]
pub struct Known<'a, T> {
    pub scale: u128,
    pub budget: usize,
    pub group: &'a [Sides<T>],
    pub free: &'a [Vec<Signed>],
    pub ticks: &'a [Option<Signature>],
    pub cells: &'a [Option<Signature>],
    pub work: &'a [Option<Signature>],
}

/// The entries of the arguments of the signature at a place; none where there is no such place.
pub fn args_at<T>(group: &[Sides<T>], place: usize) -> &[T]
    ensures { result.now ≡ (sides_at (map sides_of group.now) place).args }
{
    match group.get(place) {
        Some(sides) => &sides.args,
        None => &[],
    }
}

/// The entries of its result.
pub fn result_at<T>(group: &[Sides<T>], place: usize) -> &[T]
    ensures { result.now ≡ (sides_at (map sides_of group.now) place).result }
{
    match group.get(place) {
        Some(sides) => &sides.result,
        None => &[],
    }
}
