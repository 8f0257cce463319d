// Hints, as they are walked.
ghost use Rattle.std.specs.Prelude.{◌≡◌, map};
ghost use Rattle.rules_spec.specs.Walk.{results_of, copies_of, multiples_of, later};
ghost use Rattle.rules_walk.specs.Read.{hints_of};

/// What the rules leave open.
#[derive(Drop)]
pub enum Hint<T> {
    /// Of a `let`, the bound form's result for each tuple.
    Results(Vec<Vec<T>>),
    /// Of a variable that is shared, the context with both copies.
    Copies(Vec<T>),
    /// Of a call, numbers of earlier blocks, and how often the signature of each is taken.
    Multiples(Vec<(u32, T)>),
}

/// The results that the next hint tells; none where it is of another kind.
pub fn results_of<T>(hints: &[Hint<T>]) -> &[Vec<T>]
    ensures { map (λ v. v.items) result.now ≡ results_of (hints_of hints.now) }
{
    match hints {
        [Hint::Results(results), ..] => results,
        _ => &[],
    }
}

/// The copies that the next hint tells.
pub fn copies_of<T>(hints: &[Hint<T>]) -> &[T]
    ensures { result.now ≡ copies_of (hints_of hints.now) }
{
    match hints {
        [Hint::Copies(copies), ..] => copies,
        _ => &[],
    }
}

/// The multiples that the next hint tells.
pub fn multiples_of<T>(hints: &[Hint<T>]) -> &[(u32, T)]
    ensures { result.now ≡ multiples_of (hints_of hints.now) }
{
    match hints {
        [Hint::Multiples(multiples), ..] => multiples,
        _ => &[],
    }
}

/// The hints behind the next one.
pub fn later<T>(hints: &[Hint<T>]) -> &[Hint<T>]
    ensures { hints_of result.now ≡ later (hints_of hints.now) }
{
    match hints {
        [_, rest @ ..] => rest,
        [] => &[],
    }
}
