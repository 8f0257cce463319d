// Expressions some of whose operands are bound.
ghost use Rattle.std.specs.Prelude.{◌≡◌, option_map};
ghost use Rattle.std.specs.Option.{MatchOption};
ghost use Rattle.raml_syntax.specs.Read.{term_of};
ghost use Rattle.explain_origins.specs.Origins.{Forks, source, origins};
ghost use Rattle.explain_origins.specs.Cursors.{own};
ghost use Rattle.explain_origins.specs.ReadCursors.{origins_of};
ghost use Rattle.explain_origins.specs.Paths.{in_turn};

use crate::parts::{bare, is_plain, operand_at, operand_count, part};
use crate::turn::Turn;
use raml_syntax::Expr;

/// What is left of an expression whose first operands are bound. Contracts see the origins of what is left.
#[derive(Clone, Copy)]
pub(crate) struct Cursor<'p> {
    pub(crate) expr: &'p Expr,
    pub(crate) bound: usize,
}

impl<'p> Cursor<'p> {
    /// Before the first operand of an expression.
    #[tactic(auto, using(crate::proofs::Operands::left_all))]
    pub(crate) fn of(expr: &'p Expr) -> Cursor<'p>
        ensures { origins_of result ≡ origins (term_of expr.now) }
    {
        Cursor {
            expr: bare(expr),
            bound: 0,
        }
    }

    #[tactic(auto, using(crate::proofs::Operands::passed, crate::proofs::Operands::binds, crate::proofs::Operands::none_left))]
    /// The next operand that a `let` binds, and what is left behind it.
    fn operand(self) -> Option<(&'p Expr, Cursor<'p>)>
        ensures { MatchOption result
            (origins_of self.entry ≡ own (term_of self.entry.expr.now))
            (λ found. origins_of self.entry ≡ Forks (term_of found.0.now) (origins (term_of found.0.now)) (origins_of found.1)) }
    {
        for place in self.bound..operand_count(self.expr) {
            let operand = operand_at(self.expr, place)?;
            if !is_plain(operand) {
                let rest = Cursor {
                    expr: self.expr,
                    bound: place + 1,
                };
                return Some((operand, rest));
            }
        }
        None
    }

    /// The expression for which the outermost form stands.
    pub(crate) fn source(self) -> &'p Expr
        ensures { term_of result.now ≡ source (origins_of self.entry) }
    {
        match self.operand() {
            Some((operand, _)) => operand,
            None => self.expr,
        }
    }

    /// The origins of the form to which a turn leads.
    pub(crate) fn turned(self, turn: Turn) -> Option<Cursor<'p>>
        ensures { option_map origins_of result ≡ in_turn turn (origins_of self.entry) }
    {
        match self.operand() {
            Some((operand, rest)) => match turn {
                Turn::Only => None,
                Turn::First => Some(Cursor::of(operand)),
                Turn::Second => Some(rest),
            },
            None => match part(self.expr, turn) {
                Some(part) => Some(Cursor::of(part)),
                None => None,
            },
        }
    }
}
