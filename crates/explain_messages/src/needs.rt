// What may come at a place of a program, found from the tokens before it.
use crate::need::{FUNCTION, Need, begins_form};
use crate::word::{Word, Words};
use std::alloc::{AllocError, Global};

/// What may come in a program, the next need last. It reads as the parser does, but lets comparisons
/// chain.
#[derive(Drop)]
pub struct Needs {
    stack: Vec<Need>,
}

impl Needs {
    // What may come in a program that is still to begin.
    fn new(alloc: Global) -> Result<Needs, AllocError> {
        let mut needs = Needs {
            stack: Vec::new(alloc),
        };
        needs.push_all(&FUNCTION)?;
        needs.stack.push(Need::Fun)?;
        Ok(needs)
    }

    /// What may come behind the first of the words, so many, or behind those of them that begin a program.
    pub fn behind(alloc: Global, words: &Words, count: usize) -> Result<Needs, AllocError> {
        let mut needs = Needs::new(alloc)?;
        for index in 0..count {
            if !needs.take(words.get(index))? {
                break;
            }
        }
        Ok(needs)
    }

    // These come next, in their order.
    fn push_all(&mut self, rest: &[Need]) -> Result<(), AllocError> {
        for need in rest.iter().rev() {
            self.stack.push(*need)?;
        }
        Ok(())
    }

    // Goes behind the token, and tells whether it may come. Where it may not, what may come is lost.
    fn take(&mut self, word: Word) -> Result<bool, AllocError> {
        while let Some(need) = self.stack.pop() {
            if let Some(rest) = need.behind(word) {
                if need == Need::Expression && !begins_form(word) {
                    self.stack.push(Need::MoreExpression)?;
                }
                self.push_all(rest)?;
                return Ok(true);
            }
            if !need.is_optional() {
                return Ok(false);
            }
        }
        Ok(false)
    }

    /// The next need that something must meet; `None` where the program may end.
    pub fn due(&self) -> Option<Need> {
        self.stack
            .iter()
            .rev()
            .copied()
            .find(|need| !need.is_optional())
    }

    /// Whether an operand has just ended, from which the expression may go on.
    pub fn behind_operand(&self) -> bool {
        self.stack.last().is_some_and(|need| need.continues())
    }
}
