// Elements of a list that are integers or truths, one after the other.
ghost use Rattle.std.specs.Prelude.{◌≡◌, ℕ, List, [], OnOk, IfOk, IfSome};
ghost use Rattle.raml_syntax.specs.Read.{ty_of};
ghost use Rattle.value_text.specs.Held.{Held};
ghost use Rattle.value_text.specs.Tokens.{token_of};
ghost use Rattle.value_text.specs.State.{values_in, AllBelow, scalar_word, IsItem, AreItems};

use crate::sign::Sign;
use crate::token::{Token, next};
use crate::word::Word;
use raml_syntax::Ty;
use std::alloc::AllocError;

// The word of an integer or a truth of the type.
fn scalar(ty: &Ty, token: Token) -> Option<Word>
    ensures { result ≡ scalar_word (ty_of ty.now) (token_of token) }
{
    match ty {
        Ty::Int => match token {
            Token::Number(number) => Some(Word::Int(number)),
            _ => None,
        },
        Ty::Bool => match token {
            Token::Truth(truth) => Some(Word::Bool(truth)),
            _ => None,
        },
        Ty::Pair(..) | Ty::List(_) | Ty::Tree(_) | Ty::Opt(_) => None,
    }
}

// The integer or truth of the type behind a comma, and the text behind it.
fn next_item<'a>(text: &'a [u8], ty: &Ty) -> Option<(Word, &'a [u8])>
    ensures { IfSome result (λ item. IsItem (ty_of ty.now) text.now item.0 item.1.now) }
{
    let (comma, _, rest) = next(text)?;
    if !comma.is_sign(Sign::Comma) {
        return None;
    }
    let (token, _, behind) = next(rest)?;
    Some((scalar(ty, token)?, behind))
}

/// Puts down the integers or truths of the type that stand behind commas, up to what is none. Answers
/// how many there are, and the text behind them.
pub fn take_items<'a>(
    words: &mut Vec<Word>,
    ty: &Ty,
    text: &'a [u8],
) -> Result<(usize, &'a [u8]), AllocError>
    ensures items { IfOk result (λ taken. (hs : List Held) →
        AreItems (ty_of ty.now) taken.0 (values_in hs words.old.items []) text.now (values_in hs words.new.items []) taken.1.now) }
    ensures none { IfOk result (λ taken. taken.0 ≡ 0 → (words.new.items ≡ words.old.items) × (taken.1.now ≡ text.now)) }
    ensures below { OnOk result ((n : ℕ) → AllBelow n words.old.items → AllBelow n words.new.items) }
{
    let mut count = 0;
    let mut rest = text;
    while let Some((word, behind)) = next_item(rest, ty) {
        words.push(word)?;
        count += 1;
        rest = behind;
    }
    Ok((count, rest))
}
