// Sizes that are given by their names.
ghost use Rattle.std.specs.Prelude.{◌≡◌, [], Ok, IfOk, IfErr, OnOk};
ghost use Rattle.explain_at.specs.Words.{given_for, words_of, words_read, with_word, with_read};
ghost use Rattle.explain_at.specs.Read.{given_of, all_given, IsWordFault};

use crate::fault::WordFault;
use crate::part::cut_at;
use crate::word::read_word;
use std::alloc::Global;

/// The number of elements that is given for the size of this name.
#[derive(Clone, Copy, Debug)]
pub struct Given<'a> {
    pub name: &'a str,
    pub number: u64,
}

/// The sizes that a text such as `l=100,l.each=20` gives: names with whole numbers of at most ten
/// digits, each name once.
pub fn read<'a>(alloc: Global, text: &'a str) -> Result<Vec<Given<'a>>, WordFault<'a>>
    ensures given { IfOk result (λ given. words_read (Ok []) (words_of text.now) ≡ Ok (all_given given.items)) }
    ensures fault { IfErr result (IsWordFault (words_read (Ok []) (words_of text.now))) }
{
    let mut given = Vec::new(alloc);
    let mut rest = text;
    while let Some((word, behind)) = cut_at(rest, ',') {
        add(&mut given, word)?;
        rest = behind;
    }
    add(&mut given, rest)?;
    Ok(given)
}

// Adds the size that the word gives, behind others.
fn add<'a>(given: &mut Vec<Given<'a>>, word: &'a str) -> Result<(), WordFault<'a>>
    ensures given { OnOk result (with_word (all_given given.old.items) word.now ≡ Ok (all_given given.new.items)) }
    ensures fault { IfErr result (IsWordFault (with_word (all_given given.old.items) word.now)) }
{
    match read_word(word) {
        Err(fault) => Err(fault),
        Ok(one) => add_read(given, one),
    }
}

// Adds the size, behind others.
fn add_read<'a>(given: &mut Vec<Given<'a>>, one: Given<'a>) -> Result<(), WordFault<'a>>
    ensures given { OnOk result (with_read (all_given given.old.items) (Ok (given_of one.entry)) ≡ Ok (all_given given.new.items)) }
    ensures fault { IfErr result (IsWordFault (with_read (all_given given.old.items) (Ok (given_of one.entry)))) }
{
    if number_for(given, one.name).is_some() {
        return Err(WordFault::Twice(one.name));
    }
    given.push(one)?;
    Ok(())
}

/// The number that is given for the size of this name.
pub fn number_for<'a>(given: &[Given<'a>], name: &str) -> Option<u64>
    ensures { result ≡ given_for name.now (all_given given.now) }
{
    for one in given {
        if one.name == name {
            return Some(one.number);
        }
    }
    None
}
