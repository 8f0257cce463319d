// Sizes in words.
ghost use Rattle.std.specs.Prelude.{◌≡◌, ◌≤◌, ◌+◌, IfOk, IfSome};
ghost use Rattle.explain_plot.specs.Sizes.{sizes_in, sizes_on, longer, with_size, after, all_in};

use std::alloc::{AllocError, Global};

/// The greatest size.
const MOST: u32 = 100_000;

/// The ascending sizes that a text spells, as `1,2,4,8`.
pub(crate) fn read_sizes(alloc: Global, text: &str) -> Result<Option<Vec<u32>>, AllocError>
    ensures { IfOk result (λ sizes. all_in sizes ≡ sizes_in text.now) }
{
    let mut sizes = Vec::new(alloc);
    if read_on(&mut sizes, 0, None, text.as_bytes())? {
        Ok(Some(sizes))
    } else {
        Ok(None)
    }
}

/// Appends the sizes with which a text goes on, and tells whether it spells them: each is at least `least`, and `begun` is
/// what stands of the first before the text.
fn read_on(
    sizes: &mut Vec<u32>,
    least: u32,
    begun: Option<u32>,
    text: &[u8],
) -> Result<bool, AllocError>
    requires least { least ≤ 100001 }
    requires begun { IfSome begun (λ n. n ≤ 100000) }
    ensures { IfOk result (λ ok. after ok sizes.new.items ≡ sizes_on sizes.old.items least begun text.now) }
{
    match text {
        [] => push_size(sizes, least, begun),
        [first, rest @ ..] => {
            if *first == b',' {
                if !push_size(sizes, least, begun)? {
                    return Ok(false);
                }
                return read_on(sizes, begun.unwrap_or(0) + 1, None, rest);
            }
            match longer(begun, *first) {
                Some(number) => read_on(sizes, least, Some(number), rest),
                None => Ok(false),
            }
        }
    }
}

/// Appends a size, where there is one that is great enough, and tells whether there is.
fn push_size(sizes: &mut Vec<u32>, least: u32, size: Option<u32>) -> Result<bool, AllocError>
    ensures { IfOk result (λ ok. after ok sizes.new.items ≡ with_size sizes.old.items least size) }
{
    match size {
        Some(size) => {
            if size < least {
                return Ok(false);
            }
            sizes.push(size)?;
            Ok(true)
        }
        None => Ok(false),
    }
}

/// The number with one digit more, where it is not too great.
fn longer(begun: Option<u32>, digit: u8) -> Option<u32>
    requires begun { IfSome begun (λ n. n ≤ 100000) }
    ensures number { result ≡ longer begun digit }
    ensures most { IfSome result (λ n. n ≤ 100000) }
{
    if !digit.is_ascii_digit() {
        return None;
    }
    let number = begun.unwrap_or(0) * 10 + u32::from(digit - b'0');
    if number > MOST { None } else { Some(number) }
}
