// Where a line may be broken.

/// How many brackets are open, and whether the last word stays with the next one.
#[derive(Clone, Copy)]
pub struct Glue {
    open: usize,
    pub stays: bool,
}

impl Glue {
    /// At the start of a line.
    pub fn new() -> Glue {
        Glue {
            open: 0,
            stays: false,
        }
    }

    /// Behind one word more, which these words follow. A sign stays with what it stands before, an
    /// equation is not broken, nor are words in brackets, which stay with the word behind them. More
    /// than one space is broken at the first.
    pub fn behind(self, word: &str, next: &str) -> Glue {
        let open = open_behind(self.open, word);
        let is_sign = matches!(word.as_bytes(), b"+" | b"-" | b"=");
        let is_equation = next.starts_with("= ");
        Glue {
            open,
            stays: self.open > 0 || open > 0 || is_sign || is_equation || word.is_empty(),
        }
    }
}

// How many brackets are open behind the word.
fn open_behind(open: usize, word: &str) -> usize {
    let mut count = open;
    for byte in word.as_bytes() {
        count = match *byte {
            b'(' => count.saturating_add(1),
            b')' => count.saturating_sub(1),
            _ => count,
        };
    }
    count
}
