// What is heard in a session.
use std::alloc::Global;

/// What an editor sent, where that is kept. Where memory does not suffice for a piece, that one is left out, and all behind it.
#[derive(Debug, Drop)]
pub struct Heard {
    kept: Vec<u8>,
    keeps: bool,
}

impl Heard {
    /// Nothing is kept.
    pub fn nothing(alloc: Global) -> Heard {
        Heard {
            kept: Vec::new(alloc),
            keeps: false,
        }
    }

    /// All is kept.
    pub fn all(alloc: Global) -> Heard {
        Heard {
            kept: Vec::new(alloc),
            keeps: true,
        }
    }

    /// What is kept.
    pub fn bytes(&self) -> &[u8] {
        &self.kept
    }

    pub(crate) fn hear(&mut self, piece: &[u8]) {
        if self.keeps {
            self.keeps = self.kept.extend_from_slice(piece).is_ok();
        }
    }
}
