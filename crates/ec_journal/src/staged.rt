// Records that are ready for a journal.
ghost use Rattle.std.specs.Prelude.{◌≡◌, ◌≤◌, List, ℕ, length, IfOk};
ghost use Rattle.ec_journal.specs.RecordBytes.{max_record_bytes, body_in, staged};

use crate::read::{HEAD_BYTES, LENGTH_BYTES};
use ec_base::NoMemory;
use std::alloc::Global;
use std::marker::Model;

// What is written behind a body, a gate that isn't open.
const CLOSED: u8 = 0;

/// The bytes of a record behind its gate. With these at hand an append takes no memory.
#[derive(Drop)]
pub struct Staged {
    piece: Vec<u8>,
}

impl Model for Staged {
    // the body
    ghost Value = { List ℕ };

    ghost view = { λ a. body_in a.piece.items };

    ghost invariant = { λ a. (a.piece.items ≡ staged (body_in a.piece.items)) × (length (body_in a.piece.items) ≤ max_record_bytes) };
}

impl Staged {
    /// The record with this body.
    pub fn of(alloc: Global, body: &[u8]) -> Result<Staged, NoMemory>
        requires { length body.now ≤ max_record_bytes }
        ensures { IfOk result (λ a. a ≡ body.now) }
    {
        let mut piece = Vec::with_capacity(alloc, LENGTH_BYTES + body.len() + 1)?;
        piece.extend_from_slice(&(body.len() as u32).to_be_bytes())?;
        piece.extend_from_slice(body)?;
        piece.push(CLOSED)?;
        Ok(Staged { piece })
    }

    /// The bytes of the body.
    pub fn size(&self) -> usize
        ensures size { result ≡ length self.now }
        ensures small { length self.now ≤ max_record_bytes }
    {
        self.piece.len() - HEAD_BYTES
    }

    /// A length, the body and the closed next gate.
    pub fn piece(&self) -> &[u8]
        ensures { result.now ≡ staged self.now }
    {
        self.piece.as_slice()
    }
}
