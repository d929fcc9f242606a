// Pieces.
ghost use Rattle.model.specs.Calls.{piece, took_piece};
ghost use Rattle.study.specs.Runs.{Called};

use crate::Study;
use crate::into::{Answer, feed_into};

// A piece is read: the study after it, with the number and the place of the answer, which the contract of `piece` speaks of.
#[derive(Clone, Copy)]
pub struct Taken {
    pub study: Study,
    pub number: u8,
    pub place: u64,
}

impl Study {
    // Reads a piece. The arrays are copied once, and lent.
    pub fn piece(self, bytes: &[u8]) -> Taken
        ensures { Called self (piece bytes.now) (took_piece result.number result.place) result.study }
    {
        let core = self.core;
        let mut pending = self.pending;
        let mut tables = self.tables;
        let fed = feed_into(core, bytes, &mut pending, &mut tables);
        let after = fed.core;
        Taken {
            study: Study {
                core: after,
                pending,
                tables,
            },
            number: fed.answer.number,
            place: fed.answer.place,
        }
    }

    // The same of a study that is lent: no array is copied.
    pub fn feed(&mut self, bytes: &[u8]) -> Answer
        ensures { Called self.old (piece bytes.now) (took_piece result.number result.place) self.new }
    {
        let fed = feed_into(self.core, bytes, &mut self.pending, &mut self.tables);
        self.core = fed.core;
        fed.answer
    }
}
