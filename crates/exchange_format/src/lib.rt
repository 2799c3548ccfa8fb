// Matrix Market array files, integer and general: what a text means, why it is refused, and how a block is written, with the theorems
// on these. Of code there is only what a refusal says: reading and writing stand in `exchange`.
#![tactic(auto)]

use common::Refusal;
use std::error::Error;
use std::fmt;

// Why a text or a block is refused, and in which of its lines. Lines count from 1; a refusal of the lent memory has line 0.
#[derive(Clone, Copy, Debug, PartialEq, Eq)]
pub struct Fault {
    pub refusal: Refusal,
    pub line: usize,
}

impl fmt::Display for Fault {
    fn fmt<W: fmt::Write>(&self, f: &mut fmt::Formatter<W>) -> fmt::Result {
        write!(f, "line {}: {}", self.line, self.refusal)
    }
}

impl Error for Fault {}
