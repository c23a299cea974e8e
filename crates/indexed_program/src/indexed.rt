ghost use Rattle.std.specs.Prelude.{◌≡◌, IfOk, IsSome};
ghost use Rattle.std.specs.Option.{option_copied, option_map};
ghost use Rattle.sym_expr.specs.Points.{after, data_at, reached, stretch_of, word_at};
ghost use Rattle.sym_expr.specs.Symbolic.{dist};
ghost use Rattle.sym_expr.specs.WellMade.{well_made};

use crate::building::index_program;
use crate::looking::{after_of, data_of, interval_of, point_offset, reached_of, word_of};
use crate::spot::Indexes;
use std::alloc::{AllocError, Global};
use std::marker::Model;
use sym_expr::{DataBlock, Point, Program, Word};
use uuid::Uuid;

/// A program whose blocks are found without a search. Contracts see it as the program.
#[derive(Drop)]
pub struct IndexedProgram {
    program: Program,
    indexes: Indexes,
}

impl Model for IndexedProgram {
    ghost use Rattle.sym_expr.specs.declared.program.Program.{Program};

    ghost Value = { Program };

    ghost use Rattle.indexed_program.specs.Kept.{IsIndexed};

    ghost view = { λ x. x.program };

    ghost invariant = { λ x. IsIndexed x.program x.indexes };
}

impl IndexedProgram {
    /// Indexes a program, in time linear in it but for the sorting of inserted words.
    pub fn new(alloc: Global, program: Program) -> Result<IndexedProgram, AllocError>
        requires { well_made program }
        ensures { IfOk result (λ x. x ≡ program) }
    {
        let indexes = index_program(alloc, &program)?;
        Ok(IndexedProgram { program, indexes })
    }

    /// The program itself.
    pub fn program(&self) -> &Program
        ensures program { result.now ≡ self.now }
        ensures well { well_made self.now }
    {
        &self.program
    }

    /// Where a point goes on while it has no word.
    pub fn reached(&self, at: Point) -> Point
        ensures { result ≡ reached self.now at }
    {
        reached_of(&self.program, &self.indexes, at)
    }

    /// The word at a point.
    pub fn word(&self, at: Point) -> Option<Word>
        ensures { result ≡ word_at self.now at }
    {
        word_of(&self.program, &self.indexes, at)
    }

    /// The point after the word at a point.
    pub fn after(&self, at: Point) -> Point
        requires { IsSome (word_at self.now at) }
        ensures { result ≡ after self.now at }
    {
        after_of(&self.program, &self.indexes, at)
    }

    /// How far the first of two points is behind the second, each in its interval once words are
    /// inserted.
    pub fn distance(&self, first: Point, second: Point) -> i128
        ensures { result ≡ dist self.now first second }
    {
        let first = point_offset(&self.program, &self.indexes, first);
        let second = point_offset(&self.program, &self.indexes, second);
        first as i128 - second as i128
    }

    /// A data block.
    pub fn data_block(&self, id: Uuid) -> Option<&DataBlock>
        ensures { option_copied result ≡ data_at self.now id }
    {
        data_of(&self.program, &self.indexes, id)
    }

    /// The interval of a code block.
    pub fn interval_of(&self, block: Uuid) -> Option<Uuid>
        ensures { result ≡ option_map (λ s. s.id) (stretch_of self.now block) }
    {
        interval_of(&self.program, &self.indexes, block)
    }
}
