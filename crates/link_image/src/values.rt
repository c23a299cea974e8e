//! Targets as numbers.

ghost use Rattle.std.specs.Prelude.{◌≡◌, ◌^◌, pos, negsuc, ◌<ℤ◌, ◌-◌, unwrap_or};
ghost use Rattle.sym_expr.specs.Images.{block_address, distance, filled_word, filling_value, point_address, target_value};
ghost use Rattle.sym_expr.specs.Layouts.{address_of};
ghost use Rattle.sym_expr.specs.WellMade.{IsFilling, IsPoint, IsThere, IsWord};
ghost use Rattle.link_image.specs.Ready.{IsReady};

use crate::linker::Linker;
use sym_expr::{Filling, FitFault, Point, Target, Word, diff_fit, fit, operand_kind};
use uuid::Uuid;

impl Linker<'_> {
    pub fn interval_address(&self, id: &Uuid) -> u64
        requires { IsReady self.now }
        ensures { result ≡ address_of self.now.layout.now id.now }
    {
        self.places.get(id).copied().unwrap_or(0)
    }

    fn block_address(&self, id: &Uuid) -> u64
        requires { IsReady self.now }
        ensures { result ≡ unwrap_or (block_address self.now.layout.now self.now.program.now id.now) 0 }
    {
        match self.blocks.get(id) {
            Some(block) => block.at,
            None => 0,
        }
    }

    pub fn point_address(&self, point: &Point) -> u64
        requires ready { IsReady self.now }
        requires point { IsPoint self.now.program.now point.now }
        ensures { result ≡ point_address self.now.layout.now self.now.program.now point.now }
    {
        let block = self.blocks.get(&point.block).unwrap();
        block.at + (point.offset + (4 * block.inserted_below(point.offset) + 4 * point.j))
    }

    fn target_value(&self, target: &Target) -> u64
        requires ready { IsReady self.now }
        requires there { IsThere self.now.program.now target.now }
        ensures { result ≡ target_value self.now.layout.now self.now.program.now target.now }
    {
        match target {
            Target::Number(n) => *n,
            Target::Address(block, offset) => self.block_address(block).wrapping_add(*offset),
            Target::Code(point) => self.point_address(point),
            Target::Undefined(_) => 0,
        }
    }

    fn distance(&self, p: &Target, q: &Target) -> i128
        requires ready { IsReady self.now }
        requires first { IsThere self.now.program.now p.now }
        requires second { IsThere self.now.program.now q.now }
        ensures distance { result ≡ distance self.now.layout.now self.now.program.now p.now q.now }
        ensures least { negsuc (2 ^ 65 - 1) <ℤ result }
        ensures most { result <ℤ pos (2 ^ 65) }
    {
        i128::from(self.target_value(p)) - i128::from(self.target_value(q))
    }

    /// The word at an address with the operand that its target gives it.
    pub fn filled_word(&self, at: u64, word: &Word) -> Result<u32, FitFault>
        requires ready { IsReady self.now }
        requires word { IsWord self.now.program.now word.now }
        ensures { result ≡ filled_word self.now.layout.now self.now.program.now at word.now }
    {
        let Some(target) = &word.target else {
            return Ok(word.word);
        };
        match operand_kind(word.word) {
            Some(kind) => fit(kind, at, self.target_value(target), word.word),
            None => Ok(word.word),
        }
    }

    /// The number that stands in data for an expression.
    pub fn filling_value(&self, filling: &Filling) -> Result<u64, FitFault>
        requires ready { IsReady self.now }
        requires filling { IsFilling self.now.program.now filling.now }
        ensures { result ≡ filling_value self.now.layout.now self.now.program.now filling.now }
    {
        match filling {
            Filling::Pointer(target) => Ok(self.target_value(target)),
            Filling::Difference(size, p, q) => diff_fit(*size, 1, self.distance(p, q)),
            Filling::Entry(size, scale, p, q) => diff_fit(*size, *scale, self.distance(p, q)),
        }
    }
}
