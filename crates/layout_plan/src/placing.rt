//! Where pieces lie one behind the other.

ghost use Rattle.std.specs.Prelude.{◌≡◌, ◌<◌, ◌≤◌, ◌+◌, ◌*◌, ◌^◌};
ghost use Rattle.sym_expr.specs.Layouts.{least_from};
ghost use Rattle.sym_expr.specs.Placing.{needed, new_size, step_of};
ghost use Rattle.sym_expr.specs.Shapes.{IsAlignment};
ghost use Rattle.sym_expr.specs.Tables.{common_power, effective};

use sym_expr::Piece;

/// The least number from n on that leaves the remainder r modulo m.
pub fn least_from(n: u64, m: u64, r: u64) -> u64
    requires small { n + 2 * m < 2 ^ 64 }
    requires remainder { r < m }
    ensures least { result ≡ least_from n m r }
    ensures near { result < n + m }
{
    n + (r + (m - n % m)) % m
}

/// The greatest power of two, up to this one, that divides both numbers.
fn common_power(most: u32, a: u64, b: u64) -> u64
    requires { most ≤ 12 }
    ensures { result ≡ common_power most a b }
{
    if most == 0 {
        return 1;
    }
    let power = 1u64 << most;
    if a % power == 0 && b % power == 0 {
        power
    } else {
        common_power(most - 1, a, b)
    }
}

/// The alignment that data of a size keeps at an offset.
fn effective(entry: Option<u64>, size: u64, offset: u64) -> u64
    ensures value { result ≡ effective entry size offset }
    ensures alignment { IsAlignment result }
{
    match entry {
        Some(entry) if size > 0 && entry > 0 => common_power(12, entry, offset),
        _ => 1,
    }
}

/// What the offset of a piece is a multiple of.
fn step_of(piece: &Piece) -> u64
    ensures value { result ≡ step_of piece.now }
    ensures alignment { IsAlignment result }
{
    match piece {
        Piece::Data(block) => effective(block.alignment, block.bytes.len() as u64, block.offset),
        Piece::Code(_) | Piece::Gap(_) => 1,
    }
}

/// The alignment that a piece at an offset needs of its interval.
pub fn needed(at: u64, piece: &Piece) -> u64
    ensures value { result ≡ needed (record { at = at; piece = piece.now }) }
    ensures alignment { IsAlignment result }
{
    match piece {
        Piece::Code(_) => 4,
        Piece::Data(block) => effective(block.alignment, block.bytes.len() as u64, at),
        Piece::Gap(_) => 1,
    }
}

/// The offset of a piece behind what ends at an offset. Between the two there is padding.
pub fn placed_at(at: u64, piece: &Piece) -> u64
    requires { at < 2 ^ 63 }
    ensures place { result ≡ least_from at (step_of piece.now) 0 }
    ensures near { result < at + 4096 }
{
    least_from(at, step_of(piece), 0)
}

/// The bytes of a piece, with those of the words that are inserted in it.
pub fn new_size(piece: &Piece) -> u64
    requires { new_size piece.now < 2 ^ 64 }
    ensures { result ≡ new_size piece.now }
{
    match piece {
        Piece::Code(block) => 4 * (block.own.len() as u64 + block.inserted.len() as u64),
        Piece::Data(block) => block.bytes.len() as u64,
        Piece::Gap(bytes) => bytes.len() as u64,
    }
}
