ghost use Rattle.std.specs.Prelude.{◌≡◌, nat_lt, slice_index_or, slice_set, if◌then◌else◌};
ghost use Rattle.sym_expr.specs.declared.value.Value.TheVariants.{Num};

use sym_expr::Value;

/// X0 to X30, and SP.
#[derive(Drop)]
pub struct Registers {
    pub general: [Value; 31],
    pub stack_pointer: Value,
}

impl Registers {
    /// A register, where from 31 on it is for true the stack pointer and for false zero.
    pub fn get(&self, stack: bool, r: u8) -> Value
        ensures { result ≡ (if nat_lt r 31 then slice_index_or self.now.general r (Num 0) else (if stack then self.now.stack_pointer else Num 0)) }
    {
        if r < 31 {
            self.general[r as usize]
        } else if stack {
            self.stack_pointer
        } else {
            Value::Num(0)
        }
    }

    /// Keeps a value in a register, as for `get`; zero keeps none.
    pub fn set(&mut self, stack: bool, r: u8, value: Value)
        ensures { self.new ≡ (if nat_lt r 31 then record self.old { general = slice_set self.old.general r value } else (if stack then record self.old { stack_pointer = value } else self.old)) }
    {
        if r < 31 {
            self.general[r as usize] = value;
        } else if stack {
            self.stack_pointer = value;
        }
    }
}
