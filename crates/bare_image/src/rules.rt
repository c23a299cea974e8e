ghost use Rattle.std.specs.Prelude.{◌≡◌, ◌≤◌, ◌+◌, ◌^◌, IsTrue};
ghost use Rattle.bare_image.specs.Reading.{is_entry, is_stack_address, is_stack_size, is_count, is_length};

/// The least address of a byte.
pub const LOWEST: u64 = 4096;

/// The end of all addresses, 2 ^ 47.
const HIGHEST: u64 = 140_737_488_355_328;

/// The most segments, and the most bytes of segments and stack together, 2 ^ 24.
const MOST: u64 = 16_777_216;

/// Where the stack lies.
#[derive(Clone, Copy)]
pub struct Stack {
    pub at: u64,
    pub size: u64,
}

pub fn is_entry(n: u64) -> bool
    ensures { result ≡ is_entry n }
{
    n % 4 == 0
}

pub fn is_stack_address(n: u64) -> bool
    ensures { result ≡ is_stack_address n }
{
    n % 16 == 0 && n >= LOWEST
}

pub fn is_stack_size(at: u64, n: u64) -> bool
    ensures test { result ≡ is_stack_size at n }
    ensures high { IsTrue result → at + n ≤ 2 ^ 47 }
    ensures most { IsTrue result → n ≤ 2 ^ 24 }
{
    n % 16 == 0 && n >= 16 && n <= MOST && at <= HIGHEST - n
}

pub fn is_count(n: u64) -> bool
    ensures { result ≡ is_count n }
{
    n <= MOST
}

pub fn is_length(stack: Stack, loaded: u64, at: u64, n: u64) -> bool
    requires stack { stack.at + stack.size ≤ 2 ^ 47 }
    requires loaded { loaded ≤ 2 ^ 24 }
    ensures test { result ≡ is_length stack.at stack.size at loaded n }
    ensures high { IsTrue result → at + n ≤ 2 ^ 47 }
    ensures loaded { IsTrue result → loaded + n ≤ 2 ^ 24 }
{
    n >= 1
        && n <= MOST - loaded
        && at <= HIGHEST - n
        && (at + n <= stack.at || stack.at + stack.size <= at)
}
