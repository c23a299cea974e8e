//! Laws of the definitions that contracts cite: each function is its contract.

ghost use Rattle.std.specs.Prelude.{◌≡◌, ◌⊎◌, All, ℕ, ◌+◌, ◌*◌, ◌^◌, ◌<◌, ◌≤◌, List, [], ◌∷◌, ◌++◌, length, take, Ok, Err};
ghost use Rattle.std.specs.List.{AllByRecursion};
ghost use Rattle.pb_wire.specs.declared.records.Load.TheVariants.{Varint, Run};
ghost use Rattle.pb_wire.specs.declared.records.Record.{Record};
ghost use Rattle.pb_wire.specs.declared.fault.WireFault.{WireFault};
ghost use Rattle.pb_wire.specs.declared.fault.WireReason.{WireReason};
ghost use Rattle.pb_wire.specs.Varint.{IsVarint, shortest};
ghost use Rattle.pb_wire.specs.Records.{records, Spells};
ghost use Rattle.pb_wire.specs.Faults.{wire_fault, Fails, VarintFails};
ghost use Rattle.pb_wire.specs.Reading.{varint_of, record_of};

/// No varint begins another, and a varint has one value.
pub fn one_varint()
    ensures { (a b x y : List ℕ) (m n : ℕ) → IsVarint a m → IsVarint b n → a ++ x ≡ b ++ y → (a ≡ b) × (m ≡ n) }
{}

/// A varint's value has 64 bits.
pub fn varint_fits()
    ensures { (bytes : List ℕ) (value : ℕ) → IsVarint bytes value → value < 2 ^ 64 }
{}

/// The shortest varint is a varint of the value.
pub fn shortest_is_varint()
    ensures { (value : ℕ) → value < 2 ^ 64 → IsVarint (shortest value) value }
{}

/// A varint that is no longer than the shortest one of its value is this one.
pub fn no_varint_is_shorter()
    ensures { (bytes : List ℕ) (value : ℕ) → IsVarint bytes value → length bytes ≤ length (shortest value) → bytes ≡ shortest value }
{}

/// Bytes are the spellings of at most one list of records.
pub fn one_list()
    ensures { (bytes : List ℕ) (base : ℕ) (a b : List Record) → records bytes base a → records bytes base b → a ≡ b }
{}

/// Bytes that have a fault have no list.
pub fn a_fault_excludes_lists()
    ensures { (bytes : List ℕ) (base : ℕ) (fault : WireFault) (list : List Record) → wire_fault bytes base fault → records bytes base list → ⊥ }
{}

/// Bytes have at most one fault.
pub fn one_fault()
    ensures { (bytes : List ℕ) (base : ℕ) (a b : WireFault) → wire_fault bytes base a → wire_fault bytes base b → a ≡ b }
{}

/// Bytes have a list or a fault.
pub fn a_list_or_a_fault()
    ensures { (bytes : List ℕ) (base : ℕ) → All (λ b. b < 256) bytes →
        ((list : List Record) × records bytes base list) ⊎ ((fault : WireFault) × wire_fault bytes base fault) }
{}

/// Lists behind one another are one list.
pub fn lists_join()
    ensures one { (r : Record) (text : List ℕ) → Spells r text → records text r.place (r ∷ []) }
    ensures both { (a b : List ℕ) (base : ℕ) (xs ys : List Record) → records a base xs → records b (base + length a) ys → records (a ++ b) base (xs ++ ys) }
{}

/// Varints and runs behind their keys, each as short as can be, are records.
pub fn short_spellings()
    ensures varint { (place field value : ℕ) → 1 ≤ field → field < 2 ^ 61 → value < 2 ^ 64 →
        Spells (record { place = place; field = field; load = Varint value }) (shortest (8 * field + 0) ++ shortest value) }
    ensures run { (place field : ℕ) (content : List ℕ) → 1 ≤ field → field < 2 ^ 61 → length content < 2 ^ 64 →
        Spells (record { place = place; field = field; load = Run (record { start = place + length (shortest (8 * field + 2)) + length (shortest (length content)); len = length content }) })
        (shortest (8 * field + 2) ++ (shortest (length content) ++ content)) }
{}

/// A varint at the front of bytes is read as it stands there; where none stands, the reason is answered.
pub fn varints_are_read()
    ensures found { (front rest : List ℕ) (value : ℕ) → IsVarint front value → varint_of (front ++ rest) ≡ Ok (value, length front) }
    ensures refused { (bytes : List ℕ) (reason : WireReason) → VarintFails bytes reason → varint_of bytes ≡ Err reason }
    ensures spelled { (bytes : List ℕ) (value size : ℕ) → AllByRecursion (λ b. b < 256) bytes → varint_of bytes ≡ Ok (value, size) →
        (size ≤ length bytes) × IsVarint (take size bytes) value }
    ensures fails { (bytes : List ℕ) (reason : WireReason) → varint_of bytes ≡ Err reason → VarintFails bytes reason }
    ensures some { (bytes : List ℕ) (value size : ℕ) → varint_of bytes ≡ Ok (value, size) → 1 ≤ size }
{}

/// A record at the front of bytes is read as it stands there; where none stands, the reason is answered.
pub fn records_are_read()
    ensures found { (r : Record) (text rest : List ℕ) → Spells r text → record_of (text ++ rest) r.place ≡ Ok (r, length text) }
    ensures refused { (bytes : List ℕ) (reason : WireReason) (place : ℕ) → Fails bytes reason → record_of bytes place ≡ Err reason }
    ensures spelled { (bytes : List ℕ) (place : ℕ) (r : Record) (size : ℕ) → AllByRecursion (λ b. b < 256) bytes → record_of bytes place ≡ Ok (r, size) →
        (size ≤ length bytes) × Spells r (take size bytes) × (r.place ≡ place) }
    ensures fails { (bytes : List ℕ) (place : ℕ) (reason : WireReason) → AllByRecursion (λ b. b < 256) bytes → record_of bytes place ≡ Err reason → Fails bytes reason }
    ensures some { (bytes : List ℕ) (place : ℕ) (r : Record) (size : ℕ) → record_of bytes place ≡ Ok (r, size) → 1 ≤ size }
{}
