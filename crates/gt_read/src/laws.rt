//! Laws of the definitions that contracts cite: each function is its contract.

ghost use Rattle.std.specs.Prelude.{◌≡◌, ◌+◌, ◌<◌, ◌≤◌, ℕ, List, [], ◌∷◌, ◌++◌, length, map, Option, Some, None, Ok, Err};
ghost use Rattle.std.specs.BTreeMap.{is_at};
ghost use Rattle.std.specs.List.{AllByRecursion};
ghost use Rattle.std.specs.List.Sorted.{IsStrictlySortedBy};
ghost use Rattle.std.specs.Map.{lookup};
ghost use Rattle.std.specs.Ordering.{nat_cmp};
ghost use Rattle.gr_base.specs.declared.end.End.TheVariants as ends;
ghost use Rattle.pb_wire.specs.declared.fault.WireFault.{WireFault};
ghost use Rattle.pb_wire.specs.declared.fault.WireReason.{WireReason};
ghost use Rattle.pb_wire.specs.declared.records.Record.{Record};
ghost use Rattle.pb_wire.specs.Ahead.{Ahead};
ghost use Rattle.pb_wire.specs.Faults.{wire_fault, varints_fault};
ghost use Rattle.pb_wire.specs.Records.{records, Takes};
ghost use Rattle.pb_wire.specs.Varint.{IsVarint, varints};
ghost use Rattle.gt_model.specs.declared.ir.Ir.{Ir};
ghost use Rattle.gt_model.specs.Ordered.{ordered};
ghost use Rattle.gt_model.specs.Schema.{Key, key_kind, Rows, ir_rows};
ghost use Rattle.gt_model.specs.Typed.{AreBytes, typed};
ghost use Rattle.gt_model.specs.Views.{ir_value};
ghost use Rattle.gt_read.specs.declared.fault.FormatFault.{FormatFault};
ghost use Rattle.gt_read.specs.Faults.{faults, first_of};
ghost use Rattle.gt_read.specs.File.{file, format_fault};
ghost use Rattle.gt_read.specs.Joining.{Entry, HasNone, ir_join};
ghost use Rattle.gt_read.specs.Kinds.{Read, packed, put_number};
ghost use Rattle.gt_read.specs.Meaning.{key_cmp, map_of, meaning};
ghost use Rattle.gt_read.specs.Outcome.{outcome};
ghost use Rattle.gt_read.specs.Places.{place_of};
ghost use Rattle.gt_read.specs.Pieces.{Piece, piece_of, pieces, broken, walk, put_first};

/// The pieces of bytes are the records of the list that spells them, and nothing is broken; where
/// there is a wire fault, they are the records before it, and it is what is broken.
pub fn pieces_are_the_records()
    ensures list { (bytes : List ℕ) (base : ℕ) (list : List Record) → records bytes base list →
        (pieces bytes base ≡ map (piece_of bytes base) list) × (broken bytes base ≡ None) }
    ensures fault { (bytes : List ℕ) (base : ℕ) (fault : WireFault) (f : wire_fault bytes base fault) →
        (pieces bytes base ≡ map (piece_of bytes base) f.list) × (broken bytes base ≡ Some fault) }
{
    pb_wire::laws::records_are_read();
}

/// The records of bytes are the one at the front and those behind it.
pub fn records_one_by_one()
    ensures { (r : Record) (old new : Ahead) → Takes r old new → walk old.bytes old.place ≡ put_first (piece_of old.bytes old.place r) (walk new.bytes new.place) }
{
    pb_wire::laws::records_are_read();
}

/// A packed run is read as the varints that spell it; where there is a fault, as those before it.
pub fn packed_runs_are_varints()
    ensures list { (bytes numbers : List ℕ) → varints bytes numbers → packed bytes ≡ record { numbers = numbers; failed = None } }
    ensures fault { (bytes numbers : List ℕ) (reason : WireReason) → varints_fault bytes numbers reason → packed bytes ≡ record { numbers = numbers; failed = Some reason } }
    ensures first { (front rest : List ℕ) (number : ℕ) → IsVarint front number → packed (front ++ rest) ≡ put_number number (packed rest) }
{
    pb_wire::laws::varints_are_read();
}

/// Bytes mean one IR at most.
pub fn one_meaning()
    ensures { (bytes : List ℕ) (a b : Ir) → file bytes a → file bytes b → a ≡ b }
{
    gt_model::laws::one_value();
}

/// Bytes that mean an IR have no fault.
pub fn a_file_has_no_fault()
    ensures none { (bytes : List ℕ) (ir : Ir) → file bytes ir → format_fault bytes ≡ None }
    ensures excluded { (bytes : List ℕ) (fault : FormatFault) (ir : Ir) → format_fault bytes ≡ Some fault → file bytes ir → ⊥ }
{}

/// Bytes without a fault mean an IR.
pub fn no_fault_is_a_file()
    ensures { (bytes : List ℕ) → format_fault bytes ≡ None → (ir : Ir) × file bytes ir }
{}

/// What bytes come to is the IR that they mean, or their first fault.
pub fn an_outcome_is_a_file()
    ensures meant { (bytes : List ℕ) (ir : Ir) → outcome bytes ≡ Ok (ir_value ir) → file bytes ir }
    ensures fault { (bytes : List ℕ) (fault : FormatFault) → outcome bytes ≡ Err (ends.Fault fault) → format_fault bytes ≡ Some fault }
{}

/// An IR that bytes mean has values of its types, its maps in order, and a version of one byte.
pub fn a_file_is_typed()
    ensures typed { (bytes : List ℕ) (ir : Ir) → AreBytes bytes → file bytes ir → typed ir }
    ensures order { (bytes : List ℕ) (ir : Ir) → file bytes ir → ordered ir }
    ensures version { (bytes : List ℕ) (ir : Ir) → AreBytes bytes → file bytes ir → ir.version < 256 }
{
    pb_wire::laws::records_are_read();
    pb_wire::laws::varints_are_read();
    pb_wire::laws::varint_fits();
}

/// The keys of a map ascend strictly, and each has the value of its last entry.
pub fn each_key_has_its_last_value()
    ensures order { (k : Key) (rows : Rows) (es : List (Entry k rows)) →
        IsStrictlySortedBy (key_cmp k) (map (λ (e : Entry k rows). e.0) (map_of (key_cmp k) es)) }
    ensures last { (k : Key) (rows : Rows) (before after : List (Entry k rows)) (e : Entry k rows) → HasNone k rows e.0 after →
        lookup (is_at (key_cmp k e.0)) (map_of (key_cmp k) (before ++ e ∷ after)) ≡ Some e.1 }
    ensures none { (k : Key) (rows : Rows) (es : List (Entry k rows)) (key : Read (key_kind k)) → HasNone k rows key es →
        lookup (is_at (key_cmp k key)) (map_of (key_cmp k) es) ≡ None }
{}

/// The meaning of the records of two parts of an IR, behind one another, joins those of the parts.
pub fn parts_are_joined()
    ensures { (first second : List Piece) → meaning ir_rows 0 (first ++ second) ≡ ir_join second (meaning ir_rows 0 first) (meaning ir_rows 0 second) }
{}

/// The places of what is wrong with the records of a body ascend, so the first of it has the least place.
pub fn places_ascend()
    ensures order { (body : List ℕ) (base : ℕ) → AreBytes body → IsStrictlySortedBy nat_cmp (map place_of (faults ir_rows body base)) }
    ensures least { (body : List ℕ) (base : ℕ) → AreBytes body → (first : FormatFault) → first_of (faults ir_rows body base) ≡ Some first →
        AllByRecursion (λ fault. place_of first ≤ place_of fault) (faults ir_rows body base) }
{
    pb_wire::laws::records_are_read();
    pb_wire::laws::varints_are_read();
    pb_wire::laws::varint_fits();
}
