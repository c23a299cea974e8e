//! The order of keys, as writers sort them.

ghost use Rattle.std.specs.Prelude.{◌≡◌, [], ◌∷◌, ◌++◌, map};
ghost use Rattle.std.specs.Bool.{OnTrue};
ghost use Rattle.std.specs.Ordering.{is_lt};
ghost use Rattle.aux_codec.specs.Order.{rank, by_rank, Ascend};

/// The bytes before the last eight, and the last eight as a number; all bytes where there are fewer.
fn rank(bytes: &[u8]) -> (&[u8], u64)
    ensures { (result.0.now, result.1) ≡ rank bytes.now }
{
    match bytes.split_last_chunk::<8>() {
        None => (bytes, 0),
        Some((front, last)) => (front, u64::from_le_bytes(*last)),
    }
}

fn is_before(x: &[u8], y: &[u8]) -> bool
    ensures { result ≡ is_lt (by_rank x.now y.now) }
{
    rank(x).cmp(&rank(y)).is_lt()
}

/// Whether bytes stand behind keys that ascend.
pub fn is_behind(bytes: &[u8], keys: &[&[u8]]) -> bool
    requires { Ascend (map (λ k. k.now) keys.now) }
    ensures { OnTrue result (Ascend (map (λ k. k.now) keys.now ++ bytes.now ∷ [])) }
{
    match keys.last() {
        None => true,
        Some(last) => is_before(last, bytes),
    }
}
