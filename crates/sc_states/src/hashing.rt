//! Hashes of tuples.
ghost use Rattle.std.specs.Prelude.{◌≡◌};
ghost use Rattle.std.specs.List.{fold};
ghost use Rattle.sc_states.specs.Hashes.{hash_of, mixed};

/// The hash of a tuple.
pub(crate) fn hash_of(tuple: &[u32]) -> u32
    ensures { result ≡ hash_of tuple.now }
{
    let mut hash = 2_166_136_261;
    for number in tuple {
        hash = mix(hash, *number);
    }
    hash
}

fn mix(hash: u32, number: u32) -> u32
    ensures { result ≡ mixed hash number }
{
    hash.wrapping_mul(16_777_619).wrapping_add(number)
}
