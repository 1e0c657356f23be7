// Bytes that are made up, where only how many there are matters.
ghost use Rattle.std.specs.Prelude.{◌≡◌, ◌%◌, map, IfOk, vec_items, vec_len};
ghost use Rattle.std.specs.List.{range_with_len};

use std::alloc::{AllocError, Global};

// As many bytes as the count says: 0 to 250, over and over.
pub fn fill_bytes(heap: Global, count: usize) -> Result<Vec<u8>, AllocError>
    ensures bytes { IfOk result (λ v. vec_items v ≡ map (λ i. i % 251) (range_with_len 0 count)) }
    ensures len { IfOk result (λ v. vec_len v ≡ count) }
{
    // Two arms for speed alone: a remainder of 32 bits takes a quarter of the time of one of 64.
    match u32::try_from(count) {
        Ok(count) => (0..count).map(|i| (i % 251) as u8).collect(heap),
        Err(_) => (0..count).map(|i| (i % 251) as u8).collect(heap),
    }
}

#[cfg(test)]
mod tests {
    use super::*;
    use std::test::Fail;

    #[test]
    fn fills_past_the_turn(rt: HostRuntime) -> Result<(), Fail> {
        let bytes = fill_bytes(rt.alloc(), 253)?;
        assert_eq!(rt; bytes.len(), 253);
        assert_eq!(rt;
            bytes.as_slice().get(248..253),
            Some([248u8, 249, 250, 0, 1].as_slice())
        );
        Ok(())
    }
}
