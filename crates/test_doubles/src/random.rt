// Numbers that look drawn at random, the same in each run.

/// For tests alone: the next number of Knuth's generator for MMIX.
pub fn next_random(seed: u64) -> u64 {
    seed.wrapping_mul(6364136223846793005)
        .wrapping_add(1442695040888963407)
}
