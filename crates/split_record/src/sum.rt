// Checksums.

ghost use Rattle.std.specs.Prelude.{◌≡◌};
ghost use Rattle.hex.specs.Hex.{encode_lower};
ghost use Rattle.sha2.specs.Sha256.{sha256};

use sha2::{Digest, Sha256};

/// The SHA-256 checksum of some bytes, in 64 digits.
pub fn sum_of(bytes: &[u8]) -> [u8; 64]
    ensures { result ≡ encode_lower (sha256 bytes.now) }
{
    let digest = Sha256::digest(bytes);
    let mut digits = [0; 64];
    hex::encode_to_slice(digest, &mut digits).unwrap();
    digits
}
