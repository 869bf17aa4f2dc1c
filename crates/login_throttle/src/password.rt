//! What is kept of a password.
ghost use Rattle.std.specs.Prelude.{◌≡◌};
ghost use Rattle.sha2.specs.Sha256.{sha256};

use acl_names::Verifier;
use sha2::{Digest, Sha256};

/// What is kept of a password, by which a later one is compared. It is no secret: equal passwords have equal digests.
pub fn verifier(password: &str) -> Verifier
    ensures { result.0 ≡ sha256 password.now }
{
    Verifier(Sha256::digest(password.as_bytes()))
}
