//! What follows from the definitions, for every text and every two accounts. Each function is empty: its contract is
//! the law.
ghost use Rattle.std.specs.Prelude.{◌≡◌, ◌+◌, ◌*◌, ◌<◌, ℕ, List, Some, None, IsSome};
ghost use Rattle.std.specs.Net.Text.{dotted_text};
ghost use Rattle.std.specs.declared.cmp.Ordering.TheVariants.{Equal};
ghost use Rattle.acl_names.specs.declared.auth.AuthId.{AuthId};
ghost use Rattle.account_match.specs.Address.{IsSpelled, address_of};
ghost use Rattle.account_match.specs.Form.{first_slash, form_of};
ghost use Rattle.account_match.specs.Order.{account_order};

/// A text has an address exactly where it is four decimal numbers below 256 with dots between them.
pub fn addresses_are_spelled()
    ensures read { (a b c d : ℕ) → a < 256 → b < 256 → c < 256 → d < 256 → address_of (dotted_text a b c d) ≡ Some (((a * 256 + b) * 256 + c) * 256 + d) }
    ensures only { (text : List ℕ) (bits : ℕ) → address_of text ≡ Some bits → IsSpelled text bits }
{}

/// Every host without a `/` is read.
pub fn refused_hosts_have_a_slash()
    ensures { (host : List ℕ) → form_of host ≡ None → IsSome (first_slash host) }
{}

/// Two accounts that stand at one place in the order are the same.
pub fn accounts_are_never_tied()
    ensures { (a b : AuthId) → account_order a b ≡ Equal → a ≡ b }
{}
