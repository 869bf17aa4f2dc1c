//! What is kept of an account's wrong passwords.
ghost use Rattle.std.specs.Prelude.{◌≡◌};
ghost use Rattle.login_throttle.specs.Stamp.{fresh};

/// The wrong passwords of an account, as far as they still count.
#[derive(Clone, Copy, Debug, PartialEq, Eq, Hash, Default, Drop)]
pub struct Stamp {
    /// How many count; those that an ended block used up do not.
    pub failures: u16,
    /// The moment of the wrong password that blocked the account, in seconds since 1970-01-01T00:00:00Z.
    pub blocked_at: Option<i64>,
}

/// Counts anew, as after a success or once an account is unlocked.
pub fn reset(stamp: &mut Stamp)
    ensures { stamp.new ≡ fresh }
{
    *stamp = Stamp {
        failures: 0,
        blocked_at: None,
    };
}
