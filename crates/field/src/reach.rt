// Where positions can be hidden (RULES 3.8 and 3.9): from the first that opens the stretch up to V or the
// first nine. The roles alone tell, whatever the value is. What stands before these positions or behind them
// always prints.
ghost use Rattle.std.specs.Prelude.{◌≡◌, ◌≤◌, length};
ghost use Rattle.field.specs.Results.{nine_in};
ghost use Rattle.field.specs.Steps.{lead_to};

use roles::{does_open, is_nine};

// The positions before the first digit or drifting symbol.
pub(crate) fn lead_of(roles: &[u8]) -> usize
    ensures { (result ≡ lead_to roles.now (length roles.now)) × (result ≤ length roles.now) }
{
    roles
        .iter()
        .position(|role| does_open(*role) || is_nine(*role))
        .unwrap_or(roles.len())
}

// The positions before the first nine.
pub(crate) fn reach_of(roles: &[u8]) -> usize
    ensures { (result ≡ nine_in roles.now (length roles.now)) × (result ≤ length roles.now) }
{
    roles
        .iter()
        .position(|role| is_nine(*role))
        .unwrap_or(roles.len())
}
