ghost use Rattle.std.specs.Prelude.{◌≡◌};
ghost use Rattle.row_tables.specs.Layers.{is_in};

use acl_model::Row;

/// What a row stands on. Rows come from the first layer to the last, and go from the last to the first.
#[derive(Clone, Copy, PartialEq, Eq, Drop)]
pub enum Layer {
    /// The accounts, which stand on nothing.
    Accounts,
    /// What accounts hold.
    Holdings,
    /// The right to grant a dynamic privilege or a role, which stands on that privilege or role.
    Options,
}

pub(crate) fn is_in(layer: Layer, row: &Row) -> bool
    ensures { result ≡ is_in layer row.now }
{
    let own = match row {
        Row::Account(_) => Layer::Accounts,
        Row::DynamicGrant(_, _) | Row::Admin { .. } => Layer::Options,
        _ => Layer::Holdings,
    };
    own == layer
}
