ghost use Rattle.std.specs.Prelude.{◌≡◌};
ghost use Rattle.priv_items.specs.LevelRefusals.{first_wrong, wrong_in, wrong_level};

use crate::{Item, Named};
use acl_stmt::Target;
use priv_sets::{Level, Privilege};

/// The first privilege, in the order of the text, that is not granted at the level of the target: at the column level
/// where columns are named, which stand with a table alone. ALL and USAGE fit every target.
///
/// MySQL 8.0 Reference Manual, "Privileges Provided by MySQL".
pub fn wrong_level(named: &Named, target: &Target) -> Option<Privilege>
    ensures { result ≡ wrong_level named.now target.now }
{
    match named {
        Named::All => None,
        Named::Listed(items) => first_wrong(items.as_slice(), target),
    }
}

fn first_wrong(items: &[Item], target: &Target) -> Option<Privilege>
    ensures { result ≡ first_wrong target.now items.now }
{
    for item in items {
        if let Some(privilege) = wrong_in(item, target) {
            return Some(privilege);
        }
    }
    None
}

fn wrong_in(item: &Item, target: &Target) -> Option<Privilege>
    ensures { result ≡ wrong_in target.now item.now }
{
    let (privilege, granted) = match item {
        Item::Plain(plain) => (Privilege::Plain(*plain), plain.has_level(target.level())),
        Item::Columns { privilege, .. } => (
            Privilege::Plain(*privilege),
            privilege.has_level(Level::Column) && matches!(target, Target::Table(_, _)),
        ),
        Item::Dynamic(dynamic) => (
            Privilege::Dynamic(*dynamic),
            target.level() == Level::Global,
        ),
        Item::Usage => return None,
    };
    if granted { None } else { Some(privilege) }
}
