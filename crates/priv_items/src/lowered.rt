ghost use Rattle.std.specs.Prelude.{◌≡◌, IfOk, IsTrue};
ghost use Rattle.std.specs.Str.{str_to_ascii_lowercase};
ghost use Rattle.acl_names.specs.Text.{is_lower};
ghost use Rattle.acl_stmt.specs.Targets.{is_target};
ghost use Rattle.priv_items.specs.Lowered.{lowered_target};

use acl_names::{Ident, NameRefusal};
use acl_stmt::Target;
use std::alloc::{AllocError, Global};

/// The target with the name of a routine in lower ASCII case. Schemas and tables stay as they are written.
///
/// MySQL 8.0 Reference Manual, "Identifier Case Sensitivity".
pub fn lowered_target(alloc: Global, target: Target) -> Result<Target, AllocError>
    ensures value { IfOk result (λ made. made ≡ lowered_target target) }
    ensures routine { IfOk result (λ made. IsTrue (is_target made)) }
{
    Ok(match target {
        Target::Function(schema, name) => Target::Function(schema, lowered(alloc, &name)?),
        Target::Procedure(schema, name) => Target::Procedure(schema, lowered(alloc, &name)?),
        other => other,
    })
}

/// The name in lower ASCII case.
#[tactic(auto, using(crate::proofs::ShortNames::name_is_short))]
pub(crate) fn lowered(alloc: Global, name: &Ident) -> Result<Ident, AllocError>
    ensures value { IfOk result (λ made. made ≡ str_to_ascii_lowercase name.now) }
    ensures lower { IfOk result (λ made. IsTrue (is_lower made)) }
{
    match Ident::read_lower(alloc, name.as_str()) {
        Ok(name) => Ok(name),
        Err(NameRefusal::NoMemory) => Err(AllocError),
        // A name has no fault.
        Err(_) => unreachable!(),
    }
}
