ghost use Rattle.std.specs.Prelude.{◌≡◌, ◌++◌, OnOk, string_bytes};
ghost use Rattle.acl_names.specs.Quoted.{pair_text};
ghost use Rattle.canonical_texts.specs.Texts.{target_text};

use crate::quotes::{write_quoted, write_schema};
use acl_names::Ident;
use acl_stmt::Target;
use std::alloc::{AllocError, Global};

/// Appends what privileges are granted on, or revoked.
pub(crate) fn write_target(
    text: &mut String,
    alloc: Global,
    target: &Target,
) -> Result<(), AllocError>
    ensures { OnOk result (string_bytes text.new ≡ string_bytes text.old ++ target_text target.now) }
{
    match target {
        Target::Global => text.push_str(" *.*"),
        Target::Schema(schema) => {
            text.push(' ')?;
            write_schema(text, alloc, schema.as_str())?;
            text.push_str(".*")
        }
        Target::Table(schema, table) => {
            text.push(' ')?;
            write_pair(text, schema, table)
        }
        Target::Function(schema, name) => {
            text.push_str(" FUNCTION ")?;
            write_pair(text, schema, name)
        }
        Target::Procedure(schema, name) => {
            text.push_str(" PROCEDURE ")?;
            write_pair(text, schema, name)
        }
    }
}

fn write_pair(text: &mut String, schema: &Ident, name: &Ident) -> Result<(), AllocError>
    ensures { OnOk result (string_bytes text.new ≡ string_bytes text.old ++ pair_text schema.now name.now) }
{
    write_quoted(text, schema.as_str())?;
    text.push('.')?;
    write_quoted(text, name.as_str())
}
