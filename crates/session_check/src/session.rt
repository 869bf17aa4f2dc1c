ghost use Rattle.std.specs.Prelude.{◌≡◌, ◌≤◌, List, length, take, OnErr, OnOk};
ghost use Rattle.acl_model.specs.Effects.{state_after};
ghost use Rattle.acl_model.specs.State.{opening};
ghost use Rattle.acl_model.specs.Verdict.{verdict_of};
ghost use Rattle.acl_stmt.specs.declared.entry.Entry.{Entry};
ghost use Rattle.map_publish.specs.History.{entries_of};
ghost use Rattle.priv_map.specs.Denials.{denial_of};
ghost use Rattle.priv_map.specs.Readings.{IsReadAt, reading_of};

use acl_names::Ident;
use acl_stmt::Request;
use line_answers::Points;
use map_publish::Published;
use priv_map::{Acting, Verdict};
use std::alloc::{AllocError, Global};

/// What a session has read.
///
/// MySQL 8.0 Reference Manual, "When Privilege Changes Take Effect".
#[derive(Debug, PartialEq, Eq, Drop)]
pub struct SessionState {
    acting: Acting,
    points: Points,
}

impl SessionState {
    ghost use Rattle.session_check.specs.Session.{StandsFor, UsesSchema, acting_of, points_of, readings_after};

    /// A session that has read all there was after `position` statements.
    pub fn new(acting: Acting, position: u32) -> SessionState
        ensures acting { acting_of result ≡ acting }
        ensures points { points_of result ≡ record { global = position; schema = position } }
        ensures read { (entries : List Entry) → position ≤ length entries →
            IsReadAt acting (reading_of (state_after (take position entries) opening) acting)
            (reading_of (state_after (take position entries) opening) acting) →
            StandsFor result entries }
    {
        SessionState {
            acting,
            points: Points {
                global: position,
                schema: position,
            },
        }
    }

    /// The check of a request, where these statements are accepted by now.
    ///
    /// MySQL 8.0 Reference Manual, "Access Control, Stage 2: Request Verification".
    pub fn check(&self, now: &Published, request: &Request) -> Verdict
        ensures { StandsFor self.now (entries_of now.now) →
            denial_of result ≡ verdict_of (readings_after self.now (entries_of now.now))
            request.now.privileges request.now.target }
    {
        now.map().verdict(&self.acting, request)
    }

    /// Chooses the current schema, and reads it. An error changes nothing.
    ///
    /// MySQL 8.0 Reference Manual, "USE Statement".
    pub fn use_schema(
        &mut self,
        alloc: Global,
        now: &Published,
        schema: &Ident,
    ) -> Result<(), AllocError>
        ensures ok { OnOk result (UsesSchema self.old self.new schema.now (length (entries_of now.now))) }
        ensures read { OnOk result (StandsFor self.old (entries_of now.now) → StandsFor self.new (entries_of now.now)) }
        ensures err { OnErr result (self.new ≡ self.old) }
    {
        let held = now.map().schema_held(alloc, &self.acting, schema)?;
        self.acting.current = Some(held);
        self.points.schema = now.length();
        Ok(())
    }

    /// Whom the session acts for, and what it has read.
    pub fn acting(&self) -> &Acting
        ensures { result.now ≡ acting_of self.now }
    {
        &self.acting
    }

    /// How many statements had been accepted when it read.
    pub fn points(&self) -> Points
        ensures { result ≡ points_of self.now }
    {
        self.points
    }
}
