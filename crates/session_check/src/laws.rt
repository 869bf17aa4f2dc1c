ghost use Rattle.std.specs.Prelude.{◌++◌, List};
ghost use Rattle.acl_stmt.specs.declared.entry.Entry.{Entry};
ghost use Rattle.session_check.specs.Session.{StandsFor};
ghost use Rattle.session_check.specs.declared.session.SessionState.{SessionState as Session};

/// The law that later statements change nothing of what a session has read. It does nothing when it runs.
pub fn later_statements_keep_what_was_read()
    ensures { (session : Session) (entries more : List Entry) →
        StandsFor session entries → StandsFor session (entries ++ more) }
{}
