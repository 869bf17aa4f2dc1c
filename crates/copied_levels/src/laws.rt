//! What follows from the definitions. Each function does nothing when it runs: its contract is the law.
ghost use Rattle.std.specs.Prelude.{◌≡◌, ◌&&◌, ◌<◌, ℕ, IsTrue, List, Some};
ghost use Rattle.acl_model.specs.Rights.{holds_globally, holds_on_schema, is_restricted, may_grant_dynamic};
ghost use Rattle.acl_model.specs.Verdict.{Reading, verdict_of};
ghost use Rattle.acl_stmt.specs.declared.request.Request.{Request};
ghost use Rattle.copied_levels.specs.Copied.{copied, readings_by, verdict_by};
ghost use Rattle.legal_runs.specs.Rules.{IsActing, IsCheckAnswer, IsReading, Setting, verdict_answer};
ghost use Rattle.legal_runs.specs.Sessions.{Views, Who};
ghost use Rattle.priv_map.specs.Readings.{IsReadAt, current_of};
ghost use Rattle.priv_map.specs.declared.acting.Acting.{Acting};
ghost use Rattle.priv_sets.specs.Levels.{has_level};
ghost use Rattle.priv_sets.specs.declared.level.Level.TheVariants.{Schema};
ghost use Rattle.priv_sets.specs.declared.privilege.Privilege.TheVariants.{Dynamic, Plain};

/// The law that the rights by a session's copies are those of the states where they were read: what it holds on `*.*`, what it
/// may grant, what is restricted, and what it holds on its current schema.
pub fn copies_hold_what_was_read()
    ensures plain { (acting : Acting) (login used : Reading) (p : ℕ) → IsReadAt acting login used → p < 31 →
        holds_globally (copied acting).state (copied acting).sources (Plain p) ≡ holds_globally login.state login.sources (Plain p) }
    ensures dynamic { (acting : Acting) (login used : Reading) (d : ℕ) → IsReadAt acting login used → d < 20 →
        holds_globally (copied acting).state (copied acting).sources (Dynamic d) ≡ holds_globally login.state login.sources (Dynamic d) }
    ensures grantable { (acting : Acting) (login used : Reading) (d : ℕ) → IsReadAt acting login used → d < 20 →
        (holds_globally (copied acting).state (copied acting).sources (Dynamic d) && may_grant_dynamic (copied acting).state (copied acting).sources d)
        ≡ (holds_globally login.state login.sources (Dynamic d) && may_grant_dynamic login.state login.sources d) }
    ensures restricted { (acting : Acting) (login used : Reading) (schema : List ℕ) (p : ℕ) → IsReadAt acting login used →
        IsTrue (has_level Schema p) →
        is_restricted (copied acting).state (copied acting).sources p schema ≡ is_restricted login.state login.sources p schema }
    ensures schema { (acting : Acting) (login used : Reading) (schema : List ℕ) (p : ℕ) → IsReadAt acting login used →
        current_of acting ≡ Some schema → p < 31 →
        holds_on_schema (copied acting).state (copied acting).sources schema p ≡ holds_on_schema used.state used.sources schema p }
{}

/// The law that the verdict by a session's copies is the verdict over the states where they were read and what is read now, and
/// so the answer to its CHECK.
pub fn checks_go_by_copies()
    ensures verdict { (acting : Acting) (login used present : Reading) (request : Request) → IsReadAt acting login used →
        verdict_by acting present request.privileges request.target
        ≡ verdict_of (readings_by login used present acting) request.privileges request.target }
    ensures answer { (on : Setting) (at : Views) (who : Who) (acting : Acting) (present : Reading) (request : Request) →
        IsActing on who at.level at.schema acting → IsReading on who at.present present →
        IsCheckAnswer on at who request.privileges request.target
        (verdict_answer (verdict_by acting present request.privileges request.target)) }
{}
