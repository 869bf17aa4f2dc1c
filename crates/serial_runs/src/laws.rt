//! What follows from the definitions. Each function does nothing when it runs: its contract is the law.
ghost use Rattle.std.specs.Prelude.{◌<◌, ◌≤◌, ◌∷◌, ℕ, List, length};
ghost use Rattle.std.specs.List.{All};
ghost use Rattle.legal_runs.specs.Core.{IsRun, history_of};
ghost use Rattle.legal_runs.specs.Report.{IsLegalReport, IsWholeRun, report_of};
ghost use Rattle.legal_runs.specs.Rules.{Setting};
ghost use Rattle.serial_runs.specs.Serial.{Step, events_of, script_by, session_by};

/// The law that lines run one after the other are a whole run of the sessions' commands, and so have a legal report.
pub fn serial_runs_are_whole()
    ensures whole { (on : Setting) (sessions : ℕ) (steps : List Step) → All (λ (step : Step). step.session < sessions) steps →
        IsRun on (events_of on steps) → IsWholeRun on (script_by 0 sessions steps) (events_of on steps) }
    ensures legal { (on : Setting) (sessions : ℕ) (steps : List Step) → All (λ (step : Step). step.session < sessions) steps →
        IsRun on (events_of on steps) →
        IsLegalReport on (script_by 0 sessions steps) (report_of on (script_by 0 sessions steps) (events_of on steps)) }
{}

/// The law that what a session knows never goes back, is never more than what is accepted, and is never behind what it has
/// read.
pub fn nothing_is_read_back()
    ensures within { (on : Setting) (session : ℕ) (steps : List Step) → IsRun on (events_of on steps) →
        (session_by on session steps).now ≤ length (history_of on (events_of on steps)) }
    ensures read { (on : Setting) (session : ℕ) (steps : List Step) → IsRun on (events_of on steps) →
        ((session_by on session steps).global ≤ (session_by on session steps).now)
        × ((session_by on session steps).schema ≤ (session_by on session steps).now) }
    ensures onward { (on : Setting) (session : ℕ) (step : Step) (steps : List Step) → IsRun on (events_of on (step ∷ steps)) →
        (session_by on session steps).now ≤ (session_by on session (step ∷ steps)).now }
{}
