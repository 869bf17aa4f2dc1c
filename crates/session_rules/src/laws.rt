ghost use Rattle.std.specs.Prelude.{◌<◌, ℕ, List};
ghost use Rattle.std.specs.List.{All};
ghost use Rattle.legal_runs.specs.Core.{IsRun};
ghost use Rattle.legal_runs.specs.Report.{IsLegalReport, report_of};
ghost use Rattle.serial_runs.specs.Serial.{Step, events_of, script_by};
ghost use Rattle.session_rules.specs.Setting.{serial_setting};

/// The law that each run of a script has a legal report: its log is legal, and the answers of each session are right over the
/// one history in which the run ends. It does nothing when it runs.
pub fn script_runs_are_legal()
    ensures { (sessions : ℕ) (steps : List Step) → All (λ (step : Step). step.session < sessions) steps →
        IsRun serial_setting (events_of serial_setting steps) →
        IsLegalReport serial_setting (script_by 0 sessions steps)
        (report_of serial_setting (script_by 0 sessions steps) (events_of serial_setting steps)) }
{}
