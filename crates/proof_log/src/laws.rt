//! Laws of written logs: each function does nothing, and its contract is the law.

ghost use Rattle.std.specs.declared.alloc.Global.{Global};
ghost use Rattle.std.specs.Prelude.{◌≡◌, ℕ, true, List, [], ◌∷◌, String, string_bytes};
ghost use Rattle.hol_terms.specs.Name.{Name, is_name};
ghost use Rattle.hol_terms.specs.Tm.{Tm};
ghost use Rattle.hol_terms.specs.Base.{base};
ghost use Rattle.hol_terms.specs.declared.defs.Def.{Def};
ghost use Rattle.hol_kernel.specs.State.{State};
ghost use Rattle.hol_kernel.specs.Run.{IsRun};
ghost use Rattle.hol_kernel.specs.declared.step.Step.{Step};
ghost use Rattle.hol_logs.specs.Line.{is_section};
ghost use Rattle.hol_logs.specs.Log.{IsGoodLog, unlines};
ghost use Rattle.proof_log.specs.declared.marks.Mark.{Mark};
ghost use Rattle.proof_log.specs.declared.marks.End.{End};
ghost use Rattle.proof_log.specs.Marks.{IsFitEnd, AreFit};
ghost use Rattle.proof_log.specs.Written.{log_of, text_of, report_text};
ghost use Rattle.proof_log.specs.Theories.{base_mark, base_report, IsDefinedNext, define_marks, define_report};

/// The log of steps that give a kernel's state is good, with marks and an end that are fit for it; and its report is what its lines
/// print.
pub fn written_logs_are_good()
    ensures { (n : ℕ) (ds : List Def) (ss : List Step) (k : State) (marks : List Mark) (end : End) → IsRun ds ss k → AreFit n k marks end
        → IsGoodLog n (text_of (log_of k ds ss marks end)) (report_text (log_of k ds ss marks end)) }
{}

/// Over exactly the n base definitions, the base mark behind all steps is fit, and the log reports the base line and the end.
pub fn base_marks_are_fit()
    ensures fit { (n : ℕ) (k : State) (end : End) → k.defs ≡ base n → IsFitEnd end → AreFit n k (base_mark n k ∷ []) end }
    ensures report { (n : ℕ) (k : State) (end : End) (ds : List Def) (ss : List Step) → IsRun ds ss k → report_text (log_of k ds ss (base_mark n k ∷ []) end) ≡ unlines (base_report n end) }
{}

/// Where a constant of a new name was defined next, its definition's step is the last one of any steps that give the kernel's state:
/// a base mark and a section above it and a name for its theorem behind it are fit. The log reports these, with the definition.
pub fn marks_of_a_definition_are_fit()
    ensures fit { (n : ℕ) (old new : State) (c : Name) (t : Tm) (text name : String Global) (end : End) → IsDefinedNext n old new c t → is_section (string_bytes text) ≡ true → is_name (string_bytes name) ≡ true → IsFitEnd end
        → AreFit n new (define_marks n old text name) end }
    ensures report { (n : ℕ) (old new : State) (c : Name) (t : Tm) (text name : String Global) (end : End) (ds : List Def) (ss : List Step) → IsDefinedNext n old new c t → IsRun ds ss new
        → report_text (log_of new ds ss (define_marks n old text name) end) ≡ unlines (define_report n (string_bytes text) c t (string_bytes name) end) }
{}
