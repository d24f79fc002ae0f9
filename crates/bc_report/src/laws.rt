//! Laws of reports and their texts.

ghost use Rattle.std.specs.Prelude.{◌≡◌, ◌++◌, [], ℕ, List};
ghost use Rattle.bc_report.specs.Report as specs;
ghost use Rattle.bc_report.specs.ReportText.{SaysReport, report_text};
ghost use Rattle.bc_report.specs.ReportErrors.{IsFirstBad};

/// Every report has exactly one text: its own, and no other.
pub fn one_text_for_each_report()
    ensures has_text { (report : specs.Report) → specs.IsReport report → SaysReport (report_text report) report }
    ensures no_other { (report : specs.Report) (text : List ℕ) → SaysReport text report → text ≡ report_text report }
{}

/// Two reports with one text are one report.
pub fn one_report_for_each_text()
    ensures { (a b : specs.Report) (text : List ℕ) → SaysReport text a → SaysReport text b → a ≡ b }
{}

/// No report's text begins another's, so a text that was read to its `end` line is whole.
pub fn no_proper_prefix()
    ensures { (a b : specs.Report) (more : List ℕ) → specs.IsReport a → specs.IsReport b
        → report_text a ++ more ≡ report_text b → (a ≡ b) × (more ≡ []) }
{}

/// One line alone is the first that no report has there, and only of a text that no report has.
pub fn one_first_bad_line()
    ensures one { (text : List ℕ) (m n : ℕ) → IsFirstBad text m → IsFirstBad text n → m ≡ n }
    ensures no_report { (text : List ℕ) (line : ℕ) (report : specs.Report) → IsFirstBad text line
        → SaysReport text report
        → ⊥ }
{}
