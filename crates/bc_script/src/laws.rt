//! Laws of the script language.

ghost use Rattle.std.specs.Prelude.{◌≡◌, ◌↔◌, ◌++◌, [], ℕ, List, None};
ghost use Rattle.bc_script.specs.Script as specs;
ghost use Rattle.bc_script.specs.ScriptText.{SaysScript, script_text};
ghost use Rattle.bc_script.specs.ScriptErrors.{error_of};

/// No script's text begins another's, so a text that was read to its `end` line is whole, and a
/// text is that of one script.
pub fn no_proper_prefix()
    ensures { (a b : specs.Script) (more : List ℕ) → specs.IsScript a → specs.IsScript b
        → script_text a ++ more ≡ script_text b → (a ≡ b) × (more ≡ []) }
{}

/// No line of a text fails a test exactly where some script has the text. So a text that is
/// answered an error is no script's, and each other text is.
pub fn errors_are_exact()
    ensures { (text : List ℕ) → (error_of text ≡ None) ↔ ((s : specs.Script) × SaysScript text s) }
{}
